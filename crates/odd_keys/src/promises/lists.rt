//! The bindings decide the stored list, whatever commands a map was given. Its list is the only
//! coarse one that binds the same, none is shorter, and maps are equal where they bind alike. Over
//! every complete key.

ghost use Rattle.std.specs.Prelude.{◌↔◌, IfOk, IsTrue};
ghost use Rattle.std.specs.Option.{option_copied};
ghost use Rattle.std.specs.Ordering.{int_eq};
ghost use Rattle.btree_range_map.specs.Bindings.{BindAlike};
ghost use Rattle.btree_range_map.specs.Holding.{box_items};
ghost use Rattle.btree_range_map.specs.Names.{u8_order, u16_order, u32_order, u64_order, usize_order, i8_order, i16_order, i32_order, i64_order, char_order};
ghost use Rattle.btree_range_map.specs.Range.{ClonesAreEqual};
ghost use Rattle.btree_range_map.specs.Tagged.{MayBeAskedAll};
ghost use Rattle.odd_keys.specs.Promises.{IsAdded, IsShortest};

use crate::half::Half;
use crate::only::Only;
use crate::promises::{Commands, NoSum, added};
use btree_range_map::generic::RangeMap;
use btree_range_map::generic::map::{Command, run};
use btree_range_map::range::traits::{Complete, MaybeBounded};
use btree_range_map::storage::{Item, Storage};
use btree_range_map::{AnyRange, DefaultMapContainer, MapError, Measure, RangeMap as Map};
use std::alloc::Global;

/// A map, how many ranges it stores, and whether it equals another.
#[derive(Drop)]
pub struct Compared<K: Measure, V: Eq, C: Storage<Item<AnyRange<K>, V>>> {
    pub map: RangeMap<K, V, C>,
    pub range_count: usize,
    pub is_equal: bool,
}

/// Gives the commands to a new map, and compares it with another.
pub fn compared_after_commands<K, V, T, E, F, C, D>(
    alloc: Global,
    commands: Vec<Command<K, V, T>>,
    f: &F,
    other: &RangeMap<K, V, D>,
) -> Result<Compared<K, V, C>, MapError>
where
    K: Complete + Measure + Clone,
    V: Eq + Clone,
    T: Drop,
    E: Drop,
    F: Fn(&T, Option<&V>) -> Result<Option<V>, E>,
    C: Storage<Item<AnyRange<K>, V>>,
    D: Storage<Item<AnyRange<K>, V>>,
    requires keys { ClonesAreEqual K.is_clone K.eq }
    requires values { ClonesAreEqual V.is_clone V.eq }
    requires callable { MayBeAskedAll F.Fn f.now }
    ensures canonical { IfOk result
        (λ made. IsShortest K.order V.eq (C.items made.map) made.range_count) }
    ensures equal { IfOk result (λ made. IsTrue made.is_equal
        ↔ BindAlike K.order V.eq (C.items made.map) (D.items other.now)) }
{
    let mut map: RangeMap<K, V, C> = RangeMap::new(alloc);
    run(alloc, &mut map, commands, f)?;
    let _items = map.iter(); // whose contract says that the list is the only coarse one
    let range_count = map.range_count();
    let is_equal = map.eq_across(other);
    Ok(Compared {
        map,
        range_count,
        is_equal,
    })
}

/// A map of numbers in the default container, beside another.
pub type Numbers<K> = Result<
    Compared<K, i64, DefaultMapContainer<Item<AnyRange<K>, i64>>>,
    MapError,
>;

fn numbers_after_commands<K: Complete + Measure + Clone>(
    alloc: Global,
    commands: Commands<K>,
    other: &Map<K, i64>,
) -> Numbers<K>
    requires { ClonesAreEqual K.is_clone K.eq }
    ensures canonical { IfOk result
        (λ made. IsShortest K.order int_eq (box_items made.map) made.range_count) }
    ensures equal { IfOk result (λ made. IsTrue made.is_equal
        ↔ BindAlike K.order int_eq (box_items made.map) (box_items other.now)) }
{
    let add = |tag: &i64, old: Option<&i64>| -> Result<Option<i64>, NoSum>
        ensures { IsAdded tag.now (option_copied old.entry) result }
    { added(tag, old) };
    compared_after_commands(alloc, commands, &add, other)
}

/// Over a type that has one key.
pub fn over_only(alloc: Global, commands: Commands<Only>, other: &Map<Only, i64>) -> Numbers<Only>
    ensures canonical { IfOk result
        (λ made. IsShortest ⟦<Only as MaybeBounded>⟧.order int_eq (box_items made.map) made.range_count) }
    ensures equal { IfOk result (λ made. IsTrue made.is_equal
        ↔ BindAlike ⟦<Only as MaybeBounded>⟧.order int_eq (box_items made.map) (box_items other.now)) }
{
    numbers_after_commands(alloc, commands, other)
}

/// Over keys of which several are equal, and whose neighbours are known.
pub fn over_halves(alloc: Global, commands: Commands<Half>, other: &Map<Half, i64>) -> Numbers<Half>
    ensures canonical { IfOk result
        (λ made. IsShortest ⟦<Half as MaybeBounded>⟧.order int_eq (box_items made.map) made.range_count) }
    ensures equal { IfOk result (λ made. IsTrue made.is_equal
        ↔ BindAlike ⟦<Half as MaybeBounded>⟧.order int_eq (box_items made.map) (box_items other.now)) }
{
    numbers_after_commands(alloc, commands, other)
}

pub fn over_u8(alloc: Global, commands: Commands<u8>, other: &Map<u8, i64>) -> Numbers<u8>
    ensures canonical { IfOk result
        (λ made. IsShortest u8_order int_eq (box_items made.map) made.range_count) }
    ensures equal { IfOk result (λ made. IsTrue made.is_equal
        ↔ BindAlike u8_order int_eq (box_items made.map) (box_items other.now)) }
{
    numbers_after_commands(alloc, commands, other)
}

pub fn over_u16(alloc: Global, commands: Commands<u16>, other: &Map<u16, i64>) -> Numbers<u16>
    ensures canonical { IfOk result
        (λ made. IsShortest u16_order int_eq (box_items made.map) made.range_count) }
    ensures equal { IfOk result (λ made. IsTrue made.is_equal
        ↔ BindAlike u16_order int_eq (box_items made.map) (box_items other.now)) }
{
    numbers_after_commands(alloc, commands, other)
}

pub fn over_u32(alloc: Global, commands: Commands<u32>, other: &Map<u32, i64>) -> Numbers<u32>
    ensures canonical { IfOk result
        (λ made. IsShortest u32_order int_eq (box_items made.map) made.range_count) }
    ensures equal { IfOk result (λ made. IsTrue made.is_equal
        ↔ BindAlike u32_order int_eq (box_items made.map) (box_items other.now)) }
{
    numbers_after_commands(alloc, commands, other)
}

pub fn over_u64(alloc: Global, commands: Commands<u64>, other: &Map<u64, i64>) -> Numbers<u64>
    ensures canonical { IfOk result
        (λ made. IsShortest u64_order int_eq (box_items made.map) made.range_count) }
    ensures equal { IfOk result (λ made. IsTrue made.is_equal
        ↔ BindAlike u64_order int_eq (box_items made.map) (box_items other.now)) }
{
    numbers_after_commands(alloc, commands, other)
}

pub fn over_usize(
    alloc: Global,
    commands: Commands<usize>,
    other: &Map<usize, i64>,
) -> Numbers<usize>
    ensures canonical { IfOk result
        (λ made. IsShortest usize_order int_eq (box_items made.map) made.range_count) }
    ensures equal { IfOk result (λ made. IsTrue made.is_equal
        ↔ BindAlike usize_order int_eq (box_items made.map) (box_items other.now)) }
{
    numbers_after_commands(alloc, commands, other)
}

pub fn over_i8(alloc: Global, commands: Commands<i8>, other: &Map<i8, i64>) -> Numbers<i8>
    ensures canonical { IfOk result
        (λ made. IsShortest i8_order int_eq (box_items made.map) made.range_count) }
    ensures equal { IfOk result (λ made. IsTrue made.is_equal
        ↔ BindAlike i8_order int_eq (box_items made.map) (box_items other.now)) }
{
    numbers_after_commands(alloc, commands, other)
}

pub fn over_i16(alloc: Global, commands: Commands<i16>, other: &Map<i16, i64>) -> Numbers<i16>
    ensures canonical { IfOk result
        (λ made. IsShortest i16_order int_eq (box_items made.map) made.range_count) }
    ensures equal { IfOk result (λ made. IsTrue made.is_equal
        ↔ BindAlike i16_order int_eq (box_items made.map) (box_items other.now)) }
{
    numbers_after_commands(alloc, commands, other)
}

pub fn over_i32(alloc: Global, commands: Commands<i32>, other: &Map<i32, i64>) -> Numbers<i32>
    ensures canonical { IfOk result
        (λ made. IsShortest i32_order int_eq (box_items made.map) made.range_count) }
    ensures equal { IfOk result (λ made. IsTrue made.is_equal
        ↔ BindAlike i32_order int_eq (box_items made.map) (box_items other.now)) }
{
    numbers_after_commands(alloc, commands, other)
}

pub fn over_i64(alloc: Global, commands: Commands<i64>, other: &Map<i64, i64>) -> Numbers<i64>
    ensures canonical { IfOk result
        (λ made. IsShortest i64_order int_eq (box_items made.map) made.range_count) }
    ensures equal { IfOk result (λ made. IsTrue made.is_equal
        ↔ BindAlike i64_order int_eq (box_items made.map) (box_items other.now)) }
{
    numbers_after_commands(alloc, commands, other)
}

pub fn over_char(alloc: Global, commands: Commands<char>, other: &Map<char, i64>) -> Numbers<char>
    ensures canonical { IfOk result
        (λ made. IsShortest char_order int_eq (box_items made.map) made.range_count) }
    ensures equal { IfOk result (λ made. IsTrue made.is_equal
        ↔ BindAlike char_order int_eq (box_items made.map) (box_items other.now)) }
{
    numbers_after_commands(alloc, commands, other)
}
