//! The last write wins: whatever commands a map is given, the last one on a key that was not refused
//! decides what the key is bound to. Over every lawful key.

ghost use Rattle.std.specs.Prelude.{IfOk, IfSome};
ghost use Rattle.std.specs.Option.{option_copied};
ghost use Rattle.std.specs.Ordering.{int_eq};
ghost use Rattle.btree_range_map.specs.Bindings.{Binds};
ghost use Rattle.btree_range_map.specs.Names.{u8_order, u16_order, u32_order, u64_order, usize_order, i8_order, i16_order, i32_order, i64_order, char_order};
ghost use Rattle.btree_range_map.specs.Range.{ClonesAreEqual};
ghost use Rattle.btree_range_map.specs.Tagged.{MayAnswerTo, MayBeAskedAll};
ghost use Rattle.odd_keys.specs.Promises.{IsAdded, IsDecided};

use crate::blind::{Blind, Never};
use crate::fraction::Fraction;
use crate::half::Half;
use crate::only::Only;
use crate::promises::{Commands, NoSum, added};
use crate::ring::RingStorage;
use btree_range_map::generic::RangeMap;
use btree_range_map::generic::map::{Command, Reply, run};
use btree_range_map::range::traits::MaybeBounded;
use btree_range_map::storage::{Item, Storage};
use btree_range_map::{AnyRange, DefaultMapContainer, MapError, Measure};
use std::alloc::{AllocError, Global};
use std::marker::PhantomData;

/// The replies to commands, and what a key is bound to after them.
#[derive(Drop)]
pub struct Answered<K, V, E> {
    pub replies: Vec<Reply<K, V, E>>,
    pub value: Option<V>,
}

/// A clone of what the map binds the key to.
fn clone_of_bound<K: Measure, V: Eq + Clone, C: Storage<Item<AnyRange<K>, V>>>(
    map: &RangeMap<K, V, C>,
    key: K,
) -> Result<Option<V>, AllocError>
    requires { ClonesAreEqual V.is_clone V.eq }
    ensures { IfOk result (λ value. Binds K.order V.eq (C.items map.now) key value) }
{
    match map.get(key) {
        Some(value) => Ok(Some(value.clone()?)),
        None => Ok(None),
    }
}

/// Gives the commands to a new map, and then asks it for the key.
pub fn bound_by_commands<K, V, T, E, F, C>(
    alloc: Global,
    commands: Vec<Command<K, V, T>>,
    f: &F,
    key: K,
    _container: PhantomData<C>,
) -> Result<Answered<K, V, E>, MapError>
where
    K: Measure + Clone,
    V: Eq + Clone,
    T: Drop,
    E: Drop,
    F: Fn(&T, Option<&V>) -> Result<Option<V>, E>,
    C: Storage<Item<AnyRange<K>, V>>,
    requires keys { ClonesAreEqual K.is_clone K.eq }
    requires values { ClonesAreEqual V.is_clone V.eq }
    requires callable { MayBeAskedAll F.Fn f.now }
    ensures { IfOk result (λ answered. IsDecided K.order V.eq (MayAnswerTo F.Fn f.now) key
        commands.items answered.replies.items answered.value) }
{
    key.known();
    let mut map: RangeMap<K, V, C> = RangeMap::new(alloc);
    let replies = run(alloc, &mut map, commands, f)?;
    let value = clone_of_bound(&map, key)?;
    Ok(Answered { replies, value })
}

/// What commands to a map of numbers are answered, and what a key is bound to after them.
pub type Numbers<K> = Result<Answered<K, i64, NoSum>, MapError>;

fn number_in<K: Measure + Clone, C: Storage<Item<AnyRange<K>, i64>>>(
    alloc: Global,
    commands: Commands<K>,
    key: K,
    container: PhantomData<C>,
) -> Numbers<K>
    requires { ClonesAreEqual K.is_clone K.eq }
    ensures { IfOk result (λ answered. IsDecided K.order int_eq IsAdded key
        commands.items answered.replies.items answered.value) }
{
    let add = |tag: &i64, old: Option<&i64>| -> Result<Option<i64>, NoSum>
        ensures { IsAdded tag.now (option_copied old.entry) result }
    { added(tag, old) };
    bound_by_commands(alloc, commands, &add, key, container)
}

fn number_by_commands<K: Measure + Clone>(
    alloc: Global,
    commands: Commands<K>,
    key: K,
) -> Numbers<K>
    requires { ClonesAreEqual K.is_clone K.eq }
    ensures { IfOk result (λ answered. IsDecided K.order int_eq IsAdded key
        commands.items answered.replies.items answered.value) }
{
    let container: PhantomData<DefaultMapContainer<Item<AnyRange<K>, i64>>> = PhantomData;
    number_in(alloc, commands, key, container)
}

/// Over keys of which nothing but the order is known.
pub fn over_blind(
    alloc: Global,
    commands: Commands<Blind<i32>>,
    key: Blind<i32>,
) -> Numbers<Blind<i32>>
    ensures { IfOk result (λ answered. IsDecided ⟦<Blind<i32> as MaybeBounded>⟧.order int_eq
        IsAdded key commands.items answered.replies.items answered.value) }
{
    number_by_commands(alloc, commands, key)
}

/// Over a type that has no key, so that a caller has none to ask for.
pub fn over_never(
    alloc: Global,
    commands: Commands<Never>,
    key: Option<Never>,
) -> Option<Numbers<Never>>
    ensures { IfSome result (λ numbers. IfOk numbers (λ answered. IfSome key
        (λ k. IsDecided ⟦<Never as MaybeBounded>⟧.order int_eq IsAdded k commands.items
        answered.replies.items answered.value))) }
{
    match key {
        Some(key) => Some(number_by_commands(alloc, commands, key)),
        None => None,
    }
}

/// Over a type that has one key.
pub fn over_only(alloc: Global, commands: Commands<Only>, key: Only) -> Numbers<Only>
    ensures { IfOk result (λ answered. IsDecided ⟦<Only as MaybeBounded>⟧.order int_eq IsAdded key
        commands.items answered.replies.items answered.value) }
{
    number_by_commands(alloc, commands, key)
}

/// Over keys of which several are equal, and whose neighbours are known.
pub fn over_halves(alloc: Global, commands: Commands<Half>, key: Half) -> Numbers<Half>
    ensures { IfOk result (λ answered. IsDecided ⟦<Half as MaybeBounded>⟧.order int_eq IsAdded key
        commands.items answered.replies.items answered.value) }
{
    number_by_commands(alloc, commands, key)
}

/// Over fractions, of which several are equal, and whose neighbours are not known.
pub fn over_fractions(
    alloc: Global,
    commands: Commands<Fraction>,
    key: Fraction,
) -> Numbers<Fraction>
    ensures { IfOk result (λ answered. IsDecided ⟦<Fraction as MaybeBounded>⟧.order int_eq IsAdded key
        commands.items answered.replies.items answered.value) }
{
    number_by_commands(alloc, commands, key)
}

/// In a container that stands above the library.
pub fn over_ring(alloc: Global, commands: Commands<u8>, key: u8) -> Numbers<u8>
    ensures { IfOk result (λ answered. IsDecided u8_order int_eq IsAdded key
        commands.items answered.replies.items answered.value) }
{
    let container: PhantomData<RingStorage<Item<AnyRange<u8>, i64>>> = PhantomData;
    number_in(alloc, commands, key, container)
}

pub fn over_u8(alloc: Global, commands: Commands<u8>, key: u8) -> Numbers<u8>
    ensures { IfOk result (λ answered. IsDecided u8_order int_eq IsAdded key
        commands.items answered.replies.items answered.value) }
{
    number_by_commands(alloc, commands, key)
}

pub fn over_u16(alloc: Global, commands: Commands<u16>, key: u16) -> Numbers<u16>
    ensures { IfOk result (λ answered. IsDecided u16_order int_eq IsAdded key
        commands.items answered.replies.items answered.value) }
{
    number_by_commands(alloc, commands, key)
}

pub fn over_u32(alloc: Global, commands: Commands<u32>, key: u32) -> Numbers<u32>
    ensures { IfOk result (λ answered. IsDecided u32_order int_eq IsAdded key
        commands.items answered.replies.items answered.value) }
{
    number_by_commands(alloc, commands, key)
}

pub fn over_u64(alloc: Global, commands: Commands<u64>, key: u64) -> Numbers<u64>
    ensures { IfOk result (λ answered. IsDecided u64_order int_eq IsAdded key
        commands.items answered.replies.items answered.value) }
{
    number_by_commands(alloc, commands, key)
}

pub fn over_usize(alloc: Global, commands: Commands<usize>, key: usize) -> Numbers<usize>
    ensures { IfOk result (λ answered. IsDecided usize_order int_eq IsAdded key
        commands.items answered.replies.items answered.value) }
{
    number_by_commands(alloc, commands, key)
}

pub fn over_i8(alloc: Global, commands: Commands<i8>, key: i8) -> Numbers<i8>
    ensures { IfOk result (λ answered. IsDecided i8_order int_eq IsAdded key
        commands.items answered.replies.items answered.value) }
{
    number_by_commands(alloc, commands, key)
}

pub fn over_i16(alloc: Global, commands: Commands<i16>, key: i16) -> Numbers<i16>
    ensures { IfOk result (λ answered. IsDecided i16_order int_eq IsAdded key
        commands.items answered.replies.items answered.value) }
{
    number_by_commands(alloc, commands, key)
}

pub fn over_i32(alloc: Global, commands: Commands<i32>, key: i32) -> Numbers<i32>
    ensures { IfOk result (λ answered. IsDecided i32_order int_eq IsAdded key
        commands.items answered.replies.items answered.value) }
{
    number_by_commands(alloc, commands, key)
}

pub fn over_i64(alloc: Global, commands: Commands<i64>, key: i64) -> Numbers<i64>
    ensures { IfOk result (λ answered. IsDecided i64_order int_eq IsAdded key
        commands.items answered.replies.items answered.value) }
{
    number_by_commands(alloc, commands, key)
}

pub fn over_char(alloc: Global, commands: Commands<char>, key: char) -> Numbers<char>
    ensures { IfOk result (λ answered. IsDecided char_order int_eq IsAdded key
        commands.items answered.replies.items answered.value) }
{
    number_by_commands(alloc, commands, key)
}
