//! Callers of sets in any container.

ghost use Rattle.std.specs.Prelude.{◌≡◌, ◌↔◌, [], IsTrue, MatchOption, OnOk, OnErr, length};
ghost use Rattle.btree_range_map.specs.KeySets.{IsCanonicalSet, HoldsKey, HoldsAlso, HoldsWithout};
ghost use Rattle.btree_range_map.specs.Names.{u8_order, range_from_to};
ghost use Rattle.btree_range_map.specs.Numbers.{IsNumberOfKeys};
ghost use Rattle.btree_range_map.specs.Overlapping.{IsSpan};
ghost use Rattle.btree_range_map.specs.References.{range_of};

use btree_range_map::generic::RangeSet;
use btree_range_map::storage::{Item, Steps, Storage};
use btree_range_map::{AnyRange, MapError};
use std::alloc::Global;
use std::cmp::Ordering;
use std::hash::{DefaultHasher, Hash};

type Key = Item<AnyRange<u8>, ()>;

type Set<C> = RangeSet<u8, C>;

fn new<C: Storage<Key>>(alloc: Global) -> Set<C> {
    RangeSet::default(alloc)
}

fn gathered<C: Storage<Key>>(alloc: Global) -> Result<Set<C>, MapError> {
    RangeSet::from_iter(alloc, [0..2u8, 4..6, 2..4])
}

fn add_all<C: Storage<Key>>(set: &mut Set<C>) -> Result<(), MapError>
    ensures canonical { IsCanonicalSet u8_order (C.items set.new) }
{
    set.extend([0..2u8, 4..6])
}

fn sizes<C: Storage<Key>>(set: &Set<C>) -> (bool, usize, u128)
    ensures empty { IsTrue result.0 ↔ C.items set.now ≡ [] }
    ensures ranges { result.1 ≡ length (C.items set.now) }
    ensures keys { IsNumberOfKeys u8_order (HoldsKey u8_order (C.items set.now)) result.2 }
{
    (set.is_empty(), set.range_count(), set.len())
}

fn is_equal_across<C: Storage<Key>, D: Storage<Key>>(set: &Set<C>, other: &Set<D>) -> bool {
    set.eq_across(other)
}

fn order_across<C: Storage<Key>, D: Storage<Key>>(set: &Set<C>, other: &Set<D>) -> Ordering {
    set.cmp_across(other)
}

fn order<C: Storage<Key>>(set: &Set<C>, other: &Set<C>) -> (bool, Ordering) {
    (set == other, set.cmp(other))
}

fn hashed<C: Storage<Key>>(set: &Set<C>, state: &mut DefaultHasher) {
    set.hash(state);
}

fn bounded_length<C: Storage<Key>>(set: &Set<C>) -> Option<u128> {
    set.bounded_len()
}

fn holds<C: Storage<Key>>(set: &Set<C>) -> (bool, bool) {
    (set.contains(3), set.intersects(3..9))
}

fn holds_counted<C: Storage<Key>>(set: &Set<C>, steps: &mut Steps) -> bool
    ensures { IsTrue result ↔ HoldsKey u8_order (C.items set.now) 3 }
{
    set.contains_counted(3, steps)
}

fn add_counted<C: Storage<Key>>(set: &mut Set<C>, steps: &mut Steps) -> Result<(), MapError>
    ensures added { OnOk result
        (HoldsAlso u8_order (C.items set.old) (C.items set.new) (range_from_to 0 5)) }
    ensures refused { OnErr result (C.items set.new ≡ C.items set.old) }
{
    set.insert_counted(0..5, steps)
}

fn take_counted<C: Storage<Key>>(set: &mut Set<C>, steps: &mut Steps) -> Result<(), MapError>
    ensures removed { OnOk result
        (HoldsWithout u8_order (C.items set.old) (C.items set.new) (range_from_to 1 3)) }
    ensures refused { OnErr result (C.items set.new ≡ C.items set.old) }
{
    set.remove_counted(1..3, steps)
}

fn span<C: Storage<Key>>(set: &Set<C>) -> Option<AnyRange<&u8>>
    ensures { MatchOption result (C.items set.now ≡ [])
        (λ span. IsSpan (C.items set.now) (range_of span)) }
{
    set.span()
}
