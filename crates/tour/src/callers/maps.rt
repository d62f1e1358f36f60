//! Callers of maps in any container.

ghost use Rattle.std.specs.Prelude.{◌↔◌, IsTrue, OnOk, OnErr, ◌≡◌, [], pos};
ghost use Rattle.std.specs.Ordering.{int_eq};
ghost use Rattle.btree_range_map.specs.Bindings.{Binds, IsBoundAfter, IsUnboundAfter};
ghost use Rattle.btree_range_map.specs.Names.{i32_order, range_from_to};

use btree_range_map::generic::RangeMap;
use btree_range_map::generic::map::{UpdateError, binary_search};
use btree_range_map::storage::{Item, Steps, Storage};
use btree_range_map::{AnyRange, IntoRange, MapError};
use std::alloc::Global;
use std::cmp::Ordering;
use std::hash::{DefaultHasher, Hash};

type Binding = Item<AnyRange<i32>, i64>;

type Map<C> = RangeMap<i32, i64, C>;

fn new<C: Storage<Binding>>(alloc: Global) -> Map<C> {
    RangeMap::default(alloc)
}

fn bind_all<C: Storage<Binding>>(map: &mut Map<C>) -> Result<(), UpdateError<u8>> {
    map.update(0..9, |old: Option<&i64>| -> Result<Option<i64>, u8> {
        Ok(Some(old.copied().unwrap_or(0)))
    })
}

fn has_none<C: Storage<Binding>>(map: &Map<C>) -> bool
    ensures { IsTrue result ↔ C.items map.now ≡ [] }
{
    map.is_empty()
}

fn value_counted<C: Storage<Binding>>(map: &Map<C>, steps: &mut Steps) -> Option<i64>
    ensures { Binds i32_order int_eq (C.items map.now) (pos 4) result }
{
    map.get_counted(4, steps).copied()
}

fn is_bound_counted<C: Storage<Binding>>(map: &Map<C>, steps: &mut Steps) -> bool {
    map.contains_key_counted(4, steps)
}

fn meets_counted<C: Storage<Binding>>(map: &Map<C>, steps: &mut Steps) -> bool {
    map.intersects_counted(3..9, steps)
}

fn bind_counted<C: Storage<Binding>>(map: &mut Map<C>, steps: &mut Steps) -> Result<(), MapError>
    ensures bound { OnOk result (IsBoundAfter i32_order int_eq (C.items map.old)
        (C.items map.new) (range_from_to (pos 0) (pos 5)) (pos 1)) }
    ensures refused { OnErr result (C.items map.new ≡ C.items map.old) }
{
    map.insert_counted(0..5, 1, steps)
}

fn unbind_counted<C: Storage<Binding>>(map: &mut Map<C>, steps: &mut Steps) -> Result<(), MapError>
    ensures unbound { OnOk result (IsUnboundAfter i32_order int_eq (C.items map.old)
        (C.items map.new) (range_from_to (pos 1) (pos 3))) }
    ensures refused { OnErr result (C.items map.new ≡ C.items map.old) }
{
    map.remove_counted(1..3, steps)
}

fn order<C: Storage<Binding>>(map: &Map<C>, other: &Map<C>) -> Ordering {
    map.cmp(other)
}

fn order_across<C: Storage<Binding>, D: Storage<Binding>>(
    map: &Map<C>,
    other: &Map<D>,
) -> Ordering {
    map.cmp_across(other)
}

fn hashed<C: Storage<Binding>>(map: &Map<C>, state: &mut DefaultHasher) {
    map.hash(state);
}

fn bounded_length<C: Storage<Binding>>(map: &Map<C>) -> Option<u128> {
    map.bounded_len()
}

fn last_value<C: Storage<Binding>>(map: &Map<C>) -> Option<i64> {
    match map.iter().next_back() {
        Some((_range, value)) => Some(*value),
        None => None,
    }
}

fn found(element: &AnyRange<i32>) -> Option<usize> {
    binary_search(&[Item::new((0..5).into_range(), 1i64)], element, true)
}
