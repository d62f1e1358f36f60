//! Equality, order and hash of the lists that containers store.
ghost use Rattle.std.specs.Prelude.{◌≡◌};
ghost use Rattle.std.specs.List.{fold};
ghost use Rattle.range_reads.specs.ListOrder.{same_item, same_list, item_cmp, list_cmp, list_input};

use crate::iter::Iter;
use range_algebra::any::AnyRange;
use range_keys::traits::PartialEnum;
use range_store::storage::{Item, Storage};
use std::cmp::Ordering;
use std::hash::{Hash, Hasher};

/// Whether an item equals another: as ranges, and as values.
fn are_equal_items<K: PartialEnum, V: Eq>(
    range: &AnyRange<K>,
    value: &V,
    other_range: &AnyRange<K>,
    other_value: &V,
) -> bool
    ensures { result
        ≡ same_item K.order V.eq (record { key = range.now; value = value.now })
        (record { key = other_range.now; value = other_value.now }) }
{
    *range == *other_range && *value == *other_value
}

/// Whether two containers store equal lists. Allocates nothing, and one step for each item.
pub fn store_equal_lists<K, V, C, D>(left: &C, right: &D) -> bool
where
    K: PartialEnum,
    V: Eq,
    C: Storage<Item<AnyRange<K>, V>>,
    D: Storage<Item<AnyRange<K>, V>>,
    ensures { result ≡ same_list K.order V.eq (C.items left.now) (D.items right.now) }
{
    if left.len() != right.len() {
        return false;
    }
    let mut items = Iter::new(left);
    let mut others = Iter::new(right);
    while let Some((range, value)) = items.next() {
        match others.next() {
            Some((other_range, other_value)) => {
                if !are_equal_items(range, value, other_range, other_value) {
                    return false;
                }
            }
            None => return false,
        }
    }
    true
}

/// How an item compares with another: by their ranges, and then by their values.
fn compare_items<K: PartialEnum, V: Ord>(
    range: &AnyRange<K>,
    value: &V,
    other_range: &AnyRange<K>,
    other_value: &V,
) -> Ordering
    ensures { result
        ≡ item_cmp K.order V.cmp (record { key = range.now; value = value.now })
        (record { key = other_range.now; value = other_value.now }) }
{
    match range.cmp(other_range) {
        Ordering::Equal => value.cmp(other_value),
        ordering => ordering,
    }
}

/// How the lists of two containers compare, in dictionary order. Allocates nothing, and one step
/// for each item.
pub fn compare_lists<K, V, C, D>(left: &C, right: &D) -> Ordering
where
    K: PartialEnum,
    V: Ord,
    C: Storage<Item<AnyRange<K>, V>>,
    D: Storage<Item<AnyRange<K>, V>>,
    ensures { result ≡ list_cmp K.order V.cmp (C.items left.now) (D.items right.now) }
{
    let mut items = Iter::new(left);
    let mut others = Iter::new(right);
    while let Some((range, value)) = items.next() {
        match others.next() {
            Some((other_range, other_value)) => {
                let ordering = compare_items(range, value, other_range, other_value);
                if ordering.is_ne() {
                    return ordering;
                }
            }
            None => return Ordering::Greater,
        }
    }
    match others.next() {
        Some(_) => Ordering::Less,
        None => Ordering::Equal,
    }
}

/// Feeds the number of items, and then each: its range, and then its value.
pub fn hash_list<K, V, C, H>(stored: &C, state: &mut H)
where
    K: PartialEnum + Hash,
    V: Hash,
    C: Storage<Item<AnyRange<K>, V>>,
    H: Hasher,
    ensures { state.new
        ≡ fold H.write state.old
        (list_input K.order K.hash_input V.hash_input (C.items stored.now)) }
{
    state.write_usize(stored.len());
    let mut items = Iter::new(stored);
    while let Some((range, value)) = items.next() {
        range.hash(state);
        value.hash(state);
    }
}
