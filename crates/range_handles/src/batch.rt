//! Many stored ranges at once.
ghost use Rattle.std.specs.Prelude.{◌≡◌, ◌⊎◌, ℕ, ◌+◌, ◌<◌, ◌≤◌, ◌∷◌, ◌++◌, List, [], take, drop, map, reverse, length, MatchOption};
ghost use Rattle.btree_range_map.specs.Holding.{box_items};
ghost use Rattle.btree_range_map.specs.Overlapping.{AreOverlapping};
ghost use Rattle.btree_range_map.specs.Position.{bound_of};
ghost use Rattle.btree_range_map.specs.Range.{IsEmptyRange};
ghost use Rattle.btree_range_map.specs.References.{range_of};
ghost use Rattle.range_ffi.specs.Flags.{from_key, said_range, upto_key};

use crate::key::Key;
use btree_range_map::generic::map::{GapsWithin, Overlapping, Pieces};
use btree_range_map::range::traits::PartialEnum;
use btree_range_map::storage::Item;
use btree_range_map::{AnyRange, DefaultMapContainer, RangeMap};
use range_ffi::items::Shown;
use range_ffi::status::{DONE, NONE};
use range_map::inner::onward::Onward;
use std::ops::Bound;

/// What gives what crosses to C, one after the other.
pub trait Source<E, X> {
    // What a given value says.
    ghost says: { E → X };

    // What is still to be given.
    ghost left: { Self → List X };

    fn give(&mut self) -> Option<E>
        ensures { MatchOption result ((left self.old ≡ []) × (left self.new ≡ []))
            (λ given. left self.old ≡ says given ∷ left self.new) };
}

/// Writes what the source gives to the front of the slots. Returns how many there are.
pub fn fill<X, E: Copy + Drop, S: Source<E, X>>(source: &mut S, slots: &mut [E]) -> usize
    ensures shown { S.left source.old ≡ map S.says (take result slots.new) ++ S.left source.new }
    ensures rest { drop result slots.new ≡ drop result slots.old }
    ensures within { result ≤ length slots.old }
    ensures all { result < length slots.old → S.left source.new ≡ [] }
{
    let mut count = 0;
    while count < slots.len() {
        match source.give() {
            Some(given) => {
                slots[count] = given;
                count += 1;
            }
            None => return count,
        }
    }
    count
}

/// Writes the items to the slots from one on.
fn write_each<K, V, E: Shown<K, V>>(items: &[Item<AnyRange<K>, V>], slots: &mut [E], start: usize)
    requires { start + length items.now ≤ length slots.old }
    ensures shown { map E.said (take (start + length items.now) slots.new)
        ≡ map E.said (take start slots.old) ++ items.now }
    ensures rest { (n : ℕ) → start + length items.now ≤ n → drop n slots.new ≡ drop n slots.old }
    ensures long { length slots.new ≡ length slots.old }
{
    let mut count = 0;
    while count < items.len() {
        let item = &items[count];
        slots[start + count] = E::of_item(&item.key, &item.value);
        count += 1;
    }
}

/// Writes the items that are left to the front of the slots, as `fill` does. Those that lie together
/// are written by one loop.
pub fn fill_onward<K: PartialEnum, V: Eq + Drop, E: Shown<K, V>>(
    items: &mut Onward<'_, K, V, DefaultMapContainer<Item<AnyRange<K>, V>>>,
    slots: &mut [E],
) -> usize
    ensures shown { items.old ≡ map E.said (take result slots.new) ++ items.new }
    ensures rest { drop result slots.new ≡ drop result slots.old }
    ensures within { result ≤ length slots.old }
    ensures all { result < length slots.old → items.new ≡ [] }
{
    let mut count = 0;
    while count < slots.len() {
        let Some(item) = items.next() else {
            return count;
        };
        slots[count] = E::of_item(&item.key, &item.value);
        count += 1;
        let near = items.next_items(slots.len() - count);
        write_each(near, slots, count);
        count += near.len();
    }
    count
}

/// Writes what the source gives next, if it gives anything.
pub fn fill_one<X, E: Copy + Drop, S: Source<E, X>>(source: &mut S, slot: &mut E) -> u32
    ensures shown { result ≡ DONE
        → S.left source.old ≡ S.says slot.new ∷ S.left source.new }
    ensures none { result ≡ NONE → S.left source.old ≡ [] }
    ensures unwritten { result ≡ NONE → slot.new ≡ slot.old }
    ensures answer { (result ≡ DONE) ⊎ (result ≡ NONE) }
{
    match source.give() {
        Some(given) => {
            *slot = given;
            DONE
        }
        None => NONE,
    }
}

/// What is stored of a map.
type Stored<'a, K, V> = Overlapping<'a, K, V, DefaultMapContainer<Item<AnyRange<K>, V>>>;

/// The stored ranges from the first that ends at the key or after it on.
pub fn from<K: Key, V: Eq + Drop>(stored: &RangeMap<K, V>, key: K) -> Stored<'_, K, V>
    ensures { AreOverlapping K.order (box_items stored.now) (from_key key) result }
{
    stored.iter_from(key)
}

/// The stored ranges that meet the range.
pub fn within<K: Key, V: Eq + Drop>(stored: &RangeMap<K, V>, range: AnyRange<K>) -> Stored<'_, K, V>
    ensures items { ¬ IsEmptyRange K.order range
        → AreOverlapping K.order (box_items stored.now) range result }
    ensures empty { IsEmptyRange K.order range → result ≡ [] }
{
    stored.overlapping(range)
}

/// The stored ranges up to the last that starts at the key or before it, the last first.
pub fn upto<K: Key, V: Eq + Drop>(stored: &RangeMap<K, V>, key: K) -> Backwards<'_, K, V>
    ensures { AreOverlapping K.order (box_items stored.now) (upto_key key) result.items }
{
    key.known();
    let range = AnyRange {
        start: Bound::Unbounded,
        end: Bound::Included(key),
    };
    Backwards {
        items: within(stored, range),
    }
}

impl<'a, K: PartialEnum, V: Eq + Drop, E: Shown<K, V>> Source<E, Item<AnyRange<K>, V>>
    for Overlapping<'a, K, V, DefaultMapContainer<Item<AnyRange<K>, V>>> {
    ghost says = { E.said };

    ghost left = { λ items. items };

    fn give(&mut self) -> Option<E> {
        match self.next() {
            Some((range, value)) => Some(E::of_item(range, value)),
            None => None,
        }
    }
}

/// What meets a range, the last first.
#[derive(Drop)]
pub struct Backwards<'a, K: PartialEnum, V: Eq + Drop> {
    pub items: Overlapping<'a, K, V, DefaultMapContainer<Item<AnyRange<K>, V>>>,
}

impl<'a, K: PartialEnum, V: Eq + Drop, E: Shown<K, V>> Source<E, Item<AnyRange<K>, V>>
    for Backwards<'a, K, V> {
    ghost says = { E.said };

    ghost left = { λ s. reverse s.items };

    fn give(&mut self) -> Option<E> {
        match self.items.next_back() {
            Some((range, value)) => Some(E::of_item(range, value)),
            None => None,
        }
    }
}

/// The range over the keys that the bounds of this one refer to.
fn copied_range<K: Copy + Drop>(range: AnyRange<&K>) -> AnyRange<K>
    ensures { result ≡ range_of range.entry }
{
    AnyRange::new(copied_bound(range.start), copied_bound(range.end))
}

fn copied_bound<K: Copy + Drop>(bound: Bound<&K>) -> Bound<K>
    ensures { result ≡ bound_of bound.entry }
{
    match bound {
        Bound::Included(key) => Bound::Included(*key),
        Bound::Excluded(key) => Bound::Excluded(*key),
        Bound::Unbounded => Bound::Unbounded,
    }
}

impl<'a, K: Key, V: Eq + Drop, E: Shown<K, ()>> Source<E, AnyRange<K>>
    for GapsWithin<'a, K, V, DefaultMapContainer<Item<AnyRange<K>, V>>> {
    ghost says = { said_range E.said };

    ghost left = { λ gaps. gaps };

    fn give(&mut self) -> Option<E> {
        match self.next() {
            Some(range) => Some(E::of_item(&copied_range(range), &())),
            None => None,
        }
    }
}

impl<'a, K: Key, V: Eq + Copy + Drop, E: Shown<K, Option<V>>> Source<
    E,
    Item<AnyRange<K>, Option<V>>,
> for Pieces<'a, K, V, DefaultMapContainer<Item<AnyRange<K>, V>>> {
    ghost says = { E.said };

    ghost left = { λ pieces. pieces };

    fn give(&mut self) -> Option<E> {
        match self.next() {
            Some((range, value)) => Some(E::of_item(&copied_range(range), &value.copied())),
            None => None,
        }
    }
}
