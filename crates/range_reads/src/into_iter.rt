//! The stored ranges with their values, moved out of a container from both ends.
ghost use Rattle.std.specs.Prelude.{◌≡◌, length, IfSome, Some};
ghost use Rattle.std.specs.Iterator.{UpTo, YieldsFirstBy, YieldsLastBy, at_most, item_count};
ghost use Rattle.std.specs.Iterator.SizeHint.{IsWithinCount};
ghost use Rattle.range_reads.specs.Iteration.{pair_item};

use range_algebra::any::AnyRange;
use range_store::storage::{Item, Storage};
use std::marker::{Model, PhantomData};

/// The ranges that are left of a map that was taken apart, each with its value, in order. A
/// contract sees their list.
#[derive(Drop)]
pub struct IntoIter<K, V, C: Storage<Item<AnyRange<K>, V>>> {
    stored: C,
    item: PhantomData<(K, V)>,
}

impl<K, V, C: Storage<Item<AnyRange<K>, V>>> Model for IntoIter<K, V, C> {
    ghost use Rattle.std.specs.Prelude.{List};
    ghost use Rattle.range_algebra.specs.declared.any.AnyRange.{AnyRange};
    ghost use Rattle.range_store.specs.declared.storage.Item.{Item};

    ghost Value = { List (Item (AnyRange K) V) };

    ghost view = { λ i. C.items i.stored };
}

impl<K, V, C: Storage<Item<AnyRange<K>, V>>> IntoIter<K, V, C> {
    /// All items of a container.
    pub fn new(stored: C) -> Self
        ensures { result ≡ C.items stored }
    {
        IntoIter {
            stored,
            item: PhantomData,
        }
    }
}

impl<K: Drop, V: Drop, C: Storage<Item<AnyRange<K>, V>>> Iterator for IntoIter<K, V, C> {
    type Item = (AnyRange<K>, V);

    ghost next_gives = { YieldsFirstBy pair_item (λ rest. rest) };

    ghost remaining = { item_count (λ rest. rest) };

    fn next(&mut self) -> Option<(AnyRange<K>, V)> {
        match self.stored.pop_first() {
            Some(item) => Some(item.into_pair()),
            None => None,
        }
    }

    fn size_hint(&self) -> (usize, Option<usize>)
        ensures lower { IsWithinCount result.0 (at_most (length self.now)) }
        ensures upper { IfSome result.1 (UpTo (at_most (length self.now))) }
        ensures exact { result ≡ (length self.now, Some (length self.now)) }
    {
        let left = self.stored.len();
        (left, Some(left))
    }
}

impl<K: Drop, V: Drop, C: Storage<Item<AnyRange<K>, V>>> DoubleEndedIterator for IntoIter<K, V, C> {
    ghost next_back_gives = { YieldsLastBy pair_item (λ rest. rest) };

    fn next_back(&mut self) -> Option<(AnyRange<K>, V)> {
        match self.stored.pop_last() {
            Some(item) => Some(item.into_pair()),
            None => None,
        }
    }
}

impl<K: Drop, V: Drop, C: Storage<Item<AnyRange<K>, V>>> ExactSizeIterator for IntoIter<K, V, C> {
    fn len(&self) -> usize {
        self.stored.len()
    }
}
