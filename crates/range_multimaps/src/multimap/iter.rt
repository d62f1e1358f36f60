//! The stored ranges with their sets, moved out of a multimap, and `for` over one.
ghost use Rattle.std.specs.Prelude.{◌≡◌, length, IfSome, Some};
ghost use Rattle.std.specs.Iterator.{UpTo, YieldsFirstBy, YieldsLastBy, at_most, item_count};
ghost use Rattle.std.specs.Iterator.SizeHint.{IsWithinCount};
ghost use Rattle.range_reads.specs.Iteration.{pair_item};
ghost use Rattle.range_multimaps.specs.Pairs.{HasNoEmptySet};
ghost use Rattle.range_runs.specs.Canonical.{IsCanonical};

use super::{Iter, RangeMultiMap};
use crate::members::MaybeEmpty;
use range_algebra::any::AnyRange;
use range_keys::traits::PartialEnum;
use range_map::map::RangeMap;
use range_store::storage::{Item, Storage};
use std::marker::Model;

/// The ranges that are left of a multimap that was taken apart, each with its set, in order. A
/// contract sees their list.
#[derive(Drop)]
pub struct IntoIter<K: PartialEnum, S: MaybeEmpty, C: Storage<Item<AnyRange<K>, S>>> {
    map: RangeMap<K, S, C>,
}

impl<K: PartialEnum, S: MaybeEmpty, C: Storage<Item<AnyRange<K>, S>>> Model for IntoIter<K, S, C> {
    ghost use Rattle.std.specs.Prelude.{List};
    ghost use Rattle.range_algebra.specs.declared.any.AnyRange.{AnyRange};
    ghost use Rattle.range_store.specs.declared.storage.Item.{Item};

    ghost Value = { List (Item (AnyRange K) S) };

    ghost view = { λ i. C.items i.map };
}

impl<K: PartialEnum, S: MaybeEmpty, C: Storage<Item<AnyRange<K>, S>>> Iterator
    for IntoIter<K, S, C> {
    type Item = (AnyRange<K>, S);

    ghost next_gives = { YieldsFirstBy pair_item (λ rest. rest) };

    ghost remaining = { item_count (λ rest. rest) };

    fn next(&mut self) -> Option<(AnyRange<K>, S)> {
        self.map.pop_first()
    }

    fn size_hint(&self) -> (usize, Option<usize>)
        ensures lower { IsWithinCount result.0 (at_most (length self.now)) }
        ensures upper { IfSome result.1 (UpTo (at_most (length self.now))) }
        ensures exact { result ≡ (length self.now, Some (length self.now)) }
    {
        let left = self.map.range_count();
        (left, Some(left))
    }
}

impl<K: PartialEnum, S: MaybeEmpty, C: Storage<Item<AnyRange<K>, S>>> DoubleEndedIterator
    for IntoIter<K, S, C> {
    ghost next_back_gives = { YieldsLastBy pair_item (λ rest. rest) };

    fn next_back(&mut self) -> Option<(AnyRange<K>, S)> {
        self.map.pop_last()
    }
}

impl<K: PartialEnum, S: MaybeEmpty, C: Storage<Item<AnyRange<K>, S>>> ExactSizeIterator
    for IntoIter<K, S, C> {
    fn len(&self) -> usize {
        self.map.range_count()
    }
}

/// `for (range, set) in map`: the pairs are moved out, one at each step. Allocates nothing.
impl<K: PartialEnum, S: MaybeEmpty, C: Storage<Item<AnyRange<K>, S>>> IntoIterator
    for RangeMultiMap<K, S, C> {
    type Item = (AnyRange<K>, S);

    type IntoIter = IntoIter<K, S, C>;

    ghost into_iter_gives = { λ map list. (list ≡ C.items map) × IsCanonical K.order S.eq list
        × HasNoEmptySet S.is_void list };

    fn into_iter(self) -> IntoIter<K, S, C> {
        self.in_form();
        IntoIter { map: self.map }
    }
}

/// `for (range, set) in &map`: what `iter` gives. Allocates nothing.
impl<'a, K: PartialEnum, S: MaybeEmpty, C: Storage<Item<AnyRange<K>, S>>> IntoIterator
    for &'a RangeMultiMap<K, S, C> {
    type Item = (&'a AnyRange<K>, &'a S);

    type IntoIter = Iter<'a, K, S, C>;

    ghost into_iter_gives = { λ map list. (list ≡ C.items map.now) × IsCanonical K.order S.eq list
        × HasNoEmptySet S.is_void list };

    fn into_iter(self) -> Iter<'a, K, S, C> {
        self.iter()
    }
}
