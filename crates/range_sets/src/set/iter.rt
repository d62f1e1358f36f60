//! The stored ranges, in ascending order, from both ends.
ghost use Rattle.std.specs.Prelude.{◌≡◌, List, length, IfSome, Some};
ghost use Rattle.std.specs.Iterator.{UpTo, YieldsFirstRef, YieldsLastRef, at_most, item_count};
ghost use Rattle.std.specs.Iterator.SizeHint.{IsWithinCount};
ghost use Rattle.range_reads.specs.FreeRanges.{item_ranges};
ghost use Rattle.range_set_extend.specs.KeySets.{IsCanonicalSet};

use super::RangeSet;
use range_algebra::any::AnyRange;
use range_keys::traits::PartialEnum;
use range_map::map;
use range_store::storage::{Item, Storage};
use std::marker::Model;

/// The stored ranges that are left, in order. A contract sees their list.
#[derive(Drop)]
pub struct Iter<'a, T: 'a, C: Storage<Item<AnyRange<T>, ()>> + 'a> {
    items: map::Iter<'a, T, (), C>,
}

impl<'a, T: 'a, C: Storage<Item<AnyRange<T>, ()>> + 'a> Model for Iter<'a, T, C> {
    ghost use Rattle.std.specs.Prelude.{List};
    ghost use Rattle.range_algebra.specs.declared.any.AnyRange.{AnyRange};
    ghost use Rattle.range_reads.specs.FreeRanges.{item_ranges};

    ghost Value = { List (AnyRange T) };

    ghost view = { λ i. item_ranges i.items };
}

impl<'a, T: 'a, C: Storage<Item<AnyRange<T>, ()>> + 'a> Iter<'a, T, C> {
    /// The ranges of a map's items.
    pub(crate) fn new(items: map::Iter<'a, T, (), C>) -> Self
        ensures { result ≡ item_ranges items.entry }
    {
        Iter { items }
    }
}

impl<'a, T: 'a, C: Storage<Item<AnyRange<T>, ()>> + 'a> Iterator for Iter<'a, T, C> {
    type Item = &'a AnyRange<T>;

    ghost next_gives = { YieldsFirstRef (λ rest. rest) };

    ghost remaining = { item_count (λ rest. rest) };

    #[inline(always)]
    fn next(&mut self) -> Option<&'a AnyRange<T>> {
        match self.items.next() {
            Some((range, _)) => Some(range),
            None => None,
        }
    }

    fn size_hint(&self) -> (usize, Option<usize>)
        ensures lower { IsWithinCount result.0 (at_most (length self.now)) }
        ensures upper { IfSome result.1 (UpTo (at_most (length self.now))) }
        ensures exact { result ≡ (length self.now, Some (length self.now)) }
    {
        self.items.size_hint()
    }
}

impl<'a, T: 'a, C: Storage<Item<AnyRange<T>, ()>> + 'a> DoubleEndedIterator for Iter<'a, T, C> {
    ghost next_back_gives = { YieldsLastRef (λ rest. rest) };

    fn next_back(&mut self) -> Option<&'a AnyRange<T>> {
        match self.items.next_back() {
            Some((range, _)) => Some(range),
            None => None,
        }
    }
}

/// `for range in &set`: what `iter` gives. Allocates nothing.
impl<'a, T: PartialEnum, C: Storage<Item<AnyRange<T>, ()>>> IntoIterator for &'a RangeSet<T, C> {
    type Item = &'a AnyRange<T>;

    type IntoIter = Iter<'a, T, C>;

    ghost into_iter_gives = { λ set list. (list ≡ item_ranges (C.items set.now))
        × IsCanonicalSet T.order (C.items set.now) };

    fn into_iter(self) -> Iter<'a, T, C> {
        self.iter()
    }
}
