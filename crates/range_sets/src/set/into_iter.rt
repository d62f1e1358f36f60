//! The stored ranges, moved out of a set.
ghost use Rattle.std.specs.Prelude.{◌≡◌, length, IfSome, Some};
ghost use Rattle.std.specs.Iterator.{UpTo, YieldsFirst, at_most, item_count};
ghost use Rattle.std.specs.Iterator.SizeHint.{IsWithinCount};
ghost use Rattle.range_reads.specs.FreeRanges.{item_ranges};
ghost use Rattle.range_set_extend.specs.KeySets.{IsCanonicalSet};

use super::RangeSet;
use range_algebra::any::AnyRange;
use range_keys::traits::PartialEnum;
use range_map::map::RangeMap;
use range_store::storage::{Item, Storage};
use std::marker::Model;

/// The ranges that are left of a set that was taken apart, in order. A contract sees their list.
#[derive(Drop)]
pub struct IntoIter<T: PartialEnum, C: Storage<Item<AnyRange<T>, ()>>> {
    map: RangeMap<T, (), C>,
}

impl<T: PartialEnum, C: Storage<Item<AnyRange<T>, ()>>> Model for IntoIter<T, C> {
    ghost use Rattle.std.specs.Prelude.{List};
    ghost use Rattle.range_algebra.specs.declared.any.AnyRange.{AnyRange};
    ghost use Rattle.range_reads.specs.FreeRanges.{item_ranges};

    ghost Value = { List (AnyRange T) };

    ghost view = { λ i. item_ranges (C.items i.map) };
}

impl<T: PartialEnum, C: Storage<Item<AnyRange<T>, ()>>> Iterator for IntoIter<T, C> {
    type Item = AnyRange<T>;

    ghost next_gives = { YieldsFirst (λ rest. rest) };

    ghost remaining = { item_count (λ rest. rest) };

    fn next(&mut self) -> Option<AnyRange<T>> {
        match self.map.pop_first() {
            Some((range, _)) => Some(range),
            None => None,
        }
    }

    fn size_hint(&self) -> (usize, Option<usize>)
        ensures lower { IsWithinCount result.0 (at_most (length self.now)) }
        ensures upper { IfSome result.1 (UpTo (at_most (length self.now))) }
        ensures exact { result ≡ (length self.now, Some (length self.now)) }
    {
        let left = self.map.range_count();
        (left, Some(left))
    }
}

/// `for range in set`: the ranges are moved out, one at each step. Allocates nothing.
impl<T: PartialEnum, C: Storage<Item<AnyRange<T>, ()>>> IntoIterator for RangeSet<T, C> {
    type Item = AnyRange<T>;

    type IntoIter = IntoIter<T, C>;

    ghost into_iter_gives = { λ set list. (list ≡ item_ranges (C.items set))
        × IsCanonicalSet T.order (C.items set) };

    fn into_iter(self) -> IntoIter<T, C> {
        self.in_form();
        IntoIter { map: self.map }
    }
}
