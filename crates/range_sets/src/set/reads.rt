//! Look-ups over a range: the stored ranges that meet it, its gaps, and whether all of it is held.
ghost use Rattle.std.specs.Prelude.{◌≡◌, ◌↔◌, [], ⊤, List, IsTrue, MatchOption};
ghost use Rattle.std.specs.Iterator.{YieldsFirstRef, YieldsLastRef, item_count};
ghost use Rattle.std.specs.declared.ops.Bound.TheVariants.{Included, Unbounded};
ghost use Rattle.range_keys.specs.Order.{IsComplete};
ghost use Rattle.range_algebra.specs.Range.{IsEmptyRange, with_bounds};
ghost use Rattle.range_algebra.specs.References.{range_of};
ghost use Rattle.range_algebra.specs.declared.any.AnyRange.{AnyRange};
ghost use Rattle.range_reads.specs.FreeRanges.{item_ranges};
ghost use Rattle.range_runs.specs.Lookups.{BindsAllOf, BindsKeyOf};
ghost use Rattle.range_map.specs.Overlapping.{IsSpan};
ghost use Rattle.range_reads.specs.PieceLists.{AreGapsWithin};
ghost use Rattle.range_runs.specs.Pieces.{IsFreePart};
ghost use Rattle.range_sets.specs.Reads.{AreRangesThatMeet};

use super::RangeSet;
use range_algebra::any::AnyRange;
use range_algebra::range::AsRange;
use range_keys::traits::{Measure, PartialEnum};
use range_map::map;
use range_store::storage::{Item, Storage};
use std::alloc::AllocError;
use std::marker::Model;

/// The free parts of a range that are left, in order: ranges over references to the keys that bound
/// them.
pub type GapsWithin<'a, T, C> = map::GapsWithin<'a, T, (), C>;

/// The stored ranges that meet a range and are left, in order. A contract sees their list.
#[derive(Drop)]
pub struct Overlapping<'a, T: PartialEnum + 'a, C: Storage<Item<AnyRange<T>, ()>> + 'a> {
    items: map::Overlapping<'a, T, (), C>,
}

impl<'a, T: PartialEnum + 'a, C: Storage<Item<AnyRange<T>, ()>> + 'a> Model
    for Overlapping<'a, T, C> {
    ghost use Rattle.std.specs.Prelude.{List};
    ghost use Rattle.range_algebra.specs.declared.any.AnyRange.{AnyRange};
    ghost use Rattle.range_reads.specs.FreeRanges.{item_ranges};

    ghost Value = { List (AnyRange T) };

    ghost view = { λ o. item_ranges o.items };
}

/// A clone has the same ranges left. It allocates nothing and never fails.
impl<'a, T: PartialEnum + 'a, C: Storage<Item<AnyRange<T>, ()>> + 'a> Clone
    for Overlapping<'a, T, C> {
    ghost is_clone = { λ iter copy. copy ≡ iter };

    ghost is_infallible = { λ _. ⊤ };

    fn clone(&self) -> Result<Self, AllocError> {
        Ok(Overlapping {
            items: self.items.clone()?,
        })
    }
}

impl<'a, T: PartialEnum + 'a, C: Storage<Item<AnyRange<T>, ()>> + 'a> Iterator
    for Overlapping<'a, T, C> {
    type Item = &'a AnyRange<T>;

    ghost next_gives = { YieldsFirstRef (λ rest. rest) };

    ghost remaining = { item_count (λ rest. rest) };

    fn next(&mut self) -> Option<&'a AnyRange<T>> {
        match self.items.next() {
            Some((range, _)) => Some(range),
            None => None,
        }
    }

    fn size_hint(&self) -> (usize, Option<usize>) {
        (0, None)
    }
}

impl<'a, T: PartialEnum + 'a, C: Storage<Item<AnyRange<T>, ()>> + 'a> DoubleEndedIterator
    for Overlapping<'a, T, C> {
    ghost next_back_gives = { YieldsLastRef (λ rest. rest) };

    fn next_back(&mut self) -> Option<&'a AnyRange<T>> {
        match self.items.next_back() {
            Some((range, _)) => Some(range),
            None => None,
        }
    }
}

impl<T: PartialEnum, C: Storage<Item<AnyRange<T>, ()>>> RangeSet<T, C> {
    /// The stored ranges from the first that ends at or after the key on, in ascending order, from
    /// both ends.
    ///
    /// They are those that meet the keys from this one on. Costs one search and a way down the
    /// tree, and then at most two comparisons for each range that is shown. Allocates nothing.
    ///
    /// ```
    /// // of a set of the keys 0..=5
    /// assert!(rt; set.iter_from(5).next().is_some() && set.iter_from(6).next().is_none());
    /// ```
    pub fn iter_from(&self, key: T) -> Overlapping<'_, T, C>
        ensures ranges { AreRangesThatMeet T.order (C.items self.now)
            (with_bounds (Included key) Unbounded) result }
    {
        Overlapping {
            items: self.map.iter_from(key),
        }
    }

    /// The range from the start of the first stored range to the end of the last, or none where no
    /// range is stored.
    ///
    /// It refers to their bounds: `AnyRange::cloned` makes one of its own of it. Costs two ways
    /// down the tree. Allocates nothing.
    ///
    /// ```
    /// // of a set of the keys 0..=5
    /// assert!(rt; set.span().is_some()); // 0..=5
    /// ```
    pub fn span(&self) -> Option<AnyRange<&T>>
        ensures span { MatchOption result (C.items self.now ≡ [])
            (λ s. IsSpan (C.items self.now) (range_of s)) }
    {
        self.map.span()
    }
}

impl<T: Measure, C: Storage<Item<AnyRange<T>, ()>>> RangeSet<T, C> {
    /// The stored ranges that meet the range, whole, in ascending order, from both ends.
    ///
    /// An empty range meets none. There is none exactly where no key of the range is in the set,
    /// over keys that leave no gap. Costs two searches and one comparison more, and then at
    /// most two comparisons for each range that is shown. Allocates nothing.
    ///
    /// ```
    /// // of a set of the keys 0..=5
    /// assert!(rt; set.overlapping(3..8).next().is_some()); // 0..=5
    /// ```
    pub fn overlapping<R: AsRange<Item = T>>(&self, range: R) -> Overlapping<'_, T, C>
        ensures ranges { ¬ IsEmptyRange T.order (R.range range)
            → AreRangesThatMeet T.order (C.items self.now) (R.range range) result }
        ensures empty { IsEmptyRange T.order (R.range range) → result ≡ [] }
        ensures none { result ≡ [] → ¬ BindsKeyOf T.order (C.items self.now) (R.range range) }
        ensures complete { IsComplete T.order
            → (¬ BindsKeyOf T.order (C.items self.now) (R.range range)) → result ≡ [] }
    {
        Overlapping {
            items: self.map.overlapping(range),
        }
    }

    /// The parts of the range that hold no key of the set, in ascending order, from both ends, each
    /// as wide as it goes and none empty.
    ///
    /// They refer to the bounds of the range and of the stored ranges beside them. Costs two
    /// searches and one comparison more, and then a few comparisons for each stored range that
    /// meets the range. Allocates nothing.
    ///
    /// ```
    /// // of a set of the keys 0..=5
    /// assert!(rt; set.gaps_within(&(3..8)).next().is_some()); // 6..8
    /// ```
    pub fn gaps_within<'a, R: AsRange<Item = T>>(&'a self, range: &'a R) -> GapsWithin<'a, T, C>
        ensures gaps { AreGapsWithin T.order (C.items self.now) (R.range range.now) result }
        ensures none { result ≡ [] → (part : AnyRange T)
            → ¬ IsFreePart T.order (C.items self.now) (R.range range.now) part }
    {
        self.map.gaps_within(range)
    }

    /// Whether each key of the range is in the set.
    ///
    /// It is where no part of the range is free; over keys that leave no gap, nowhere else. An
    /// empty range is covered. Costs two searches and one comparison more, and then a few
    /// comparisons for each stored range that meets the range, up to its first gap. Allocates
    /// nothing.
    ///
    /// ```
    /// // of a set of the keys 0..=5
    /// assert!(rt; set.covers(0..=5) && !set.covers(5..=6));
    /// ```
    pub fn covers<R: AsRange<Item = T>>(&self, range: R) -> bool
        ensures free { IsTrue result ↔ ((part : AnyRange T)
            → ¬ IsFreePart T.order (C.items self.now) (R.range range) part) }
        ensures held { IsTrue result → BindsAllOf T.order (C.items self.now) (R.range range) }
        ensures complete { IsComplete T.order
            → BindsAllOf T.order (C.items self.now) (R.range range) → IsTrue result }
    {
        self.map.binds_all(range)
    }
}
