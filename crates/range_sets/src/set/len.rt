//! How much a set holds.
ghost use Rattle.std.specs.Prelude.{◌≡◌, ◌↔◌, Some, IsNone, IsSomeAnd};
ghost use Rattle.range_keys.specs.Counted.{IsCountedMeasure};
ghost use Rattle.range_algebra.specs.Intervals.{Any};
ghost use Rattle.range_algebra.specs.Measures.{list_measure, HasUnknownEnd};
ghost use Rattle.range_algebra.specs.Numbers.{IsNumberOfKeys};
ghost use Rattle.range_reads.specs.FreeRanges.{item_ranges};
ghost use Rattle.range_set_extend.specs.KeySets.{HoldsKey};

use super::RangeSet;
use range_algebra::any::AnyRange;
use range_keys::traits::{Bounded, Measure};
use range_store::storage::{Item, Storage};

impl<T: Measure + Bounded, C: Storage<Item<AnyRange<T>, ()>>> RangeSet<T, C> {
    /// What the stored ranges measure together: over the shipped keys, each of which has length 1,
    /// the number of keys in the set. It is 0 where every key measures 0, as keys do that are too
    /// many to be counted.
    ///
    /// Costs a step and a distance for each stored range. Allocates nothing.
    ///
    /// ```
    /// set.extend([0..10, 20..30, 10..15])?; // 0..15 and 20..30 are stored
    /// set.remove(3u8)?;
    /// assert!(rt; set.len() == 24);
    /// ```
    pub fn len(&self) -> u128
        ensures measure { list_measure T.order T.len T.distance (item_ranges (C.items self.now))
            ≡ Some result }
        ensures counted { IsCountedMeasure T.order T.len T.distance
            → IsNumberOfKeys T.order (HoldsKey T.order (C.items self.now)) result }
    {
        self.map.len()
    }
}

impl<T: Measure, C: Storage<Item<AnyRange<T>, ()>>> RangeSet<T, C> {
    /// What the stored ranges measure together, as `len` says, or `None` where one of them is
    /// unbounded towards an end that is not known.
    ///
    /// Costs a step and a distance for each stored range. Allocates nothing.
    ///
    /// ```
    /// // of a set of the keys 0..=5
    /// assert!(rt; set.bounded_len() == Some(6));
    /// ```
    pub fn bounded_len(&self) -> Option<u128>
        ensures measure { result
            ≡ list_measure T.order T.len T.distance (item_ranges (C.items self.now)) }
        ensures unknown { IsNone result
            ↔ Any (λ i. HasUnknownEnd T.order i.key) (C.items self.now) }
        ensures counted { IsCountedMeasure T.order T.len T.distance
            → IsSomeAnd result (IsNumberOfKeys T.order (HoldsKey T.order (C.items self.now))) }
    {
        self.map.bounded_len()
    }
}
