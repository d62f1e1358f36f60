//! The parts of a range that a map leaves free, and whether there is one.
ghost use Rattle.std.specs.Prelude.{◌≡◌, ◌↔◌, [], IsTrue};
ghost use Rattle.range_keys.specs.Order.{IsComplete};
ghost use Rattle.range_algebra.specs.declared.any.AnyRange.{AnyRange};
ghost use Rattle.range_runs.specs.Lookups.{BindsAllOf};
ghost use Rattle.range_reads.specs.PieceLists.{AreGapsWithin};
ghost use Rattle.range_runs.specs.Pieces.{IsFreePart};

use crate::map::RangeMap;
use range_algebra::any::AnyRange;
use range_algebra::inner;
use range_algebra::range::AsRange;
use range_keys::traits::Measure;
pub use range_reads::gaps_within::GapsWithin;
use range_store::storage::{Item, Storage};

impl<K: Measure, V: Eq + Drop, C: Storage<Item<AnyRange<K>, V>>> RangeMap<K, V, C> {
    /// The parts of the range that hold no bound key, in ascending order, from both ends, each as
    /// wide as it goes and none empty.
    ///
    /// They refer to the bounds of the range and of the stored ranges beside them. Costs two
    /// searches and one comparison more, and then a few comparisons for each stored range that
    /// meets the range. Allocates nothing.
    ///
    /// ```
    /// // of a map that binds 0..=5 to 1
    /// assert!(rt; map.gaps_within(&(3..8)).next().is_some()); // 6..8
    /// ```
    pub fn gaps_within<'a, R: AsRange<Item = K>>(&'a self, range: &'a R) -> GapsWithin<'a, K, V, C>
        ensures gaps { AreGapsWithin K.order (C.items self.now) (R.range range.now) result }
        ensures none { result ≡ [] → (part : AnyRange K)
            → ¬ IsFreePart K.order (C.items self.now) (R.range range.now) part }
    {
        GapsWithin::new(self.pieces(range))
    }

    /// Whether each key of the range is bound.
    ///
    /// It is where no part of the range is free; over keys that leave no gap, nowhere else. An
    /// empty range is bound. Costs two searches and one comparison more, and then a few
    /// comparisons for each stored range that meets the range, up to its first gap. Allocates
    /// nothing.
    ///
    /// ```
    /// // of a map that binds 0..=5 to 1
    /// assert!(rt; map.binds_all(0..=5) && !map.binds_all(5..=6));
    /// ```
    pub fn binds_all<R: AsRange<Item = K>>(&self, range: R) -> bool
        ensures free { IsTrue result ↔ ((part : AnyRange K)
            → ¬ IsFreePart K.order (C.items self.now) (R.range range) part) }
        ensures bound { IsTrue result → BindsAllOf K.order (C.items self.now) (R.range range) }
        ensures complete { IsComplete K.order
            → BindsAllOf K.order (C.items self.now) (R.range range) → IsTrue result }
    {
        self.in_form();
        inner::known_range(&range);
        let mut gaps = self.gaps_within(&range);
        match gaps.next() {
            None => true,
            Some(_) => false,
        }
    }
}
