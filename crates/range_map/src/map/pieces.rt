//! The parts of a range that a map binds, and those that it leaves free.
ghost use Rattle.std.specs.Prelude.{◌≡◌, None};
ghost use Rattle.range_algebra.specs.Intervals.{Any};
ghost use Rattle.range_algebra.specs.declared.any.AnyRange.{AnyRange};
ghost use Rattle.range_runs.specs.Pieces.{ArePieces, IsFreePart};

use crate::map::RangeMap;
use range_algebra::any::AnyRange;
use range_algebra::inner;
use range_algebra::range::AsRange;
use range_keys::traits::Measure;
pub use range_runs::pieces::Pieces;
use range_store::storage::{Item, Storage};

impl<K: Measure, V: Eq + Drop, C: Storage<Item<AnyRange<K>, V>>> RangeMap<K, V, C> {
    /// The parts of the range, in ascending order, from both ends: each part of it that a stored
    /// range binds, with its value, and each free part between, with none.
    ///
    /// The parts refer to the bounds of the range and of the stored ranges: `AnyRange::cloned`
    /// makes one of its own of it. An empty range has no part. Costs two searches and one
    /// comparison more, and then a few comparisons for each part. Allocates nothing.
    ///
    /// ```
    /// // of a map that binds 0..=5 to 1
    /// assert!(rt; map.pieces(&(3..8)).next().is_some()); // 3..=5 with 1, and then 6..8 with none
    /// ```
    pub fn pieces<'a, R: AsRange<Item = K>>(&'a self, range: &'a R) -> Pieces<'a, K, V, C>
        ensures pieces { ArePieces K.order (C.items self.now) (R.range range.now) result }
        ensures free { (part : AnyRange K)
            → IsFreePart K.order (C.items self.now) (R.range range.now) part
            → Any (λ p. p.value ≡ None) result }
    {
        self.in_form();
        inner::known_range(range);
        let items = self.met_by(range);
        Pieces::new(AnyRange::new(range.start(), range.end()), items)
    }
}
