//! From the first start to the last end.
ghost use Rattle.std.specs.Prelude.{◌≡◌, [], MatchOption};
ghost use Rattle.range_algebra.specs.References.{range_of};
ghost use Rattle.range_map.specs.Overlapping.{IsSpan};

use crate::map::RangeMap;
use range_algebra::any::AnyRange;
use range_keys::traits::PartialEnum;
use range_store::storage::{Item, Storage};
use std::ops::RangeBounds;

impl<K: PartialEnum, V: Eq + Drop, C: Storage<Item<AnyRange<K>, V>>> RangeMap<K, V, C> {
    /// The range from the start of the first stored range to the end of the last, or none where no
    /// range is stored.
    ///
    /// It refers to their bounds: `AnyRange::cloned` makes one of its own of it. Costs two ways
    /// down the tree. Allocates nothing.
    ///
    /// ```
    /// // of a map that binds 0..=5 to 1
    /// assert!(rt; map.span().is_some()); // 0..=5
    /// ```
    pub fn span(&self) -> Option<AnyRange<&K>>
        ensures span { MatchOption result (C.items self.now ≡ [])
            (λ s. IsSpan (C.items self.now) (range_of s)) }
    {
        match (self.first_range_value(), self.last_range_value()) {
            (Some((first, _)), Some((last, _))) => {
                Some(AnyRange::new(first.start_bound(), last.end_bound()))
            }
            (_, _) => None,
        }
    }
}
