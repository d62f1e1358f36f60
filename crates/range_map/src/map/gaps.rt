//! The ranges that a map leaves free.
ghost use Rattle.std.specs.Prelude.{◌+◌, ◌≤◌, ◌++◌, length};
ghost use Rattle.range_reads.specs.FreeRanges.{item_ranges, AreGaps, IsHeldOnce};

use crate::map::RangeMap;
use range_algebra::any::AnyRange;
use range_keys::traits::PartialEnum;
pub use range_reads::gaps::Gaps;
use range_store::storage::{Item, Storage};

impl<K: PartialEnum, V: Eq + Drop, C: Storage<Item<AnyRange<K>, V>>> RangeMap<K, V, C> {
    /// The ranges that hold no bound key, in ascending order, each as wide as it goes and none
    /// empty.
    ///
    /// A map that binds no key has one gap, the full range, and one that binds every key has none.
    /// A gap refers to the bounds of the ranges beside it: `AnyRange::cloned` makes one of its own
    /// of it. An iteration over all gaps takes one step for each stored range. Allocates nothing.
    ///
    /// ```
    /// // of a map that binds 0..=5 to 1
    /// assert!(rt; map.gaps().next().is_some()); // ..0, and then from 6 on
    /// ```
    pub fn gaps(&self) -> Gaps<'_, K, V, C>
        ensures gaps { AreGaps K.order (C.items self.now) result }
        ensures once { (k : K) → K.order.is_key k
            → IsHeldOnce K.order (item_ranges (C.items self.now) ++ result) k }
        ensures few { length result ≤ length (C.items self.now) + 1 }
    {
        self.in_form();
        Gaps::new(&self.stored)
    }
}
