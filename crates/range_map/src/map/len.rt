//! How much a map binds.
ghost use Rattle.std.specs.Prelude.{◌≡◌, ◌↔◌, Some, IsNone, IsSomeAnd};
ghost use Rattle.range_keys.specs.Counted.{IsCountedMeasure};
ghost use Rattle.range_algebra.specs.Intervals.{Any};
ghost use Rattle.range_algebra.specs.Measures.{list_measure, AreInOrder, HasUnknownEnd};
ghost use Rattle.range_algebra.specs.Numbers.{IsNumberOfKeys};
ghost use Rattle.range_runs.specs.Bindings.{IsBound};
ghost use Rattle.range_reads.specs.FreeRanges.{item_ranges};

use crate::map::{Iter, RangeMap};
use range_algebra::any::AnyRange;
use range_keys::traits::{Bounded, Measure};
use range_store::storage::{Item, Storage};

/// What ranges in order measure together, or none where one of them has an end that is not known.
fn measure<K: Measure, V, C: Storage<Item<AnyRange<K>, V>>>(
    mut items: Iter<'_, K, V, C>,
) -> Option<u128>
    requires { AreInOrder K.order (item_ranges items) }
    ensures { result ≡ list_measure K.order K.len K.distance (item_ranges items.entry) }
{
    let mut total = 0;
    while let Some((range, _)) = items.next() {
        total += range.bounded_len()?;
    }
    Some(total)
}

impl<K: Measure + Bounded, V: Eq + Drop, C: Storage<Item<AnyRange<K>, V>>> RangeMap<K, V, C> {
    /// What the stored ranges measure together: over the shipped keys, each of which has length 1,
    /// the number of bound keys.
    ///
    /// An unbounded bound stands for the least or the greatest key, included. Costs a step and a
    /// distance for each stored range. Allocates nothing.
    ///
    /// ```
    /// let mut map: RangeMap<i32, i64> = RangeMap::new(rt.alloc());
    /// map.insert(0..=5, 1)?;
    /// map.insert(4, 0)?; // a key alone
    /// println!(rt; "{} keys in {} ranges", map.len(), map.range_count())?;
    /// ```
    pub fn len(&self) -> u128
        ensures measure { list_measure K.order K.len K.distance (item_ranges (C.items self.now))
            ≡ Some result }
        ensures counted { IsCountedMeasure K.order K.len K.distance
            → IsNumberOfKeys K.order (IsBound K.order (C.items self.now)) result }
    {
        self.bounded_len().unwrap()
    }
}

impl<K: Measure, V: Eq + Drop, C: Storage<Item<AnyRange<K>, V>>> RangeMap<K, V, C> {
    /// What the stored ranges measure together, as `len` says, or `None` where one of them is
    /// unbounded towards an end that is not known.
    ///
    /// Costs a step and a distance for each stored range. Allocates nothing.
    ///
    /// ```
    /// // of a map that binds 0..=5 to 1
    /// assert!(rt; map.bounded_len() == Some(6));
    /// ```
    pub fn bounded_len(&self) -> Option<u128>
        ensures measure { result
            ≡ list_measure K.order K.len K.distance (item_ranges (C.items self.now)) }
        ensures unknown { IsNone result
            ↔ Any (λ i. HasUnknownEnd K.order i.key) (C.items self.now) }
        ensures counted { IsCountedMeasure K.order K.len K.distance
            → IsSomeAnd result (IsNumberOfKeys K.order (IsBound K.order (C.items self.now))) }
    {
        measure(self.iter())
    }
}
