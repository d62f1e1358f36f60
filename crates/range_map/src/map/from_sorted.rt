//! A map built of ranges that are in order.
ghost use Rattle.std.specs.List.{AllByRecursion as Every};
ghost use Rattle.std.specs.Prelude.{◌≡◌, ◌↔◌, ℕ, IfOk, IsOk, Err, length, map};
ghost use Rattle.range_algebra.specs.Range.{IsKeyRange};
ghost use Rattle.range_bulk.specs.Sorting.{IsFirstFault, IsSorted, item_of};
ghost use Rattle.range_runs.specs.Bindings.{BindAlike};
ghost use Rattle.range_runs.specs.Canonical.{IsCanonical};
ghost use Rattle.range_map.specs.declared.map.from_sorted.NotSorted.TheVariants.{OutOfOrder as FaultAt};

use crate::inner::build::map_of;
use crate::map::RangeMap;
use range_algebra::any::AnyRange;
use range_algebra::range::IntoRange;
use range_bulk::sorted::{first_fault, list_of};
use range_keys::traits::Measure;
use range_store::storage::{Item, Storage};
use std::alloc::{AllocError, Global};
use thiserror::Error;

/// Why a map was not built of a list of ranges.
#[derive(Debug, Drop, Clone, Copy, PartialEq, Eq, Error)]
pub enum NotSorted {
    /// The range at this position is the first that is empty or does not lie after the one before
    /// it.
    #[error("range {0} is empty, or does not lie after the one before it")]
    OutOfOrder(usize),
    /// There was not enough memory.
    #[error("out of memory")]
    Memory,
}

/// A map of ranges that are in order.
fn build<K: Measure, V: Eq + Drop, C: Storage<Item<AnyRange<K>, V>>, R: IntoRange<Item = K>>(
    alloc: Global,
    pairs: Vec<(R, V)>,
) -> Result<RangeMap<K, V, C>, AllocError>
    requires sorted { IsSorted K.order (map (item_of R.range) pairs.items) }
    requires known { Every (λ i. IsKeyRange K.order i.key)
        (map (item_of R.range) pairs.items) }
    ensures bound { IfOk result
        (λ new. BindAlike K.order V.eq (C.items new) (map (item_of R.range) pairs.items)) }
    ensures canonical { IfOk result (λ new. IsCanonical K.order V.eq (C.items new)) }
    ensures none_needed { length pairs.items ≡ 0 → IsOk result }
{
    map_of(alloc, list_of(alloc, pairs)?)
}

impl<K: Measure, V: Eq + Drop, C: Storage<Item<AnyRange<K>, V>>> RangeMap<K, V, C> {
    /// A map that binds each key of the ranges to the value beside the one that holds it, and no
    /// other key.
    ///
    /// No range may be empty, and each has to lie before the next, as in a table that was saved;
    /// ranges that touch with equal values are kept as one. The error names the position of the
    /// first range that does not come so, and then nothing was allocated. Clones nothing;
    /// allocates a list of all ranges and capacity for them, each at once, and fails where that
    /// does, and never of an empty list. Costs two steps for each range, and no search.
    ///
    /// ```
    /// let pairs = vec![in alloc; (0..4, 1), (4..6, 1), (8..9, 2)]?;
    /// let map: RangeMap<i32, i64> = RangeMap::from_sorted(alloc, pairs)?;
    /// assert!(rt; map.range_count() == 2); // 0..6 and 8..9
    /// ```
    pub fn from_sorted<R: IntoRange<Item = K>>(
        alloc: Global,
        pairs: Vec<(R, V)>,
    ) -> Result<Self, NotSorted>
        ensures out_of_order { (n : ℕ) → result ≡ Err (FaultAt n)
            ↔ IsFirstFault K.order (map (item_of R.range) pairs.items) n }
        ensures bound { IfOk result
            (λ new. BindAlike K.order V.eq (C.items new) (map (item_of R.range) pairs.items)) }
        ensures canonical { IfOk result (λ new. IsCanonical K.order V.eq (C.items new)) }
        ensures empty { length pairs.items ≡ 0 → IsOk result }
    {
        match first_fault::<K, R, V>(pairs.as_slice()) {
            Some(index) => {
                drop(pairs);
                Err(NotSorted::OutOfOrder(index))
            }
            None => match build(alloc, pairs) {
                Ok(new) => Ok(new),
                Err(AllocError) => Err(NotSorted::Memory),
            },
        }
    }
}
