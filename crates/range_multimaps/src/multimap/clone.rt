//! Copies of a multimap.
ghost use Rattle.std.specs.Prelude.{IfOk};
ghost use Rattle.range_algebra.specs.Range.{ClonesAreEqual};
ghost use Rattle.range_reads.specs.ListOrder.{IsCopyOf};
ghost use Rattle.range_multimaps.specs.Pairs.{HasNoEmptySet};
ghost use Rattle.range_runs.specs.Canonical.{IsCanonical};

use super::RangeMultiMap;
use crate::members::{MaybeEmpty, SetMut};
use range_algebra::any::AnyRange;
use range_keys::traits::PartialEnum;
use range_store::storage::{Item, Storage};
use std::alloc::AllocError;

impl<K: PartialEnum + Clone, S: MaybeEmpty, C: Storage<Item<AnyRange<K>, S>>> RangeMultiMap<
    K,
    S,
    C,
> {
    /// A multimap that stores equal ranges with equal sets, and shares nothing with this one.
    ///
    /// Allocates for its ranges and for each clone of a key or a set; fails where that is refused.
    /// Costs a clone and a step for each stored range.
    ///
    /// ```
    /// let copy = classes.clone()?;
    /// assert!(rt; copy == *classes);
    /// ```
    pub fn clone<V: Eq + Clone>(&self) -> Result<Self, AllocError>
    where
        S: SetMut<V>,
        requires keys { ClonesAreEqual K.is_clone K.eq }
        requires values { ClonesAreEqual V.is_clone V.eq }
        ensures equal { IfOk result
            (λ copy. IsCopyOf K.order S.eq (C.items copy) (C.items self.now)) }
        ensures canonical { IfOk result (λ copy. IsCanonical K.order S.eq (C.items copy)) }
        ensures nonempty { IfOk result (λ copy. HasNoEmptySet S.is_void (C.items copy)) }
    {
        Ok(RangeMultiMap {
            map: self.map.clone()?,
            alloc: self.alloc,
        })
    }
}
