//! Copies of a set.
ghost use Rattle.std.specs.Prelude.{IfOk, true};
ghost use Rattle.range_algebra.specs.Range.{ClonesAreEqual};
ghost use Rattle.range_reads.specs.ListOrder.{IsCopyOf};
ghost use Rattle.range_set_extend.specs.KeySets.{IsCanonicalSet};

use super::RangeSet;
use range_algebra::any::AnyRange;
use range_keys::traits::PartialEnum;
use range_store::storage::{Item, Storage};
use std::alloc::AllocError;

impl<T: PartialEnum + Clone, C: Storage<Item<AnyRange<T>, ()>>> RangeSet<T, C> {
    /// A set that stores equal ranges, and shares nothing with this one.
    ///
    /// Allocates its ranges and each clone of a key; fails where an allocation is refused. Costs
    /// a clone and a step for each stored range.
    ///
    /// ```
    /// let copy = set.clone()?;
    /// assert!(rt; copy == *set && copy.cmp(set) == Ordering::Equal);
    /// ```
    pub fn clone(&self) -> Result<Self, AllocError>
        requires { ClonesAreEqual T.is_clone T.eq }
        ensures equal { IfOk result
            (λ copy. IsCopyOf T.order (λ _ _. true) (C.items copy) (C.items self.now)) }
        ensures canonical { IfOk result (λ copy. IsCanonicalSet T.order (C.items copy)) }
    {
        Ok(RangeSet {
            map: self.map.clone()?,
            alloc: self.alloc,
        })
    }
}
