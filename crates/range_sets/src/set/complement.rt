//! The keys that a set does not hold.
ghost use Rattle.std.specs.Prelude.{◌≡◌, ◌+◌, ◌≤◌, [], length, IfOk, OnOk};
ghost use Rattle.range_algebra.specs.Range.{ClonesAreEqual};
ghost use Rattle.range_sets.specs.Complements.{EqualGapsOf};
ghost use Rattle.range_set_extend.specs.KeySets.{HoldsTheOthers, IsCanonicalSet};

use super::RangeSet;
use range_algebra::any::AnyRange;
use range_algebra::inner;
use range_keys::traits::Measure;
use range_map::inner::append::{append, reserve};
use range_map::map::{MapError, RangeMap};
use range_store::storage::{Item, Storage};

impl<T: Measure + Clone, C: Storage<Item<AnyRange<T>, ()>>> RangeSet<T, C> {
    /// A set of just the keys that this one does not hold: its ranges are the gaps of this one.
    ///
    /// Allocates a clone of each bound, and what its container needs; fails where an allocation is
    /// refused. Costs a step for each stored range, and no search.
    ///
    /// ```
    /// set.extend([0..10, 20..30, 10..15])?; // 0..15 and 20..30 are stored
    /// set.remove(3u8)?;
    /// let others = set.complement()?; // just the keys that are not in the set
    /// assert!(rt; others.len() == 232);
    /// ```
    pub fn complement(&self) -> Result<Self, MapError>
        requires { ClonesAreEqual T.is_clone T.eq }
        ensures held { IfOk result
            (λ others. HoldsTheOthers T.order (C.items self.now) (C.items others)) }
        ensures gaps { IfOk result
            (λ others. EqualGapsOf T.order (C.items self.now) (C.items others)) }
        ensures canonical { IfOk result (λ others. IsCanonicalSet T.order (C.items others)) }
    {
        let most = match self.range_count().checked_add(1) {
            Some(most) => most,
            None => return Err(MapError::Memory),
        };
        let mut others = RangeMap::new(self.alloc);
        reserve(&mut others, most)?;
        self.append_gaps(&mut others)?;
        Ok(RangeSet {
            map: others,
            alloc: self.alloc,
        })
    }

    /// Appends a clone of each gap, in order, to an empty map that has room for all of them.
    fn append_gaps(&self, others: &mut RangeMap<T, (), C>) -> Result<(), MapError>
        requires clones { ClonesAreEqual T.is_clone T.eq }
        requires empty { C.items others.old ≡ [] }
        requires room { length (C.items self.now) + 1 ≤ C.room others.old }
        ensures held { OnOk result
            (HoldsTheOthers T.order (C.items self.now) (C.items others.new)) }
        ensures gaps { OnOk result (EqualGapsOf T.order (C.items self.now) (C.items others.new)) }
        ensures canonical { OnOk result (IsCanonicalSet T.order (C.items others.new)) }
    {
        self.in_form();
        let mut gaps = self.gaps();
        while let Some(gap) = gaps.next() {
            let range = gap.cloned()?;
            inner::known(&range);
            append(others, range, ());
        }
        Ok(())
    }
}
