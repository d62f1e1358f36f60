//! A map changed by the ranges of another, one after the other.
ghost use Rattle.std.specs.Prelude.{OnOk, OnErr};
ghost use Rattle.range_algebra.specs.Range.{ClonesAreEqual};
ghost use Rattle.range_map.specs.Overlays.{IsOverlaid, IsRestricted, IsWithout};
ghost use Rattle.range_map.specs.PartWay.{AreUnboundAfter, BeforeOne, BeforeOneGap};
ghost use Rattle.range_runs.specs.Canonical.{IsCanonical};

use crate::map::RangeMap;
use range_algebra::any::AnyRange;
use range_edit::error::MapError;
use range_keys::traits::Measure;
use range_store::storage::{Item, Storage};

impl<K: Measure + Clone, V: Eq + Clone, C: Storage<Item<AnyRange<K>, V>>> RangeMap<K, V, C> {
    /// Inserts each range of the other map with its value.
    pub(crate) fn insert_each<D: Storage<Item<AnyRange<K>, V>>>(
        &mut self,
        other: &RangeMap<K, V, D>,
    ) -> Result<(), MapError>
        requires keys { ClonesAreEqual K.is_clone K.eq }
        requires values { ClonesAreEqual V.is_clone V.eq }
        ensures bound { OnOk result
            (IsOverlaid K.order V.eq (C.items self.old) (D.items other.now) (C.items self.new)) }
        ensures refused { OnErr result (BeforeOne (D.items other.now)
            (λ front. IsOverlaid K.order V.eq (C.items self.old) front (C.items self.new))) }
        ensures canonical { IsCanonical K.order V.eq (C.items self.new) }
    {
        self.in_form();
        let mut items = other.iter();
        while let Some((range, value)) = items.next() {
            self.insert(range.clone()?, value.clone()?)?;
        }
        Ok(())
    }

    /// Removes each range of the other map.
    pub(crate) fn remove_each<W: Eq + Drop, D: Storage<Item<AnyRange<K>, W>>>(
        &mut self,
        other: &RangeMap<K, W, D>,
    ) -> Result<(), MapError>
        requires keys { ClonesAreEqual K.is_clone K.eq }
        requires values { ClonesAreEqual V.is_clone V.eq }
        ensures bound { OnOk result
            (IsWithout K.order V.eq (C.items self.old) (D.items other.now) (C.items self.new)) }
        ensures refused { OnErr result (BeforeOne (D.items other.now)
            (λ front. IsWithout K.order V.eq (C.items self.old) front (C.items self.new))) }
        ensures canonical { IsCanonical K.order V.eq (C.items self.new) }
    {
        self.in_form();
        let mut items = other.iter();
        while let Some((range, _)) = items.next() {
            self.remove(range)?;
        }
        Ok(())
    }

    /// Removes each gap of the other map.
    pub(crate) fn remove_gaps<W: Eq + Drop, D: Storage<Item<AnyRange<K>, W>>>(
        &mut self,
        other: &RangeMap<K, W, D>,
    ) -> Result<(), MapError>
        requires keys { ClonesAreEqual K.is_clone K.eq }
        requires values { ClonesAreEqual V.is_clone V.eq }
        ensures bound { OnOk result
            (IsRestricted K.order V.eq (C.items self.old) (D.items other.now) (C.items self.new)) }
        ensures refused { OnErr result (BeforeOneGap K.order (D.items other.now)
            (AreUnboundAfter K.order V.eq (C.items self.old) (C.items self.new))) }
        ensures canonical { IsCanonical K.order V.eq (C.items self.new) }
    {
        self.in_form();
        let mut gaps = other.gaps();
        while let Some(gap) = gaps.next() {
            self.remove(gap.cloned()?)?;
        }
        Ok(())
    }
}
