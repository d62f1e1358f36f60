//! Binding the keys of many ranges.
ghost use Rattle.std.specs.Prelude.{[], IfOk, OnOk, OnErr};
ghost use Rattle.std.specs.Iterator.{IsFiniteIterable};
ghost use Rattle.range_algebra.specs.Range.{ClonesAreEqual};
ghost use Rattle.range_map.specs.Extending.{AfterAll, AfterSome, AreBoundAfter, IsNonempty};
ghost use Rattle.range_runs.specs.Canonical.{IsCanonical};

use crate::map::RangeMap;
use range_algebra::any::AnyRange;
use range_algebra::range::IntoRange;
use range_edit::error::MapError;
use range_keys::traits::Measure;
use range_store::storage::{Item, Storage};
use std::alloc::Global;

impl<K: Measure + Clone, V: Eq + Clone, C: Storage<Item<AnyRange<K>, V>>> RangeMap<K, V, C> {
    /// Binds each key of each range that the iterator gives to the value beside it; where several
    /// ranges hold a key, the last one counts.
    ///
    /// Where an allocation fails for a range, what the ranges before it bind stays bound, and
    /// nothing else is changed. Costs an insertion for each range.
    ///
    /// ```
    /// // of a map that binds no key
    /// map.extend([(0..10, 1), (20..30, 2), (5..7, 3)])?;
    /// assert!(rt; map.range_count() == 4);
    /// ```
    pub fn extend<R: IntoRange<Item = K>, I: IntoIterator<Item = (R, V)>>(
        &mut self,
        pairs: I,
    ) -> Result<(), MapError>
        requires keys { ClonesAreEqual K.is_clone K.eq }
        requires values { ClonesAreEqual V.is_clone V.eq }
        requires ends { IsFiniteIterable I.into_iter_gives I.IntoIter.can_next I.IntoIter.remaining
            pairs }
        ensures bound { OnOk result
            (AfterAll I.into_iter_gives I.IntoIter.next_gives R.range pairs
            (AreBoundAfter K.order V.eq (C.items self.old) (C.items self.new))) }
        ensures refused { OnErr result
            (AfterSome I.into_iter_gives I.IntoIter.next_gives R.range pairs (IsNonempty K.order)
            (AreBoundAfter K.order V.eq (C.items self.old) (C.items self.new))) }
        ensures canonical { IsCanonical K.order V.eq (C.items self.new) }
    {
        self.in_form();
        for (range, value) in pairs {
            self.insert(range, value)?;
        }
        Ok(())
    }

    /// A map that binds each key of the ranges that the iterator gives to the value beside the last
    /// one that holds it, and no other key.
    ///
    /// Fails where an allocation does. Costs an insertion for each range.
    ///
    /// ```
    /// let map: RangeMap<i32, i64> = RangeMap::from_iter(alloc, [(0..2, 1), (4..6, 2)])?;
    /// ```
    pub fn from_iter<R: IntoRange<Item = K>, I: IntoIterator<Item = (R, V)>>(
        alloc: Global,
        pairs: I,
    ) -> Result<Self, MapError>
        requires keys { ClonesAreEqual K.is_clone K.eq }
        requires values { ClonesAreEqual V.is_clone V.eq }
        requires ends { IsFiniteIterable I.into_iter_gives I.IntoIter.can_next I.IntoIter.remaining
            pairs }
        ensures bound { IfOk result
            (λ map. AfterAll I.into_iter_gives I.IntoIter.next_gives R.range pairs
            (AreBoundAfter K.order V.eq [] (C.items map))) }
        ensures canonical { IfOk result (λ map. IsCanonical K.order V.eq (C.items map)) }
    {
        let mut map = RangeMap::new(alloc);
        map.extend(pairs)?;
        Ok(map)
    }
}
