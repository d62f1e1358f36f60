//! Adding the keys of many ranges.
ghost use Rattle.std.specs.Prelude.{IfOk, OnOk, OnErr};
ghost use Rattle.std.specs.Iterator.{IsFiniteIterable};
ghost use Rattle.range_algebra.specs.Range.{ClonesAreEqual};
ghost use Rattle.range_set_extend.specs.Extending.{AfterAll, AfterSome};
ghost use Rattle.range_set_extend.specs.KeySets.{HoldsAllAlso, HoldsAllOf, IsCanonicalSet};

use super::RangeSet;
use range_algebra::any::AnyRange;
use range_algebra::range::IntoRange;
use range_keys::traits::Measure;
use range_map::map::MapError;
use range_set_extend::extend::extend;
use range_store::storage::{Item, Storage};
use std::alloc::Global;

impl<T: Measure + Clone, C: Storage<Item<AnyRange<T>, ()>>> RangeSet<T, C> {
    /// Adds each key of each range that the iterator gives.
    ///
    /// Where an allocation fails for a range, the keys of all ranges before it stay added, and no
    /// other key. Costs an insertion for each range.
    ///
    /// ```
    /// // of a set of bytes that has no key
    /// set.extend([0..10, 20..30, 10..15])?; // 0..15 and 20..30 are stored
    /// ```
    pub fn extend<R: IntoRange<Item = T>, I: IntoIterator<Item = R>>(
        &mut self,
        ranges: I,
    ) -> Result<(), MapError>
        requires clones { ClonesAreEqual T.is_clone T.eq }
        requires ends { IsFiniteIterable I.into_iter_gives I.IntoIter.can_next I.IntoIter.remaining
            ranges }
        ensures added { OnOk result
            (AfterAll I.into_iter_gives I.IntoIter.next_gives R.range ranges
            (HoldsAllAlso T.order (C.items self.old) (C.items self.new))) }
        ensures refused { OnErr result
            (AfterSome I.into_iter_gives I.IntoIter.next_gives R.range ranges T.order
            (HoldsAllAlso T.order (C.items self.old) (C.items self.new))) }
        ensures canonical { IsCanonicalSet T.order (C.items self.new) }
    {
        extend(&mut self.map, ranges)
    }

    /// A set of just the keys of the ranges that the iterator gives.
    ///
    /// Fails where an allocation does. Costs an insertion for each range.
    ///
    /// ```
    /// let mut set: generic::RangeSet<i32, C> = generic::RangeSet::from_iter(alloc, [0..2, 4..6])?;
    /// ```
    pub fn from_iter<R: IntoRange<Item = T>, I: IntoIterator<Item = R>>(
        alloc: Global,
        ranges: I,
    ) -> Result<Self, MapError>
        requires clones { ClonesAreEqual T.is_clone T.eq }
        requires ends { IsFiniteIterable I.into_iter_gives I.IntoIter.can_next I.IntoIter.remaining
            ranges }
        ensures held { IfOk result
            (λ set. AfterAll I.into_iter_gives I.IntoIter.next_gives R.range ranges
            (HoldsAllOf T.order (C.items set))) }
        ensures canonical { IfOk result (λ set. IsCanonicalSet T.order (C.items set)) }
    {
        let mut set = RangeSet::new(alloc);
        set.extend(ranges)?;
        Ok(set)
    }
}
