//! A set changed by the keys of another, range by range.
ghost use Rattle.std.specs.Prelude.{OnOk, OnErr};
ghost use Rattle.range_algebra.specs.Range.{ClonesAreEqual};
ghost use Rattle.range_map.specs.PartWay.{BeforeOne, BeforeOneGap};
ghost use Rattle.range_set_extend.specs.KeySets.{HoldsWithoutAll, IsCanonicalSet};
ghost use Rattle.range_sets.specs.TwoSets.{HoldsEither, HoldsBoth, HoldsFirstAlone};

use super::RangeSet;
use range_algebra::any::AnyRange;
use range_keys::traits::Measure;
use range_map::map::MapError;
use range_store::storage::{Item, Storage};

impl<T: Measure + Clone, C: Storage<Item<AnyRange<T>, ()>>> RangeSet<T, C> {
    /// Adds each key of the other set, whatever container it is kept in.
    ///
    /// Searches once for each range of the other set, or goes once over both sets, as
    /// `RangeMap::extend_from`. Allocates a clone of each bound of the other set, and where more
    /// ranges are stored than the container has capacity for; or what `union` does. After an error
    /// the keys of the other set's ranges before the one at which it failed are added, and no other
    /// key.
    ///
    /// ```
    /// // of a set of the keys 0..=5, and one of the keys 4..9
    /// set.extend_from(other)?;
    /// assert!(rt; set.len() == 9); // 0..9
    /// ```
    pub fn extend_from<D: Storage<Item<AnyRange<T>, ()>>>(
        &mut self,
        other: &RangeSet<T, D>,
    ) -> Result<(), MapError>
        requires { ClonesAreEqual T.is_clone T.eq }
        ensures held { OnOk result
            (HoldsEither T.order (C.items self.old) (D.items other.now) (C.items self.new)) }
        ensures refused { OnErr result (BeforeOne (D.items other.now)
            (λ front. HoldsEither T.order (C.items self.old) front (C.items self.new))) }
        ensures canonical { IsCanonicalSet T.order (C.items self.new) }
    {
        self.map.extend_from(&other.map)
    }

    /// Takes each key of the other set away, whatever container it is kept in.
    ///
    /// Searches once for each range of the other set, or goes once over both sets, as
    /// `RangeMap::remove_all`. Allocates a clone of each bound at which a stored range is cut, and
    /// where more ranges are stored than the container has capacity for; or what `difference` does.
    /// After an error the keys of the other set's
    /// ranges before the one at which it failed are gone, and no other key.
    ///
    /// ```
    /// // of a set of the keys 0..=5, and one of the keys 4..9
    /// set.remove_all(other)?;
    /// assert!(rt; set.len() == 4); // 0..4
    /// ```
    pub fn remove_all<D: Storage<Item<AnyRange<T>, ()>>>(
        &mut self,
        other: &RangeSet<T, D>,
    ) -> Result<(), MapError>
        requires { ClonesAreEqual T.is_clone T.eq }
        ensures held { OnOk result
            (HoldsFirstAlone T.order (C.items self.old) (D.items other.now) (C.items self.new)) }
        ensures refused { OnErr result (BeforeOne (D.items other.now)
            (λ front. HoldsFirstAlone T.order (C.items self.old) front (C.items self.new))) }
        ensures canonical { IsCanonicalSet T.order (C.items self.new) }
    {
        self.map.remove_all(&other.map)
    }

    /// Keeps only the keys that are in the other set, whatever container it is kept in.
    ///
    /// Searches once for each gap of the other set, and takes each stored range out by itself; or
    /// goes once over both sets, as `RangeMap::retain_all`. Allocates a clone of each bound of a
    /// gap, and one of each bound at which a stored range is cut; also where more ranges are stored
    /// than the container has capacity for; or what `intersection` does. After an error the keys of
    /// the other set's gaps before the one at which it failed are gone, and no other key.
    ///
    /// ```
    /// // of a set of the keys 0..=5, and one of the keys 4..9
    /// set.retain_all(other)?;
    /// assert!(rt; set.len() == 2); // 4..=5
    /// ```
    pub fn retain_all<D: Storage<Item<AnyRange<T>, ()>>>(
        &mut self,
        other: &RangeSet<T, D>,
    ) -> Result<(), MapError>
        requires { ClonesAreEqual T.is_clone T.eq }
        ensures held { OnOk result
            (HoldsBoth T.order (C.items self.old) (D.items other.now) (C.items self.new)) }
        ensures refused { OnErr result (BeforeOneGap T.order (D.items other.now)
            (HoldsWithoutAll T.order (C.items self.old) (C.items self.new))) }
        ensures canonical { IsCanonicalSet T.order (C.items self.new) }
    {
        self.map.retain_all(&other.map)
    }
}
