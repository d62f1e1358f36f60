//! A map changed by the bindings of another.
ghost use Rattle.std.specs.Prelude.{OnOk, OnErr};
ghost use Rattle.range_algebra.specs.Range.{ClonesAreEqual};
ghost use Rattle.range_map.specs.Overlays.{IsOverlaid, IsRestricted, IsWithout};
ghost use Rattle.range_map.specs.PartWay.{AreUnboundAfter, BeforeOne, BeforeOneGap};
ghost use Rattle.range_runs.specs.Canonical.{IsCanonical};

use crate::map::{GapsWithin, RangeMap};
use range_algebra::any::AnyRange;
use range_edit::error::MapError;
use range_keys::traits::{Measure, PartialEnum};
use range_store::storage::{Item, Storage};

impl<K: Measure + Clone, V: Eq + Clone, C: Storage<Item<AnyRange<K>, V>>> RangeMap<K, V, C> {
    /// Binds each key that the other map binds as that does, whatever container it is kept in.
    ///
    /// Searches once for each range of the other map. Where that has 64 ranges or more, and half as
    /// many as this one, it goes once over both maps, as `overlay` does. Allocates a clone of each
    /// bound and each value of the other map, and what `insert` does; or what `overlay` does, and
    /// where that fails, goes range by range. After an error the keys of the other map's ranges
    /// before the one at which it failed are bound as there, and each other key as before.
    ///
    /// ```
    /// // of a map that binds 0..=5 to 1, and one that binds 4..9 to 10
    /// map.extend_from(other)?;
    /// assert!(rt; map.get(4).copied() == Some(10)); // 0..4 is bound to 1
    /// ```
    pub fn extend_from<D: Storage<Item<AnyRange<K>, V>>>(
        &mut self,
        other: &RangeMap<K, V, D>,
    ) -> Result<(), MapError>
        requires keys { ClonesAreEqual K.is_clone K.eq }
        requires values { ClonesAreEqual V.is_clone V.eq }
        ensures bound { OnOk result
            (IsOverlaid K.order V.eq (C.items self.old) (D.items other.now) (C.items self.new)) }
        ensures refused { OnErr result (BeforeOne (D.items other.now)
            (λ front. IsOverlaid K.order V.eq (C.items self.old) front (C.items self.new))) }
        ensures canonical { IsCanonical K.order V.eq (C.items self.new) }
    {
        self.in_form();
        if is_many(other.range_count(), self.range_count()) {
            if let Ok(both) = self.overlay(other) {
                *self = both;
                return Ok(());
            }
        }
        self.insert_each(other)
    }

    /// Unbinds each key that the other map binds, whatever its values and its container.
    ///
    /// Searches once for each range of the other map. Where that has 64 ranges or more, and half as
    /// many as this one, it goes once over both maps, as `without` does. Allocates what `remove`
    /// does; or what `without` does, and where that fails, goes range by range. After an error the
    /// keys of the other map's ranges before the
    /// one at which it failed are unbound, and each other key is bound as before.
    ///
    /// ```
    /// // of a map that binds 0..=5 to 1, and one that binds 4..9 to 10
    /// map.remove_all(other)?;
    /// assert!(rt; map.len() == 4); // 0..4 is bound to 1
    /// ```
    pub fn remove_all<W: Eq + Drop, D: Storage<Item<AnyRange<K>, W>>>(
        &mut self,
        other: &RangeMap<K, W, D>,
    ) -> Result<(), MapError>
        requires keys { ClonesAreEqual K.is_clone K.eq }
        requires values { ClonesAreEqual V.is_clone V.eq }
        ensures bound { OnOk result
            (IsWithout K.order V.eq (C.items self.old) (D.items other.now) (C.items self.new)) }
        ensures refused { OnErr result (BeforeOne (D.items other.now)
            (λ front. IsWithout K.order V.eq (C.items self.old) front (C.items self.new))) }
        ensures canonical { IsCanonical K.order V.eq (C.items self.new) }
    {
        self.in_form();
        if is_many(other.range_count(), self.range_count()) {
            if let Ok(rest) = self.without(other) {
                *self = rest;
                return Ok(());
            }
        }
        self.remove_each(other)
    }

    /// Keeps only the bindings of keys that the other map binds, whatever its values and its
    /// container.
    ///
    /// Searches once for each gap of the other map, and takes each stored range out by itself. It
    /// goes once over both maps, as `restrict` does, where the other map has 64 ranges or more and
    /// half as many as this one, or where a quarter of its gaps, taken from both ends in turn, meet
    /// a fifth of 64 ranges or more. Allocates a clone of each bound of a gap, and what `remove`
    /// does; or what `restrict` does, and where that fails, goes gap by gap. After an error the
    /// keys of the other map's gaps before the one at which it failed are unbound, and each other
    /// key is bound as before.
    ///
    /// ```
    /// // of a map that binds 0..=5 to 1, and one that binds 4..9 to 10
    /// map.retain_all(other)?;
    /// assert!(rt; map.len() == 2); // 4..=5 is bound to 1
    /// ```
    pub fn retain_all<W: Eq + Drop, D: Storage<Item<AnyRange<K>, W>>>(
        &mut self,
        other: &RangeMap<K, W, D>,
    ) -> Result<(), MapError>
        requires keys { ClonesAreEqual K.is_clone K.eq }
        requires values { ClonesAreEqual V.is_clone V.eq }
        ensures bound { OnOk result
            (IsRestricted K.order V.eq (C.items self.old) (D.items other.now) (C.items self.new)) }
        ensures refused { OnErr result (BeforeOneGap K.order (D.items other.now)
            (AreUnboundAfter K.order V.eq (C.items self.old) (C.items self.new))) }
        ensures canonical { IsCanonical K.order V.eq (C.items self.new) }
    {
        self.in_form();
        if self.loses_many(other) {
            if let Ok(kept) = self.restrict(other) {
                *self = kept;
                return Ok(());
            }
        }
        self.remove_gaps(other)
    }

    // Whether to go once over both maps in place of removing each gap of the other map: for its
    // many ranges, or for what its outer gaps take out.
    fn loses_many<W: Eq + Drop, D: Storage<Item<AnyRange<K>, W>>>(
        &self,
        other: &RangeMap<K, W, D>,
    ) -> bool {
        let ranges = self.range_count();
        is_many(other.range_count(), ranges) || (ranges >= FEWEST && self.meets_outer_gaps(other))
    }

    // Whether a quarter of the other map's gaps, taken from both ends in turn, meet a fifth of the
    // ranges.
    fn meets_outer_gaps<W: Eq + Drop, D: Storage<Item<AnyRange<K>, W>>>(
        &self,
        other: &RangeMap<K, W, D>,
    ) -> bool {
        let mut left = self.range_count() / 5;
        let all = (..).into();
        let mut gaps = other.gaps_within::<AnyRange<K>>(&all);
        for turn in 0..other.range_count() / 4 + 2 {
            let Some(gap) = next_outer(&mut gaps, turn) else {
                return false;
            };
            let Ok(gap) = gap.cloned() else {
                return false;
            };
            left = self.less_met(left, &gap);
            if left == 0 {
                return true;
            }
        }
        false
    }

    // What is left of so many, less the stored ranges that the range meets.
    fn less_met(&self, many: usize, range: &AnyRange<K>) -> usize {
        let mut items = self.met_by(range);
        for met in 0..many {
            if items.next().is_none() {
                return many - met;
            }
        }
        0
    }
}

// The next gap from one end, or in each other turn from the other.
fn next_outer<'a, K: PartialEnum, W: Eq + Drop, D: Storage<Item<AnyRange<K>, W>>>(
    gaps: &mut GapsWithin<'a, K, W, D>,
    turn: usize,
) -> Option<AnyRange<&'a K>> {
    if turn % 2 == 0 {
        gaps.next()
    } else {
        gaps.next_back()
    }
}

// With fewer changes, or for fewer ranges, one pass is not tried: a search costs little there.
const FEWEST: usize = 64;

// Whether one pass over so many ranges and changes costs no more than a search for each change,
// also where a clone of a value allocates.
fn is_many(changes: usize, ranges: usize) -> bool {
    changes >= FEWEST && changes >= ranges / 2
}
