//! A map's ranges moved to the end of another.
ghost use Rattle.std.specs.Prelude.{◌≡◌, ◌↔◌, ◌+◌, ◌≤◌, ◌++◌, [], length, IsTrue, IsErrAnd, IsOk, OnOk, OnErr};
ghost use Rattle.range_algebra.specs.Relations.{LiesBefore};
ghost use Rattle.range_bulk.specs.Appending.{IsOutOfOrder, LieBefore, appended};
ghost use Rattle.range_runs.specs.Bindings.{BindAlike};
ghost use Rattle.range_runs.specs.Canonical.{IsCanonical};

use crate::map::RangeMap;
use range_algebra::any::AnyRange;
use range_bulk::append::{NotAppended, move_all, move_first};
use range_keys::bound::Directed;
use range_keys::traits::PartialEnum;
use range_store::storage::{Item, Storage};
use std::ops::RangeBounds;

/// Whether the first range ends before the second starts.
fn ends_before<K: PartialEnum>(first: &AnyRange<K>, second: &AnyRange<K>) -> bool
    ensures { IsTrue result ↔ LiesBefore K.order first.now second.now }
{
    Directed::End(first.end_bound()) < Directed::Start(second.start_bound())
}

impl<K: PartialEnum, V: Eq + Drop, C: Storage<Item<AnyRange<K>, V>>> RangeMap<K, V, C> {
    /// Whether each of the ranges lies before each of the other map's.
    fn lies_before<D: Storage<Item<AnyRange<K>, V>>>(&self, other: &RangeMap<K, V, D>) -> bool
        ensures { IsTrue result ↔ LieBefore K.order (C.items self.now) (D.items other.now) }
    {
        self.in_form();
        other.in_form();
        let Some((last, _)) = self.last_range_value() else {
            return true;
        };
        let Some((first, _)) = other.first_range_value() else {
            return true;
        };
        ends_before(last, first)
    }

    /// Moves all ranges of the other map, with their values, to the end of this one, and leaves the
    /// other without any.
    ///
    /// Each of them has to lie after all ranges of this map, or the call fails with `OutOfOrder`.
    /// The first of them may touch the last of this map, and becomes one with it where their values
    /// are equal; all others stand as they were. After an error both maps are as they were. Clones
    /// nothing, and searches nothing; allocates where the container has no capacity for so many
    /// ranges more. Costs a step for each range of the other map. The two maps may be kept in two
    /// kinds of containers.
    ///
    /// ```
    /// // of a map that binds 0..=5 to 1, and one that binds 6..9 to 1
    /// assert!(rt; map.append(other).is_ok());
    /// assert!(rt; map.range_count() == 1 && other.is_empty()); // 0..9
    /// ```
    pub fn append<D: Storage<Item<AnyRange<K>, V>>>(
        &mut self,
        other: &mut RangeMap<K, V, D>,
    ) -> Result<(), NotAppended>
        ensures out_of_order { IsErrAnd result IsOutOfOrder
            ↔ ¬ LieBefore K.order (C.items self.old) (D.items other.old) }
        ensures bound { OnOk result (BindAlike K.order V.eq (C.items self.new)
            (C.items self.old ++ D.items other.old)) }
        ensures list { OnOk result (C.items self.new
            ≡ appended K.order V.eq (C.items self.old) (D.items other.old)) }
        ensures emptied { OnOk result (D.items other.new ≡ []) }
        ensures canonical { IsCanonical K.order V.eq (C.items self.new) }
        ensures few { length (C.items self.new)
            ≤ length (C.items self.old) + length (D.items other.old) }
        ensures succeeds { LieBefore K.order (C.items self.old) (D.items other.old)
            → length (D.items other.old) ≤ C.room self.old → IsOk result }
        ensures refused { OnErr result (C.items self.new ≡ C.items self.old) }
        ensures other_refused { OnErr result (D.items other.new ≡ D.items other.old) }
    {
        self.in_form();
        other.in_form();
        if !self.lies_before(other) {
            return Err(NotAppended::OutOfOrder);
        }
        self.stored.reserve(other.stored.len())?;
        move_first::<K, V, C, D>(&mut self.stored, &mut other.stored);
        move_all(&mut self.stored, &mut other.stored);
        Ok(())
    }
}
