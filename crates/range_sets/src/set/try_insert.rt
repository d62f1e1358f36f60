//! Adding the keys of a range that meets no stored one.
ghost use Rattle.std.specs.Prelude.{◌≡◌, ◌+◌, ◌≤◌, ◌↔◌, true, length, IsErrAnd, IfErr, IsOk, OnOk, OnErr};
ghost use Rattle.range_algebra.specs.Range.{IsEmptyRange};
ghost use Rattle.range_runs.specs.Frames.{IsInsertionFrame};
ghost use Rattle.range_runs.specs.Lookups.{MeetsSome, MeetAlso};
ghost use Rattle.range_sets.specs.Adding.{IsOccupied, given_back};
ghost use Rattle.range_set_extend.specs.KeySets.{HoldsAlso, IsCanonicalSet};

use super::RangeSet;
use range_algebra::any::AnyRange;
use range_algebra::range::IntoRange;
use range_keys::traits::Measure;
use range_map::map::NotFree;
use range_store::storage::{Item, Storage};

/// Why the keys of a range were not added, with the range that was given.
#[derive(Drop)]
pub enum NotAdded<T> {
    /// The range meets a stored one.
    Occupied(AnyRange<T>),
    /// There was not enough memory.
    Memory(AnyRange<T>),
}

impl<T: Measure, C: Storage<Item<AnyRange<T>, ()>>> RangeSet<T, C> {
    /// Adds each key of the range where the range meets no stored one.
    ///
    /// It may touch stored ranges, and becomes one with them, as with `insert`. An empty range
    /// changes nothing. An error hands back the range, and leaves the set as it was. Clones
    /// nothing; allocates where the container has no capacity for one more range. Costs one
    /// search, and a step for each stored range that the range meets or touches.
    ///
    /// ```
    /// // of a set that has no key
    /// assert!(rt; set.try_insert(0..5).is_ok());
    /// assert!(rt; set.try_insert(5..9).is_ok()); // it only touches 0..5
    /// assert!(rt; set.try_insert(8..12).is_err()); // 0..9 is in the way
    /// ```
    pub fn try_insert<R: IntoRange<Item = T>>(&mut self, range: R) -> Result<(), NotAdded<T>>
        ensures occupied { IsErrAnd result IsOccupied
            ↔ (¬ IsEmptyRange T.order (R.range range))
            × MeetsSome T.order (C.items self.old) (R.range range) }
        ensures given { IfErr result (λ e. given_back e ≡ R.range range) }
        ensures added { OnOk result
            (HoldsAlso T.order (C.items self.old) (C.items self.new) (R.range range)) }
        ensures canonical { IsCanonicalSet T.order (C.items self.new) }
        ensures frame { OnOk result (¬ IsEmptyRange T.order (R.range range)
            → IsInsertionFrame T.order (λ _ _. true) (C.items self.old) (C.items self.new)
            (R.range range) tt) }
        ensures meets { OnOk result (¬ IsEmptyRange T.order (R.range range)
            → MeetAlso T.order (C.items self.old) (C.items self.new) (R.range range)) }
        ensures few { length (C.items self.new) ≤ length (C.items self.old) + 1 }
        ensures succeeds { 1 ≤ C.room self.old
            → ¬ MeetsSome T.order (C.items self.old) (R.range range) → IsOk result }
        ensures refused { OnErr result (C.items self.new ≡ C.items self.old) }
        ensures empty { IsEmptyRange T.order (R.range range) → IsOk result }
        ensures empty_unchanged { IsEmptyRange T.order (R.range range)
            → C.items self.new ≡ C.items self.old }
    {
        match self.map.try_insert(range, ()) {
            Ok(()) => Ok(()),
            Err(NotFree::Occupied(range, _)) => Err(NotAdded::Occupied(range)),
            Err(NotFree::Memory(range, _)) => Err(NotAdded::Memory(range)),
        }
    }
}
