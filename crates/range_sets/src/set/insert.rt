//! Adding the keys of a range.
ghost use Rattle.std.specs.Prelude.{◌≡◌, ◌+◌, ◌≤◌, true, length, IsOk, OnOk, OnErr};
ghost use Rattle.range_algebra.specs.Range.{ClonesAreEqual, IsEmptyRange};
ghost use Rattle.range_runs.specs.Clones.{ClonesNeverFail};
ghost use Rattle.range_edit.specs.Costs.{TakesAtLeast, TakesAsChange};
ghost use Rattle.range_runs.specs.Frames.{IsInsertionFrame};
ghost use Rattle.range_runs.specs.Lookups.{MeetAlso};
ghost use Rattle.range_set_extend.specs.KeySets.{HoldsAlso, IsCanonicalSet};

use super::RangeSet;
use range_algebra::any::AnyRange;
use range_algebra::range::IntoRange;
use range_keys::traits::Measure;
use range_map::map::MapError;
use range_store::storage::{Item, Steps, Storage};

impl<T: Measure + Clone, C: Storage<Item<AnyRange<T>, ()>>> RangeSet<T, C> {
    /// Adds each key of the range. An empty range changes nothing.
    ///
    /// Allocates where one range more is stored and the container has no capacity for it. After an
    /// error the set is as it was. Costs one search, and a step for each stored range that the
    /// range meets or touches. A range before or after all stored ones that touches none costs no
    /// search.
    ///
    /// ```
    /// set.insert(0..=5)?;
    /// ```
    pub fn insert<R: IntoRange<Item = T>>(&mut self, range: R) -> Result<(), MapError>
        requires { ClonesAreEqual T.is_clone T.eq }
        ensures added { OnOk result
            (HoldsAlso T.order (C.items self.old) (C.items self.new) (R.range range)) }
        ensures canonical { IsCanonicalSet T.order (C.items self.new) }
        ensures frame { OnOk result (¬ IsEmptyRange T.order (R.range range)
            → IsInsertionFrame T.order (λ _ _. true) (C.items self.old) (C.items self.new)
            (R.range range) tt) }
        ensures meets { OnOk result (¬ IsEmptyRange T.order (R.range range)
            → MeetAlso T.order (C.items self.old) (C.items self.new) (R.range range)) }
        ensures few { length (C.items self.new) ≤ length (C.items self.old) + 1 }

        ensures refused { OnErr result (C.items self.new ≡ C.items self.old) }
        ensures succeeds { ClonesNeverFail T.is_infallible → 2 ≤ C.room self.old → IsOk result }
        ensures empty { IsEmptyRange T.order (R.range range) → IsOk result }
        ensures empty_unchanged { IsEmptyRange T.order (R.range range)
            → C.items self.new ≡ C.items self.old }
    {
        self.map.insert(range, ())
    }

    /// Adds each key of the range, as `insert` does; adds the steps that it takes.
    ///
    /// A step is one range that the search asks, or one comparison of the range with a stored one.
    /// An empty range takes none. Allocates and fails as `insert` does.
    ///
    /// ```
    /// let mut steps = Steps::new();
    /// set.insert_counted(2..4, &mut steps)?; // 0..6 is stored
    /// ```
    pub fn insert_counted<R: IntoRange<Item = T>>(
        &mut self,
        range: R,
        steps: &mut Steps,
    ) -> Result<(), MapError>
        requires { ClonesAreEqual T.is_clone T.eq }
        ensures added { OnOk result
            (HoldsAlso T.order (C.items self.old) (C.items self.new) (R.range range)) }
        ensures canonical { IsCanonicalSet T.order (C.items self.new) }
        ensures frame { OnOk result (¬ IsEmptyRange T.order (R.range range)
            → IsInsertionFrame T.order (λ _ _. true) (C.items self.old) (C.items self.new)
            (R.range range) tt) }
        ensures meets { OnOk result (¬ IsEmptyRange T.order (R.range range)
            → MeetAlso T.order (C.items self.old) (C.items self.new) (R.range range)) }
        ensures few { length (C.items self.new) ≤ length (C.items self.old) + 1 }

        ensures refused { OnErr result (C.items self.new ≡ C.items self.old) }
        ensures succeeds { ClonesNeverFail T.is_infallible → 2 ≤ C.room self.old → IsOk result }
        ensures empty { IsEmptyRange T.order (R.range range) → IsOk result }
        ensures empty_unchanged { IsEmptyRange T.order (R.range range)
            → C.items self.new ≡ C.items self.old }
        ensures most { OnOk result
            (TakesAsChange steps.old steps.new (C.most_asks self.old) (length (C.items self.old))
            (length (C.items self.new))) }
        ensures least { ¬ IsEmptyRange T.order (R.range range)
            → TakesAtLeast steps.old steps.new (C.least_asks self.old) }
        ensures empty_uncounted { IsEmptyRange T.order (R.range range) → steps.new ≡ steps.old }
    {
        self.map.insert_counted(range, (), steps)
    }
}
