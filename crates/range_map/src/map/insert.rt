//! Binding the keys of a range.
ghost use Rattle.std.specs.Prelude.{◌≡◌, ◌+◌, ◌≤◌, length, OnOk, OnErr, IsOk};
ghost use Rattle.range_algebra.specs.Range.{ClonesAreEqual, IsEmptyRange};
ghost use Rattle.range_runs.specs.Canonical.{IsCanonical};
ghost use Rattle.range_runs.specs.Clones.{ClonesNeverFail};
ghost use Rattle.range_edit.specs.Costs.{TakesAtLeast, TakesAsChange};
ghost use Rattle.range_runs.specs.Frames.{IsInsertionFrame};
ghost use Rattle.range_runs.specs.Bindings.{IsBoundAfter};
ghost use Rattle.range_runs.specs.Lookups.{MeetAlso};

use crate::map::RangeMap;
use range_algebra::any::AnyRange;
use range_algebra::inner;
use range_algebra::range::IntoRange;
use range_edit::bind::{bind, bind_in_order};
use range_edit::error::MapError;
use range_keys::traits::Measure;
use range_store::storage::{Item, Steps, Storage};

impl<K: Measure + Clone, V: Eq + Clone, C: Storage<Item<AnyRange<K>, V>>> RangeMap<K, V, C> {
    /// Binds each key of the range to the value. An empty range changes nothing.
    ///
    /// Allocates where more ranges are stored than the container has capacity for. Clones a bound
    /// or a value where a stored range with another value is cut. After an error the map is as it
    /// was. With room for two ranges more, and clones that never fail, it succeeds. Costs one
    /// search, and a step for each stored range that the range meets or touches. A range before or
    /// after all stored ones costs no search, also where it touches one.
    ///
    /// ```
    /// map.insert(0..=5, 1)?;
    /// map.insert(4, 0)?; // a key alone
    /// ```
    pub fn insert<R: IntoRange<Item = K>>(&mut self, range: R, value: V) -> Result<(), MapError>
        requires keys { ClonesAreEqual K.is_clone K.eq }
        requires values { ClonesAreEqual V.is_clone V.eq }
        ensures bound { OnOk result
            (IsBoundAfter K.order V.eq (C.items self.old) (C.items self.new) (R.range range)
            value) }
        ensures canonical { IsCanonical K.order V.eq (C.items self.new) }
        ensures frame { OnOk result
            (¬ IsEmptyRange K.order (R.range range)
            → IsInsertionFrame K.order V.eq (C.items self.old) (C.items self.new) (R.range range)
            value) }
        ensures meets { OnOk result
            (¬ IsEmptyRange K.order (R.range range)
            → MeetAlso K.order (C.items self.old) (C.items self.new) (R.range range)) }
        ensures few { length (C.items self.new) ≤ length (C.items self.old) + 2 }
        ensures refused { OnErr result (C.items self.new ≡ C.items self.old) }
        ensures succeeds { ClonesNeverFail K.is_infallible → ClonesNeverFail V.is_infallible
            → 2 ≤ C.room self.old → IsOk result }
        ensures empty { IsEmptyRange K.order (R.range range) → IsOk result }
        ensures empty_unchanged { IsEmptyRange K.order (R.range range)
            → C.items self.new ≡ C.items self.old }
    {
        self.in_form();
        let range = range.into_range();
        inner::known(&range);
        if range.is_empty() {
            drop(range);
            return Ok(());
        }
        bind_in_order::<K, V, C>(&mut self.stored, range, value)?;
        Ok(())
    }

    /// Binds each key of the range to the value, as `insert` does; adds the steps that it takes.
    ///
    /// A step is one range that the search asks, or one comparison of the range with a stored one.
    /// An empty range takes none. Allocates and fails as `insert` does.
    ///
    /// ```
    /// let mut steps = Steps::new();
    /// map.insert_counted(0..=5, 1, &mut steps)?;
    /// ```
    pub fn insert_counted<R: IntoRange<Item = K>>(
        &mut self,
        range: R,
        value: V,
        steps: &mut Steps,
    ) -> Result<(), MapError>
        requires keys { ClonesAreEqual K.is_clone K.eq }
        requires values { ClonesAreEqual V.is_clone V.eq }
        ensures bound { OnOk result
            (IsBoundAfter K.order V.eq (C.items self.old) (C.items self.new) (R.range range)
            value) }
        ensures canonical { IsCanonical K.order V.eq (C.items self.new) }
        ensures frame { OnOk result
            (¬ IsEmptyRange K.order (R.range range)
            → IsInsertionFrame K.order V.eq (C.items self.old) (C.items self.new) (R.range range)
            value) }
        ensures meets { OnOk result
            (¬ IsEmptyRange K.order (R.range range)
            → MeetAlso K.order (C.items self.old) (C.items self.new) (R.range range)) }
        ensures few { length (C.items self.new) ≤ length (C.items self.old) + 2 }
        ensures refused { OnErr result (C.items self.new ≡ C.items self.old) }
        ensures succeeds { ClonesNeverFail K.is_infallible → ClonesNeverFail V.is_infallible
            → 2 ≤ C.room self.old → IsOk result }
        ensures empty { IsEmptyRange K.order (R.range range) → IsOk result }
        ensures empty_unchanged { IsEmptyRange K.order (R.range range)
            → C.items self.new ≡ C.items self.old }
        ensures most { OnOk result
            (TakesAsChange steps.old steps.new (C.most_asks self.old) (length (C.items self.old))
            (length (C.items self.new))) }
        ensures least { ¬ IsEmptyRange K.order (R.range range)
            → TakesAtLeast steps.old steps.new (C.least_asks self.old) }
        ensures empty_uncounted { IsEmptyRange K.order (R.range range) → steps.new ≡ steps.old }
    {
        self.in_form();
        let range = range.into_range();
        inner::known(&range);
        if range.is_empty() {
            drop(range);
            return Ok(());
        }
        bind::<K, V, C>(&mut self.stored, range, value, steps)?;
        Ok(())
    }
}
