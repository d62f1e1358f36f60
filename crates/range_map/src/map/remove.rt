//! Unbinding the keys of a range.
ghost use Rattle.std.specs.List.{AllByRecursion as Every};
ghost use Rattle.std.specs.Prelude.{◌≡◌, ◌+◌, ◌≤◌, length, OnOk, OnErr, IsOk};
ghost use Rattle.range_algebra.specs.Range.{ClonesAreEqual, IsEmptyRange};
ghost use Rattle.range_runs.specs.Canonical.{IsCanonical};
ghost use Rattle.range_runs.specs.Clones.{ClonesNeverFail};
ghost use Rattle.range_runs.specs.Lookups.{Overlap};
ghost use Rattle.range_edit.specs.Costs.{TakesAtLeast, TakesAsChange};
ghost use Rattle.range_runs.specs.Frames.{IsRemovalFrame};
ghost use Rattle.range_runs.specs.Bindings.{IsUnboundAfter};

use crate::map::RangeMap;
use range_algebra::any::AnyRange;
use range_algebra::range::AsRange;
use range_edit::error::MapError;
use range_edit::unbind::unbind_any;
use range_keys::traits::Measure;
use range_store::storage::{Item, Steps, Storage};

impl<K: Measure + Clone, V: Eq + Clone, C: Storage<Item<AnyRange<K>, V>>> RangeMap<K, V, C> {
    /// Binds no key of the range. An empty range, and one that meets no stored range, change
    /// nothing.
    ///
    /// Allocates a clone of each bound at which it cuts a stored range; and where one stored
    /// range becomes two, a clone of its value and what the container needs. Gives no capacity
    /// back; with room for one range more, and clones that never fail, it succeeds. After an error
    /// the map is as it was. Costs one search, and a step for each stored range that the range meets.
    ///
    /// ```
    /// map.remove(1..9)?;
    /// assert!(rt; map.intersects(9..) && !map.intersects(1..9) && map.get(1).is_none());
    /// ```
    pub fn remove<R: AsRange<Item = K>>(&mut self, range: R) -> Result<(), MapError>
        requires keys { ClonesAreEqual K.is_clone K.eq }
        requires values { ClonesAreEqual V.is_clone V.eq }
        ensures unbound { OnOk result
            (IsUnboundAfter K.order V.eq (C.items self.old) (C.items self.new) (R.range range)) }
        ensures canonical { IsCanonical K.order V.eq (C.items self.new) }
        ensures apart { OnOk result
            (¬ IsEmptyRange K.order (R.range range)
            → Every (λ i. ¬ Overlap K.order i.key (R.range range)) (C.items self.new)) }
        ensures frame { OnOk result
            (¬ IsEmptyRange K.order (R.range range)
            → IsRemovalFrame K.order V.eq (C.items self.old) (C.items self.new) (R.range range)) }
        ensures few { length (C.items self.new) ≤ length (C.items self.old) + 1 }
        ensures refused { OnErr result (C.items self.new ≡ C.items self.old) }
        ensures space { C.room self.old + length (C.items self.old)
            ≤ C.room self.new + length (C.items self.new) }
        ensures succeeds { ClonesNeverFail K.is_infallible → ClonesNeverFail V.is_infallible
            → 1 ≤ C.room self.old → IsOk result }
        ensures empty { IsEmptyRange K.order (R.range range) → IsOk result }
        ensures empty_unchanged { IsEmptyRange K.order (R.range range)
            → C.items self.new ≡ C.items self.old }
        ensures unmet { Every (λ i. ¬ Overlap K.order i.key (R.range range)) (C.items self.old)
            → IsOk result }
        ensures unmet_unchanged { Every (λ i. ¬ Overlap K.order i.key (R.range range))
            (C.items self.old) → C.items self.new ≡ C.items self.old }
    {
        let mut steps = Steps::new();
        self.remove_counted(range, &mut steps)
    }

    /// Binds no key of the range, as `remove` does; adds the steps that it takes.
    ///
    /// A step is one range that the search asks, or one comparison of the range with a stored one.
    /// An empty range takes none. Allocates and fails as `remove` does.
    ///
    /// ```
    /// let mut steps = Steps::new();
    /// map.insert_counted(0..=5, 1, &mut steps)?;
    /// map.remove_counted(4, &mut steps)?;
    /// ```
    pub fn remove_counted<R: AsRange<Item = K>>(
        &mut self,
        range: R,
        steps: &mut Steps,
    ) -> Result<(), MapError>
        requires keys { ClonesAreEqual K.is_clone K.eq }
        requires values { ClonesAreEqual V.is_clone V.eq }
        ensures unbound { OnOk result
            (IsUnboundAfter K.order V.eq (C.items self.old) (C.items self.new) (R.range range)) }
        ensures canonical { IsCanonical K.order V.eq (C.items self.new) }
        ensures apart { OnOk result
            (¬ IsEmptyRange K.order (R.range range)
            → Every (λ i. ¬ Overlap K.order i.key (R.range range)) (C.items self.new)) }
        ensures frame { OnOk result
            (¬ IsEmptyRange K.order (R.range range)
            → IsRemovalFrame K.order V.eq (C.items self.old) (C.items self.new) (R.range range)) }
        ensures few { length (C.items self.new) ≤ length (C.items self.old) + 1 }
        ensures refused { OnErr result (C.items self.new ≡ C.items self.old) }
        ensures space { C.room self.old + length (C.items self.old)
            ≤ C.room self.new + length (C.items self.new) }
        ensures succeeds { ClonesNeverFail K.is_infallible → ClonesNeverFail V.is_infallible
            → 1 ≤ C.room self.old → IsOk result }
        ensures empty { IsEmptyRange K.order (R.range range) → IsOk result }
        ensures empty_unchanged { IsEmptyRange K.order (R.range range)
            → C.items self.new ≡ C.items self.old }
        ensures unmet { Every (λ i. ¬ Overlap K.order i.key (R.range range)) (C.items self.old)
            → IsOk result }
        ensures unmet_unchanged { Every (λ i. ¬ Overlap K.order i.key (R.range range))
            (C.items self.old) → C.items self.new ≡ C.items self.old }
        ensures most { OnOk result
            (TakesAsChange steps.old steps.new (C.most_asks self.old) (length (C.items self.old))
            (length (C.items self.new))) }
        ensures least { ¬ IsEmptyRange K.order (R.range range)
            → TakesAtLeast steps.old steps.new (C.least_asks self.old) }
        ensures empty_uncounted { IsEmptyRange K.order (R.range range) → steps.new ≡ steps.old }
    {
        self.in_form();
        unbind_any::<K, V, C, R>(&mut self.stored, &range, steps)?;
        Ok(())
    }
}
