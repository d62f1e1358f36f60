//! Taking the keys of a range away.
ghost use Rattle.std.specs.List.{AllByRecursion as Every};
ghost use Rattle.std.specs.Prelude.{◌≡◌, ◌+◌, ◌≤◌, true, length, IsOk, OnOk, OnErr};
ghost use Rattle.range_algebra.specs.Range.{ClonesAreEqual, IsEmptyRange};
ghost use Rattle.range_runs.specs.Clones.{ClonesNeverFail};
ghost use Rattle.range_edit.specs.Costs.{TakesAtLeast, TakesAsChange};
ghost use Rattle.range_runs.specs.Frames.{IsRemovalFrame};
ghost use Rattle.range_runs.specs.Lookups.{Overlap};
ghost use Rattle.range_set_extend.specs.KeySets.{HoldsWithout, IsCanonicalSet};

use super::RangeSet;
use range_algebra::any::AnyRange;
use range_algebra::range::AsRange;
use range_keys::traits::Measure;
use range_map::map::MapError;
use range_store::storage::{Item, Steps, Storage};

impl<T: Measure + Clone, C: Storage<Item<AnyRange<T>, ()>>> RangeSet<T, C> {
    /// Takes each key of the range away. An empty range, and one that meets no stored range, change
    /// nothing.
    ///
    /// Allocates a clone of each bound at which it cuts a stored range, and what the
    /// container needs where one stored range becomes two. After an error the set is as it was.
    /// Costs one search, and a step for each stored range that the range meets.
    ///
    /// ```
    /// set.extend([0..10, 20..30, 10..15])?; // 0..15 and 20..30 are stored
    /// set.remove(3u8)?;
    /// assert!(rt; set.len() == 24);
    /// ```
    pub fn remove<R: AsRange<Item = T>>(&mut self, range: R) -> Result<(), MapError>
        requires { ClonesAreEqual T.is_clone T.eq }
        ensures removed { OnOk result
            (HoldsWithout T.order (C.items self.old) (C.items self.new) (R.range range)) }
        ensures canonical { IsCanonicalSet T.order (C.items self.new) }
        ensures apart { OnOk result (¬ IsEmptyRange T.order (R.range range)
            → Every (λ i. ¬ Overlap T.order i.key (R.range range)) (C.items self.new)) }
        ensures frame { OnOk result (¬ IsEmptyRange T.order (R.range range)
            → IsRemovalFrame T.order (λ _ _. true) (C.items self.old) (C.items self.new)
            (R.range range)) }
        ensures few { length (C.items self.new) ≤ length (C.items self.old) + 1 }

        ensures refused { OnErr result (C.items self.new ≡ C.items self.old) }
        ensures space { C.room self.old + length (C.items self.old)
            ≤ C.room self.new + length (C.items self.new) }
        ensures succeeds { ClonesNeverFail T.is_infallible → 1 ≤ C.room self.old → IsOk result }
        ensures empty { IsEmptyRange T.order (R.range range) → IsOk result }
        ensures empty_unchanged { IsEmptyRange T.order (R.range range)
            → C.items self.new ≡ C.items self.old }
        ensures unmet { Every (λ i. ¬ Overlap T.order i.key (R.range range)) (C.items self.old)
            → IsOk result }
        ensures unmet_unchanged { Every (λ i. ¬ Overlap T.order i.key (R.range range))
            (C.items self.old) → C.items self.new ≡ C.items self.old }
    {
        let mut steps = Steps::new();
        self.remove_counted(range, &mut steps)
    }

    /// Takes each key of the range away, as `remove` does; adds the steps that it takes.
    ///
    /// A step is one range that the search asks, or one comparison of the range with a stored one.
    /// An empty range takes none. Allocates and fails as `remove` does.
    ///
    /// ```
    /// let mut steps = Steps::new();
    /// set.insert_counted(2..4, &mut steps)?; // 0..6 is stored
    /// set.remove_counted(4, &mut steps)?;
    /// ```
    pub fn remove_counted<R: AsRange<Item = T>>(
        &mut self,
        range: R,
        steps: &mut Steps,
    ) -> Result<(), MapError>
        requires { ClonesAreEqual T.is_clone T.eq }
        ensures removed { OnOk result
            (HoldsWithout T.order (C.items self.old) (C.items self.new) (R.range range)) }
        ensures canonical { IsCanonicalSet T.order (C.items self.new) }
        ensures apart { OnOk result (¬ IsEmptyRange T.order (R.range range)
            → Every (λ i. ¬ Overlap T.order i.key (R.range range)) (C.items self.new)) }
        ensures frame { OnOk result (¬ IsEmptyRange T.order (R.range range)
            → IsRemovalFrame T.order (λ _ _. true) (C.items self.old) (C.items self.new)
            (R.range range)) }
        ensures few { length (C.items self.new) ≤ length (C.items self.old) + 1 }

        ensures refused { OnErr result (C.items self.new ≡ C.items self.old) }
        ensures space { C.room self.old + length (C.items self.old)
            ≤ C.room self.new + length (C.items self.new) }
        ensures succeeds { ClonesNeverFail T.is_infallible → 1 ≤ C.room self.old → IsOk result }
        ensures empty { IsEmptyRange T.order (R.range range) → IsOk result }
        ensures empty_unchanged { IsEmptyRange T.order (R.range range)
            → C.items self.new ≡ C.items self.old }
        ensures unmet { Every (λ i. ¬ Overlap T.order i.key (R.range range)) (C.items self.old)
            → IsOk result }
        ensures unmet_unchanged { Every (λ i. ¬ Overlap T.order i.key (R.range range))
            (C.items self.old) → C.items self.new ≡ C.items self.old }
        ensures most { OnOk result
            (TakesAsChange steps.old steps.new (C.most_asks self.old) (length (C.items self.old))
            (length (C.items self.new))) }
        ensures least { ¬ IsEmptyRange T.order (R.range range)
            → TakesAtLeast steps.old steps.new (C.least_asks self.old) }
        ensures empty_uncounted { IsEmptyRange T.order (R.range range) → steps.new ≡ steps.old }
    {
        self.map.remove_counted(range, steps)
    }
}
