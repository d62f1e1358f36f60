//! Changing what the keys of a range are bound to by a closure.
ghost use Rattle.std.specs.Prelude.{◌≡◌, ◌+◌, IfOk, OnOk, OnErr, IsOk, Some, None, Ok, Err};
ghost use Rattle.range_algebra.specs.Clones.{IsBoundClone};
ghost use Rattle.range_algebra.specs.Range.{ClonesAreEqual, IsEmptyRange};
ghost use Rattle.range_runs.specs.Answers.{MayAnswer, MayBeAsked, FailsAt, SucceedsAtFirst, IsUpdated};
ghost use Rattle.range_map.specs.Askable.{MayBeAskedOfEach};
ghost use Rattle.range_runs.specs.Canonical.{IsCanonical};
ghost use Rattle.range_runs.specs.Clones.{ClonesNeverFail};
ghost use Rattle.range_runs.specs.Frames.{IsUpdateFrame};
ghost use Rattle.range_map.specs.Rebinding.{AreRebound};
ghost use Rattle.range_runs.specs.Spelling.{KeepsSpelling};
ghost use Rattle.range_runs.specs.declared.error.UpdateError.TheVariants.{Closure as ClosureError, Memory as MemoryError};

use crate::map::RangeMap;
use range_algebra::any::AnyRange;
use range_algebra::inner::{self, clone_of};
use range_algebra::range::AsRange;
use range_edit::update::update_pieces;
use range_keys::traits::Measure;
use range_runs::error::UpdateError;
use range_store::storage::{Item, Storage};
use std::alloc::AllocError;

/// The range over clones of its keys.
fn clone_range<K: Clone, R: AsRange<Item = K>>(range: &R) -> Result<AnyRange<K>, AllocError>
    ensures start { IfOk result
        (λ copy. IsBoundClone K.is_clone (R.range range.now).start copy.start) }
    ensures end { IfOk result (λ copy. IsBoundClone K.is_clone (R.range range.now).end copy.end) }
    ensures succeeds { ClonesNeverFail K.is_infallible → IsOk result }
{
    let start = clone_of(range.start())?;
    let end = clone_of(range.end())?;
    let range = AnyRange { start, end };
    Ok(range)
}

impl<K: Measure + Clone, V: Eq + Clone, C: Storage<Item<AnyRange<K>, V>>> RangeMap<K, V, C> {
    /// Binds each piece of the range to what the closure returns for what its keys are bound to.
    ///
    /// The closure is called in ascending order: once for each part that the range shares with a
    /// stored range, with its value, and once with `None` for each gap in the range. It returns the
    /// new value, `None` to unbind the keys, or an error; the first error ends the call. The map is
    /// changed only once all calls returned; after an error it is as it was. For an empty range the
    /// closure is not called, and nothing changes. A stored range that the range only touches keeps
    /// its bounds and its value. It becomes one range with the keys beside it where these come to
    /// have an equal value. A range that starts or ends where a stored one did keeps that bound as
    /// it was written: where `0..10` is stored, `update(0..=9, f)` binds `0..10`.
    ///
    /// Allocates a list of what the closure returns, and clones of the bounds of its pieces and of
    /// the stored ranges that are cut. It also allocates where more ranges are stored than the
    /// container has capacity for. Fails with `Memory` where an allocation does: over keys whose
    /// clones never fail, only once the closure returned no error for the first piece. Costs one
    /// search, and a step for each stored range that the range meets or touches.
    ///
    /// ```
    /// // of a map that binds 0..=5 to 1
    /// let filled = |old: Option<&i64>| -> Result<Option<i64>, u8> {
    ///     Ok(Some(old.copied().unwrap_or(7)))
    /// };
    /// assert!(rt; map.update(3..9, filled).is_ok());
    /// assert!(rt; map.get(8).copied() == Some(7)); // 0..=5 is bound to 1 as before
    /// ```
    pub fn update<R: AsRange<Item = K>, E: Drop, F: Fn(Option<&V>) -> Result<Option<V>, E>>(
        &mut self,
        range: R,
        f: F,
    ) -> Result<(), UpdateError<E>>
        requires keys { ClonesAreEqual K.is_clone K.eq }
        requires values { ClonesAreEqual V.is_clone V.eq }
        requires free { MayBeAsked F.Fn f None }
        requires bound { MayBeAskedOfEach F.Fn f (C.items self.old) }
        ensures updated { OnOk result
            (¬ IsEmptyRange K.order (R.range range)
            → IsUpdated K.order V.eq F.Fn f (C.items self.old) (C.items self.new) (R.range range)) }
        ensures rebound { OnOk result
            (AreRebound K.order V.eq (MayAnswer F.Fn f) (C.items self.old) (C.items self.new)
            (R.range range)) }
        ensures kept { OnOk result
            (IsUpdateFrame K.order V.eq (C.items self.old) (C.items self.new) (R.range range)) }
        ensures spelled { OnOk result
            (KeepsSpelling K.order (C.items self.old) (C.items self.new)) }
        ensures canonical { IsCanonical K.order V.eq (C.items self.new) }
        ensures closure { (e : E) → result ≡ Err (ClosureError e)
            → FailsAt K.order V.eq F.Fn f (C.items self.old) (R.range range) e }
        ensures memory { ClonesNeverFail K.is_infallible → result ≡ Err MemoryError
            → SucceedsAtFirst K.order V.eq F.Fn f (C.items self.old) (R.range range) }
        ensures refused { OnErr result (C.items self.new ≡ C.items self.old) }
        ensures empty { IsEmptyRange K.order (R.range range) → IsOk result }
        ensures empty_unchanged { IsEmptyRange K.order (R.range range)
            → C.items self.new ≡ C.items self.old }
    {
        self.in_form();
        inner::known_range(&range);
        if range.is_empty() {
            return Ok(());
        }
        let range = clone_range(&range)?;
        update_pieces(self.alloc, &mut self.stored, range, &f)
    }
}
