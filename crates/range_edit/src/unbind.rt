//! Unbinding a nonempty range in a container.
ghost use Rattle.std.specs.List.{AllByRecursion as Every};
ghost use Rattle.std.specs.Prelude.{◌≡◌, ◌+◌, ◌*◌, ◌≤◌, ◌<◌, length, None, OnOk, OnErr, IsOk};
ghost use Rattle.range_algebra.specs.Range.{ClonesAreEqual, IsEmptyRange};
ghost use Rattle.range_store.specs.Counting.{AddsSteps};
ghost use Rattle.range_runs.specs.Bindings.{IsUnboundAfter};
ghost use Rattle.range_runs.specs.Clones.{ClonesNeverFail};
ghost use Rattle.range_runs.specs.Stored.{IsStored};
ghost use Rattle.range_runs.specs.Window.{IsWindowOf};
ghost use Rattle.range_edit.specs.Reach.{AreEndsOf, IsSurroundedOf};
ghost use Rattle.range_runs.specs.Lookups.{Overlap};
ghost use Rattle.range_edit.specs.Costs.{TakesAtLeast, TakesAsChange};
ghost use Rattle.range_edit.specs.Changes.{IsRemoved};

use crate::borders::{Joins, Sides, run_length, seam_at};
use crate::cut::prepare_parts;
use crate::reach::{Ends, Reach, reaching, run_start};
use crate::splice::{change, divide};
use range_algebra::any::AnyRange;
use range_algebra::inner;
use range_algebra::range::AsRange;
use range_keys::traits::Measure;
use range_runs::window::{Window, find_window};
use range_store::inner::cursor::{Cursor, remove_rest};
use range_store::storage::{Item, Steps, Storage};
use std::alloc::AllocError;

/// Unbinds a range that lies within one stored range, which becomes two.
pub fn unbind_inside<
    K: Measure + Clone,
    V: Eq + Clone,
    C: Storage<Item<AnyRange<K>, V>>,
    R: AsRange<Item = K>,
>(stored: &mut C, window: &Window<C::Position>, p: C::Position, range: &R) -> Result<(), AllocError>
    requires keys { ClonesAreEqual K.is_clone K.eq }
    requires values { ClonesAreEqual V.is_clone V.eq }
    requires within { IsSurroundedOf K.order V.eq C.is_good C.rank C.items stored.old
        (R.range range.now) window.now p }
    ensures ok { OnOk result
        (IsRemoved K.order V.eq (C.items stored.old) (C.items stored.new) (R.range range.now)) }
    ensures few { OnOk result (length (C.items stored.new) ≤ length (C.items stored.old) + 1) }
    ensures refused { OnErr result (C.items stored.new ≡ C.items stored.old) }
    ensures space { C.room stored.old + length (C.items stored.old)
        ≤ C.room stored.new + length (C.items stored.new) }
    ensures succeeds { ClonesNeverFail K.is_infallible → ClonesNeverFail V.is_infallible
        → 1 ≤ C.room stored.old → IsOk result }
{
    let parts = prepare_parts::<K, V, C>(stored, p, range.start(), range.end(), 1)?;
    divide::<K, V, C>(stored, p, parts, None, window.after);
    Ok(())
}

/// Unbinds a range that meets stored ranges of which none reaches out of it: takes these out.
fn unbind_whole<K: Measure, V: Eq + Drop, C: Storage<Item<AnyRange<K>, V>>, R: AsRange<Item = K>>(
    stored: &mut C,
    ends: &Ends<C::Position>,
    range: &R,
)
    requires ends { AreEndsOf K.order V.eq C.is_good C.rank C.items stored.old (R.range range.now)
        ends.now }
    requires some { 0 < ends.now.window.count }
    requires first { ends.now.first ≡ None }
    requires last { ends.now.last ≡ None }
    ensures removed { IsRemoved K.order V.eq (C.items stored.old) (C.items stored.new)
        (R.range range.now) }
    ensures few { length (C.items stored.new) + ends.now.window.count
        ≡ length (C.items stored.old) }
    ensures space { C.room stored.old + length (C.items stored.old)
        ≤ C.room stored.new + length (C.items stored.new) }
{
    let run = Cursor {
        at: ends.window.from,
        left: ends.window.count,
    };
    remove_rest::<Item<AnyRange<K>, V>, C>(stored, run);
}

/// Unbinds a range that meets a stored range and is surrounded by none.
fn unbind_cutting<
    K: Measure + Clone,
    V: Eq + Drop,
    C: Storage<Item<AnyRange<K>, V>>,
    R: AsRange<Item = K>,
>(stored: &mut C, ends: &Ends<C::Position>, range: &R) -> Result<(), AllocError>
    requires keys { ClonesAreEqual K.is_clone K.eq }
    requires ends { AreEndsOf K.order V.eq C.is_good C.rank C.items stored.old (R.range range.now)
        ends.now }
    requires some { 0 < ends.now.window.count }
    ensures ok { OnOk result
        (IsRemoved K.order V.eq (C.items stored.old) (C.items stored.new) (R.range range.now)) }
    ensures few { OnOk result
        (2 * length (C.items stored.new) + ends.now.window.count
        ≤ 2 * length (C.items stored.old) + 3) }
    ensures refused { OnErr result (C.items stored.new ≡ C.items stored.old) }
    ensures space { C.room stored.old + length (C.items stored.old)
        ≤ C.room stored.new + length (C.items stored.new) }
    ensures succeeds { ClonesNeverFail K.is_infallible → IsOk result }
{
    let left = seam_at(None, ends.first, range.start())?;
    let right = seam_at(None, ends.last, range.end())?;
    let joins = Joins {
        before: None,
        after: None,
    };
    let run = Cursor {
        at: run_start::<K, V, C>(stored, ends, None),
        left: run_length(ends, &joins),
    };
    change::<K, V, C>(stored, Sides { left, right, run }, None);
    Ok(())
}

/// Unbinds a range that meets a stored range.
fn unbind_met<
    K: Measure + Clone,
    V: Eq + Clone,
    C: Storage<Item<AnyRange<K>, V>>,
    R: AsRange<Item = K>,
>(
    stored: &mut C,
    window: Window<C::Position>,
    range: &R,
    steps: &mut Steps,
) -> Result<(), AllocError>
    requires keys { ClonesAreEqual K.is_clone K.eq }
    requires values { ClonesAreEqual V.is_clone V.eq }
    requires window { IsWindowOf K.order V.eq C.is_good C.rank C.items stored.old
        (R.range range.now) window }
    requires some { 0 < window.count }
    ensures ok { OnOk result
        (IsRemoved K.order V.eq (C.items stored.old) (C.items stored.new) (R.range range.now)) }
    ensures few { OnOk result
        (2 * length (C.items stored.new) + window.count ≤ 2 * length (C.items stored.old) + 3) }
    ensures counted { AddsSteps steps.old steps.new 0 2 }
    ensures refused { OnErr result (C.items stored.new ≡ C.items stored.old) }
    ensures space { C.room stored.old + length (C.items stored.old)
        ≤ C.room stored.new + length (C.items stored.new) }
    ensures succeeds { ClonesNeverFail K.is_infallible → ClonesNeverFail V.is_infallible
        → 1 ≤ C.room stored.old → IsOk result }
{
    let ends = match reaching::<K, V, C, R>(stored, window, range, steps) {
        Reach::Surrounded(window, p) => {
            return unbind_inside::<K, V, C, R>(stored, &window, p, range);
        }
        Reach::Apart(ends) => ends,
    };
    if ends.first.is_none() && ends.last.is_none() {
        unbind_whole::<K, V, C, R>(stored, &ends, range);
        return Ok(());
    }
    unbind_cutting::<K, V, C, R>(stored, &ends, range)
}

/// Binds no key of a nonempty range.
pub fn unbind<
    K: Measure + Clone,
    V: Eq + Clone,
    C: Storage<Item<AnyRange<K>, V>>,
    R: AsRange<Item = K>,
>(stored: &mut C, range: &R, steps: &mut Steps) -> Result<(), AllocError>
    requires keys { ClonesAreEqual K.is_clone K.eq }
    requires values { ClonesAreEqual V.is_clone V.eq }
    requires stored { IsStored K.order V.eq (C.items stored.old) }
    requires nonempty { ¬ IsEmptyRange K.order (R.range range.now) }
    ensures ok { OnOk result
        (IsRemoved K.order V.eq (C.items stored.old) (C.items stored.new) (R.range range.now)) }
    ensures most { OnOk result
        (TakesAsChange steps.old steps.new (C.most_asks stored.old) (length (C.items stored.old))
        (length (C.items stored.new))) }
    ensures least { TakesAtLeast steps.old steps.new (C.least_asks stored.old) }
    ensures refused { OnErr result (C.items stored.new ≡ C.items stored.old) }
    ensures space { C.room stored.old + length (C.items stored.old)
        ≤ C.room stored.new + length (C.items stored.new) }
    ensures succeeds { ClonesNeverFail K.is_infallible → ClonesNeverFail V.is_infallible
        → 1 ≤ C.room stored.old → IsOk result }
    ensures unmet { Every (λ i. ¬ Overlap K.order i.key (R.range range.now)) (C.items stored.old)
        → IsOk result }
    ensures unmet_unchanged { Every (λ i. ¬ Overlap K.order i.key (R.range range.now))
        (C.items stored.old) → C.items stored.new ≡ C.items stored.old }
{
    let window = find_window::<K, V, C, R>(stored, range, steps);
    if window.count == 0 {
        return Ok(());
    }
    unbind_met::<K, V, C, R>(stored, window, range, steps)
}

/// Binds no key of the range. An empty range changes nothing, and takes no step.
pub fn unbind_any<
    K: Measure + Clone,
    V: Eq + Clone,
    C: Storage<Item<AnyRange<K>, V>>,
    R: AsRange<Item = K>,
>(stored: &mut C, range: &R, steps: &mut Steps) -> Result<(), AllocError>
    requires keys { ClonesAreEqual K.is_clone K.eq }
    requires values { ClonesAreEqual V.is_clone V.eq }
    requires stored { IsStored K.order V.eq (C.items stored.old) }
    ensures removed { OnOk result
        (¬ IsEmptyRange K.order (R.range range.now)
        → IsRemoved K.order V.eq (C.items stored.old) (C.items stored.new) (R.range range.now)) }
    ensures unbound { OnOk result
        (IsUnboundAfter K.order V.eq (C.items stored.old) (C.items stored.new)
        (R.range range.now)) }
    ensures form { IsStored K.order V.eq (C.items stored.new) }
    ensures few { length (C.items stored.new) ≤ length (C.items stored.old) + 1 }
    ensures most { OnOk result
        (TakesAsChange steps.old steps.new (C.most_asks stored.old) (length (C.items stored.old))
        (length (C.items stored.new))) }
    ensures least { ¬ IsEmptyRange K.order (R.range range.now)
        → TakesAtLeast steps.old steps.new (C.least_asks stored.old) }
    ensures refused { OnErr result (C.items stored.new ≡ C.items stored.old) }
    ensures space { C.room stored.old + length (C.items stored.old)
        ≤ C.room stored.new + length (C.items stored.new) }
    ensures succeeds { ClonesNeverFail K.is_infallible → ClonesNeverFail V.is_infallible
        → 1 ≤ C.room stored.old → IsOk result }
    ensures unmet { Every (λ i. ¬ Overlap K.order i.key (R.range range.now)) (C.items stored.old)
        → IsOk result }
    ensures unmet_unchanged { Every (λ i. ¬ Overlap K.order i.key (R.range range.now))
        (C.items stored.old) → C.items stored.new ≡ C.items stored.old }
    ensures empty { IsEmptyRange K.order (R.range range.now) → IsOk result }
    ensures empty_unchanged { IsEmptyRange K.order (R.range range.now)
        → C.items stored.new ≡ C.items stored.old }
    ensures empty_uncounted { IsEmptyRange K.order (R.range range.now) → steps.new ≡ steps.old }
{
    inner::known_range(range);
    if range.is_empty() {
        return Ok(());
    }
    unbind::<K, V, C, R>(stored, range, steps)?;
    Ok(())
}
