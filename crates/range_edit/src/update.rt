//! Changing what the keys of a nonempty range are bound to by a closure.
ghost use Rattle.std.specs.List.{AllByRecursion as Every};
ghost use Rattle.std.specs.Prelude.{◌≡◌, OnOk, OnErr, Some, None, Err};
ghost use Rattle.range_algebra.specs.Range.{ClonesAreEqual, IsEmptyRange};
ghost use Rattle.range_runs.specs.Answers.{MayBeAsked, FailsAt, SucceedsAtFirst, IsUpdated};
ghost use Rattle.range_edit.specs.Reach.{IsSurroundedOf};
ghost use Rattle.range_runs.specs.Spelling.{KeepsSpelling};
ghost use Rattle.range_runs.specs.Stored.{IsStored};
ghost use Rattle.range_runs.specs.declared.error.UpdateError.TheVariants.{Closure as ClosureError, Memory as MemoryError};

use crate::bind::bind_inside;
use crate::reach::{Reach, reaching};
use crate::replace::replace;
use crate::unbind::unbind_inside;
use range_algebra::any::AnyRange;
use range_keys::traits::Measure;
use range_runs::answers::gather;
use range_runs::error::UpdateError;
use range_runs::window::{Window, find_window};
use range_store::storage::{Item, Steps, Storage};
use std::alloc::Global;

/// Asks the closure for a range that one stored range surrounds, and does what it returns.
fn update_within<
    K: Measure + Clone,
    V: Eq + Clone,
    E: Drop,
    F: Fn(Option<&V>) -> Result<Option<V>, E>,
    C: Storage<Item<AnyRange<K>, V>>,
>(
    stored: &mut C,
    window: &Window<C::Position>,
    p: C::Position,
    range: AnyRange<K>,
    f: &F,
) -> Result<(), UpdateError<E>>
    requires keys { ClonesAreEqual K.is_clone K.eq }
    requires values { ClonesAreEqual V.is_clone V.eq }
    requires within { IsSurroundedOf K.order V.eq C.is_good C.rank C.items stored.old range
        window.now p }
    requires bound { Every (λ i. MayBeAsked F.Fn f.now (Some i.value)) (C.items stored.old) }
    ensures ok { OnOk result
        (IsUpdated K.order V.eq F.Fn f.now (C.items stored.old) (C.items stored.new) range) }
    ensures spelled { OnOk result
        (KeepsSpelling K.order (C.items stored.old) (C.items stored.new)) }
    ensures form { IsStored K.order V.eq (C.items stored.new) }
    ensures closure { (e : E) → result ≡ Err (ClosureError e)
        → FailsAt K.order V.eq F.Fn f.now (C.items stored.old) range e }
    ensures memory { result ≡ Err MemoryError
        → SucceedsAtFirst K.order V.eq F.Fn f.now (C.items stored.old) range }
    ensures refused { OnErr result (C.items stored.new ≡ C.items stored.old) }
{
    match f(Some(&stored.get(p).value)) {
        Ok(Some(value)) => {
            bind_inside::<K, V, C>(stored, window, p, range, value)?;
            Ok(())
        }
        Ok(None) => {
            unbind_inside::<K, V, C, AnyRange<K>>(stored, window, p, &range)?;
            drop(range);
            Ok(())
        }
        Err(e) => {
            drop(range);
            Err(UpdateError::Closure(e))
        }
    }
}

/// Asks the closure for each piece of a nonempty range, and then does what it returned.
pub fn update_pieces<
    K: Measure + Clone,
    V: Eq + Clone,
    E: Drop,
    F: Fn(Option<&V>) -> Result<Option<V>, E>,
    C: Storage<Item<AnyRange<K>, V>>,
>(alloc: Global, stored: &mut C, range: AnyRange<K>, f: &F) -> Result<(), UpdateError<E>>
    requires keys { ClonesAreEqual K.is_clone K.eq }
    requires values { ClonesAreEqual V.is_clone V.eq }
    requires stored { IsStored K.order V.eq (C.items stored.old) }
    requires nonempty { ¬ IsEmptyRange K.order range }
    requires free { MayBeAsked F.Fn f.now None }
    requires bound { Every (λ i. MayBeAsked F.Fn f.now (Some i.value)) (C.items stored.old) }
    ensures ok { OnOk result
        (IsUpdated K.order V.eq F.Fn f.now (C.items stored.old) (C.items stored.new) range) }
    ensures spelled { OnOk result
        (KeepsSpelling K.order (C.items stored.old) (C.items stored.new)) }
    ensures form { IsStored K.order V.eq (C.items stored.new) }
    ensures closure { (e : E) → result ≡ Err (ClosureError e)
        → FailsAt K.order V.eq F.Fn f.now (C.items stored.old) range e }
    ensures memory { result ≡ Err MemoryError
        → SucceedsAtFirst K.order V.eq F.Fn f.now (C.items stored.old) range }
    ensures refused { OnErr result (C.items stored.new ≡ C.items stored.old) }
{
    let mut steps = Steps::new();
    let window = find_window::<K, V, C, AnyRange<K>>(stored, &range, &mut steps);
    let ends = match reaching::<K, V, C, AnyRange<K>>(stored, window, &range, &mut steps) {
        Reach::Surrounded(window, p) => return update_within(stored, &window, p, range, f),
        Reach::Apart(ends) => ends,
    };
    let middle = gather(alloc, stored, &ends.window, &range, f)?;
    replace::<K, V, C>(stored, &ends, range, middle)?;
    Ok(())
}
