//! A list of ranges that are in order, and the first that is not.
ghost use Rattle.std.specs.List.{AllByRecursion as Every};
ghost use Rattle.std.specs.Prelude.{◌≡◌, ◌≤◌, ◌↔◌, IfOk, IfSome, IsOk, IsTrue, None, length, map};
ghost use Rattle.std.specs.Option.{option_map};
ghost use Rattle.range_algebra.specs.Range.{IsKeyRange};
ghost use Rattle.range_algebra.specs.Relations.{LiesBefore};
ghost use Rattle.range_bulk.specs.Sorting.{IsFirstFault, IsNext, IsSorted, item_of};
ghost use Rattle.range_runs.specs.Bindings.{BindAlike};
ghost use Rattle.range_runs.specs.Stored.{IsStored};

use crate::append::push;
use range_algebra::any::AnyRange;
use range_algebra::inner;
use range_algebra::range::{AsRange, IntoRange};
use range_keys::bound::Directed;
use range_keys::traits::Measure;
use range_store::storage::Item;
use std::alloc::{AllocError, Global};

/// Whether the first range ends before the second starts.
fn lies_before<K: Measure, R: AsRange<Item = K>>(first: &R, second: &R) -> bool
    ensures { IsTrue result ↔ LiesBefore K.order (R.range first.now) (R.range second.now) }
{
    Directed::End(first.end()) < Directed::Start(second.start())
}

/// Whether the range is nonempty, and lies after the one before it, where there is one.
fn is_next<K: Measure, R: AsRange<Item = K>>(before: Option<&R>, range: &R) -> bool
    ensures next { IsTrue result
        ↔ IsNext K.order (option_map (λ r. R.range r.now) before.entry) (R.range range.now) }
    ensures known { IsKeyRange K.order (R.range range.now) }
{
    inner::known_range(range);
    if range.is_empty() {
        return false;
    }
    match before {
        Some(before) => lies_before::<K, R>(before, range),
        None => true,
    }
}

/// The position of the first range that is empty or does not lie after the one before it.
pub fn first_fault<K: Measure, R: AsRange<Item = K>, V>(pairs: &[(R, V)]) -> Option<usize>
    ensures fault { IfSome result
        (IsFirstFault K.order (map (item_of R.range) pairs.now)) }
    ensures sorted { result ≡ None → IsSorted K.order (map (item_of R.range) pairs.now) }
    ensures known { result ≡ None
        → Every (λ i. IsKeyRange K.order i.key) (map (item_of R.range) pairs.now) }
{
    let mut before = None;
    for index in 0..pairs.len() {
        let range = &pairs[index].0;
        if !is_next::<K, R>(before, range) {
            return Some(index);
        }
        before = Some(range);
    }
    None
}

/// The items that a map of ranges in order stores.
pub fn list_of<K: Measure, V: Eq + Drop, R: IntoRange<Item = K>>(
    alloc: Global,
    pairs: Vec<(R, V)>,
) -> Result<Vec<Item<AnyRange<K>, V>>, AllocError>
    requires sorted { IsSorted K.order (map (item_of R.range) pairs.items) }
    requires known { Every (λ i. IsKeyRange K.order i.key)
        (map (item_of R.range) pairs.items) }
    ensures bound { IfOk result
        (λ new. BindAlike K.order V.eq new.items (map (item_of R.range) pairs.items)) }
    ensures form { IfOk result (λ new. IsStored K.order V.eq new.items) }
    ensures few { IfOk result (λ new. length new.items ≤ length pairs.items) }
    ensures none_needed { length pairs.items ≡ 0 → IsOk result }
{
    let mut items = Vec::with_capacity(alloc, pairs.len())?;
    for (range, value) in pairs {
        let item = Item {
            key: range.into_range(),
            value,
        };
        push(&mut items, item, 0)?;
    }
    Ok(items)
}
