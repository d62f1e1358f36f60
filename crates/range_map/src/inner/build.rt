//! A map made of a list in stored form.
ghost use Rattle.std.specs.Prelude.{◌≡◌, length, IfOk, IsOk};
ghost use Rattle.range_runs.specs.Canonical.{IsCanonical};
ghost use Rattle.range_runs.specs.Stored.{IsStored};

use crate::map::RangeMap;
use range_algebra::any::AnyRange;
use range_keys::traits::PartialEnum;
use range_store::storage::{Item, Storage};
use std::alloc::{AllocError, Global};
use std::marker::PhantomData;

/// A map of just these items.
pub fn map_of<K: PartialEnum, X: Eq + Drop, C: Storage<Item<AnyRange<K>, X>>>(
    alloc: Global,
    items: Vec<Item<AnyRange<K>, X>>,
) -> Result<RangeMap<K, X, C>, AllocError>
    requires { IsStored K.order X.eq items.items }
    ensures items { IfOk result (λ map. C.items map ≡ items.items) }
    ensures canonical { IfOk result (λ map. IsCanonical K.order X.eq (C.items map)) }
    ensures none_needed { length items.items ≡ 0 → IsOk result }
{
    let mut stored = C::new(alloc);
    stored.reserve(items.len())?;
    stored.append(items);
    Ok(RangeMap {
        stored,
        alloc,
        item: PhantomData,
    })
}
