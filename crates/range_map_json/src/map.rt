//! Maps as JSON values.
ghost use Rattle.std.specs.Prelude.{◌≡◌, ◌⊎◌, IfOk, OnOk, IfErr};
ghost use Rattle.serde_json.specs.View.{view};
ghost use Rattle.range_algebra.specs.Range.{IsEmptyRange, IsKeyRange};
ghost use Rattle.range_runs.specs.Bindings.{IsBoundAfter};
ghost use Rattle.range_runs.specs.Canonical.{IsCanonical};
ghost use Rattle.range_runs.specs.Frames.{IsInsertionFrame};
ghost use Rattle.range_runs.specs.Lookups.{MeetsSome, MeetAlso};
ghost use Rattle.range_json.specs.Shapes.{map_shape};
ghost use Rattle.range_json.specs.MapFaults.{IsMapRead, IsMapFault};
ghost use Rattle.range_json.specs.Values.{AreItemValues};
ghost use Rattle.range_json.specs.declared.error.JsonError.TheVariants.{Memory, Meets};

use range_algebra::any::AnyRange;
use range_algebra::inner;
use range_json::inner::{element_from_json, elements_of_map, pair_to_json, versioned};
use range_json::json::{Json, JsonError, JsonTree};
use range_keys::traits::{Measure, PartialEnum};
use range_map::map::{NotFree, RangeMap};
use range_store::storage::{Item, Storage};
use serde_json::Value;
use std::alloc::{AllocError, Global};

/// Binds the keys of the element at `index`, where its range meets no stored one.
fn insert_element<K: Measure, V: Eq + Drop, C: Storage<Item<AnyRange<K>, V>>>(
    map: &mut RangeMap<K, V, C>,
    item: Item<AnyRange<K>, V>,
    index: usize,
) -> Result<(), JsonError>
    ensures known { IsKeyRange K.order item.key }
    ensures apart { OnOk result
        (¬ ((¬ IsEmptyRange K.order item.key)
        × MeetsSome K.order (C.items map.old) item.key)) }
    ensures bound { OnOk result
        (IsBoundAfter K.order V.eq (C.items map.old) (C.items map.new) item.key item.value) }
    ensures meets { OnOk result
        ((¬ IsEmptyRange K.order item.key)
        → MeetAlso K.order (C.items map.old) (C.items map.new) item.key) }
    ensures frame { OnOk result
        ((¬ IsEmptyRange K.order item.key)
        → IsInsertionFrame K.order V.eq (C.items map.old) (C.items map.new) item.key
        item.value) }
    ensures canonical { IsCanonical K.order V.eq (C.items map.new) }
    ensures empty_unchanged { IsEmptyRange K.order item.key → C.items map.new ≡ C.items map.old }
    ensures met { IfErr result
        (λ e. (e ≡ Memory)
        ⊎ ((e ≡ Meets index)
        × (¬ IsEmptyRange K.order item.key) × MeetsSome K.order (C.items map.old) item.key)) }
{
    let Item { key, value } = item;
    inner::known(&key);
    match map.try_insert(key, value) {
        Ok(()) => Ok(()),
        Err(NotFree::Occupied(_, _)) => Err(JsonError::Meets(index)),
        Err(NotFree::Memory(_, _)) => Err(JsonError::Memory),
    }
}

/// An object with the stored ranges and their values, in order, as the array `items`, and with the
/// number 2 as `version`. Allocates; fails where an allocation fails.
///
/// ```
/// let text = written(rt.alloc())?.to_string(rt.alloc())?; // of a map that binds 0..5 to 1
/// assert!(rt; text.as_str() == r#"{"items":[[[{"Included":0},{"Excluded":5}],1]],"version":2}"#);
/// ```
pub fn map_to_json<K: Json + PartialEnum, V: Json + Eq, C: Storage<Item<AnyRange<K>, V>>>(
    alloc: Global,
    map: &RangeMap<K, V, C>,
) -> Result<Value, AllocError>
    ensures written { IfOk result (λ v. view v ≡ map_shape K.shape V.shape (C.items map.now)) }
    ensures values { OnOk result (AreItemValues K.is_value V.is_value (C.items map.now)) }
{
    let mut written = Vec::with_capacity(alloc, map.range_count())?;
    let mut items = map.iter();
    while let Some((range, value)) = items.next() {
        written.push(pair_to_json(alloc, range, value)?)?;
    }
    versioned(alloc, written)
}

/// A map that binds the keys of each range in the array to the value beside it.
///
/// Reads what `map_to_json` writes, and the bare array of its member `items`. Touching ranges of
/// equal values are kept as one, and empty ranges bind nothing. Clones nothing. Costs an insertion
/// for each element.
///
/// # Errors
///
/// The fault of the first faulty element, with its index, from 0. Its fault is that it is no pair,
/// that its range, a bound, a key or its value is none, or that its range meets that of an earlier
/// element. An empty range meets none. `NotArray` and `Version` where the whole has neither shape.
/// `Memory` where an allocation fails.
pub fn map_from_json<
    K: Json + Measure,
    V: Json + Eq,
    C: Storage<Item<AnyRange<K>, V>>,
    J: JsonTree,
>(alloc: Global, value: &J) -> Result<RangeMap<K, V, C>, JsonError>
    ensures read { IfOk result
        (λ map. IsMapRead K.order K.reads V.reads K.is_read V.is_read V.eq (J.content value.now)
        (C.items map)) }
    ensures canonical { IfOk result (λ map. IsCanonical K.order V.eq (C.items map)) }
    ensures fault { IfErr result
        (λ e. (e ≡ Memory)
        ⊎ IsMapFault K.order K.reads V.reads K.is_read V.is_read (J.content value.now) e) }
{
    let elements = elements_of_map(value)?;
    let mut map = RangeMap::new(alloc);
    for (index, element) in elements.iter().enumerate() {
        let item = element_from_json(alloc, element, index)?;
        insert_element(&mut map, item, index)?;
    }
    Ok(map)
}
