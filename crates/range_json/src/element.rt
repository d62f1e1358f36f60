//! The elements of a map: a range and a value each.
ghost use Rattle.std.specs.Prelude.{◌≡◌, ◌⊎◌, Some, None, IfOk, OnOk, IfErr};
ghost use Rattle.serde_json.specs.View.{view};
ghost use Rattle.range_json.specs.MapFaults.{IsElementRead, element_fault, value_fault};
ghost use Rattle.range_json.specs.Shapes.{pair_shape, range_shape};
ghost use Rattle.range_json.specs.Values.{IsRangeValue};
ghost use Rattle.range_json.specs.declared.error.JsonError.TheVariants.{Memory};

use crate::error::{JsonError, ReadError};
use crate::json::Json;
use crate::range::{element_range, pair, range_to_json};
use json_trees::JsonTree;
use range_algebra::any::AnyRange;
use range_store::storage::Item;
use serde_json::Value;
use std::alloc::{AllocError, Global};

/// The value of the element at `index`.
fn value_from_json<V: Json, J: JsonTree>(
    alloc: Global,
    value: &J,
    index: usize,
) -> Result<V, JsonError>
    ensures read { IfOk result (V.is_read (J.content value.now)) }
    ensures sound { OnOk result (value_fault V.reads index (J.content value.now) ≡ None) }
    ensures fault { IfErr result
        (λ e. (e ≡ Memory) ⊎ (value_fault V.reads index (J.content value.now) ≡ Some e)) }
{
    match V::from_json(alloc, value) {
        Ok(value) => Ok(value),
        Err(ReadError::Memory) => Err(JsonError::Memory),
        Err(ReadError::Refused) => Err(JsonError::Value(index)),
    }
}

/// The range and the value of the element at `index`.
pub fn element_from_json<K: Json, V: Json, J: JsonTree>(
    alloc: Global,
    value: &J,
    index: usize,
) -> Result<Item<AnyRange<K>, V>, JsonError>
    ensures read { IfOk result (IsElementRead K.is_read V.is_read (J.content value.now)) }
    ensures sound { OnOk result (element_fault K.reads V.reads index (J.content value.now) ≡ None) }
    ensures fault { IfErr result
        (λ e. (e ≡ Memory)
        ⊎ (element_fault K.reads V.reads index (J.content value.now) ≡ Some e)) }
{
    match pair(value) {
        Some((range, value)) => Ok(Item {
            key: element_range(alloc, range, index)?,
            value: value_from_json(alloc, value, index)?,
        }),
        None => Err(JsonError::NotPair(index)),
    }
}

/// A range and its value, as an array of two.
pub fn pair_to_json<K: Json, V: Json>(
    alloc: Global,
    range: &AnyRange<K>,
    value: &V,
) -> Result<Value, AllocError>
    ensures written { IfOk result
        (λ v. view v ≡ pair_shape (range_shape K.shape range.now) (V.shape value.now)) }
    ensures values { OnOk result (IsRangeValue K.is_value range.now × V.is_value value.now) }
{
    let mut both = Vec::with_capacity(alloc, 2)?;
    both.push(range_to_json(alloc, range)?)?;
    both.push(value.to_json(alloc)?)?;
    Ok(Value::Array(both))
}
