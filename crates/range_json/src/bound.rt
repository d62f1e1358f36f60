//! Bounds as JSON values.
ghost use Rattle.std.specs.Prelude.{◌≡◌, ◌⊎◌, Some, None, IfOk, OnOk, IfErr, IsErrOf};
ghost use Rattle.serde_json.specs.Data.{object, member, no_members};
ghost use Rattle.serde_json.specs.View.{view};
ghost use Rattle.range_json.specs.Faults.{IsBoundRead, bound_fault, key_fault};
ghost use Rattle.range_json.specs.Shapes.{bound_shape};
ghost use Rattle.range_json.specs.Values.{IsBoundValue};
ghost use Rattle.range_json.specs.declared.error.JsonError.TheVariants.{Memory};

use crate::error::{JsonError, ReadError};
use crate::json::Json;
use json_trees::JsonTree;
use serde_json::{Map, Value};
use std::alloc::{AllocError, Global};
use std::ops::Bound;

/// An object of one member.
fn object_of(alloc: Global, name: &str, value: Value) -> Result<Value, AllocError>
    ensures { IfOk result (λ v. view v ≡ object (member name.now (view value) no_members)) }
{
    let mut members = Map::new(alloc);
    drop(members.insert(String::from_str(alloc, name)?, value)?);
    Ok(Value::Object(members))
}

/// A bound by its kind and its key.
pub(crate) fn bound_to_json<K: Json>(alloc: Global, bound: &Bound<K>) -> Result<Value, AllocError>
    ensures written { IfOk result (λ v. view v ≡ bound_shape K.shape bound.now) }
    ensures values { OnOk result (IsBoundValue K.is_value bound.now) }
{
    match bound {
        Bound::Included(key) => object_of(alloc, "Included", key.to_json(alloc)?),
        Bound::Excluded(key) => object_of(alloc, "Excluded", key.to_json(alloc)?),
        Bound::Unbounded => Value::try_from_str(alloc, "Unbounded"),
    }
}

/// A key of the element at `index`.
fn key_from_json<K: Json, J: JsonTree>(
    alloc: Global,
    value: &J,
    index: usize,
) -> Result<K, JsonError>
    ensures read { IfOk result (K.is_read (J.content value.now)) }
    ensures sound { OnOk result (key_fault K.reads index (J.content value.now) ≡ None) }
    ensures fault { IfErr result
        (λ e. (e ≡ Memory) ⊎ (key_fault K.reads index (J.content value.now) ≡ Some e)) }
    ensures memory { IsErrOf result Memory → ¬ K.reads_in_place }
{
    match K::from_json(alloc, value) {
        Ok(key) => Ok(key),
        Err(ReadError::Memory) => Err(JsonError::Memory),
        Err(ReadError::Refused) => Err(JsonError::Key(index)),
    }
}

/// A bound of the element at `index`.
pub(crate) fn bound_from_json<K: Json, J: JsonTree>(
    alloc: Global,
    value: &J,
    index: usize,
) -> Result<Bound<K>, JsonError>
    ensures read { IfOk result (IsBoundRead K.is_read (J.content value.now)) }
    ensures sound { OnOk result (bound_fault K.reads index (J.content value.now) ≡ None) }
    ensures fault { IfErr result
        (λ e. (e ≡ Memory) ⊎ (bound_fault K.reads index (J.content value.now) ≡ Some e)) }
    ensures memory { IsErrOf result Memory → ¬ K.reads_in_place }
{
    if let Some(text) = value.as_str() {
        return if text == "Unbounded" {
            Ok(Bound::Unbounded)
        } else {
            Err(JsonError::NotBound(index))
        };
    }
    let Some((kind, key)) = value.only_member() else {
        return Err(JsonError::NotBound(index));
    };
    match kind {
        "Included" => Ok(Bound::Included(key_from_json(alloc, key, index)?)),
        "Excluded" => Ok(Bound::Excluded(key_from_json(alloc, key, index)?)),
        _ => Err(JsonError::NotBound(index)),
    }
}
