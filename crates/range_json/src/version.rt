//! The two shapes of a map: an array, or an object with the number of its version.
ghost use Rattle.std.specs.Prelude.{◌≡◌, Ok, Err, IfOk, IfErr, map, codes, option_and_then};
ghost use Rattle.serde_json.specs.Find.{as_number, as_u64, get};
ghost use Rattle.serde_json.specs.View.{view};
ghost use Rattle.range_json.specs.MapFaults.{map_elements};
ghost use Rattle.range_json.specs.Shapes.{versioned_shape};

use crate::array::elements_of_array;
use crate::error::JsonError;
use json_trees::JsonTree;
use serde_json::{Map, Value};
use std::alloc::{AllocError, Global};

/// The elements, with the number of the version.
pub fn versioned(alloc: Global, elements: Vec<Value>) -> Result<Value, AllocError>
    ensures { IfOk result (λ v. view v ≡ versioned_shape (map view elements.items)) }
{
    let mut members = Map::new(alloc);
    serde_json::put(&mut members, alloc, "items", Value::Array(elements))?;
    serde_json::put(&mut members, alloc, "version", Value::from(2u64))?;
    Ok(Value::Object(members))
}

/// The number of the version, where this is an object that has it.
fn version_of<J: JsonTree>(value: &J) -> Option<u64>
    ensures { result ≡ option_and_then as_u64
        (option_and_then as_number (get (codes "version") (J.content value.now))) }
{
    value.get("version")?.as_u64()
}

/// The elements of a map in either shape.
pub fn elements_of_map<J: JsonTree>(value: &J) -> Result<&[J], JsonError>
    ensures found { IfOk result
        (λ vs. map_elements (J.content value.now) ≡ Ok (map J.content vs.now)) }
    ensures fault { IfErr result (λ e. map_elements (J.content value.now) ≡ Err e) }
{
    let is_known = match value.has_members_among("version", "items") {
        Some(is_known) => is_known,
        None => return elements_of_array(value),
    };
    if version_of(value) != Some(2) || !is_known {
        return Err(JsonError::Version);
    }
    match value.get("items") {
        Some(items) => elements_of_array(items),
        None => Err(JsonError::NotArray),
    }
}
