//! Arrays of elements.
ghost use Rattle.std.specs.Prelude.{◌≡◌, Some, None, IfOk, IfErr, map};
ghost use Rattle.range_json.specs.Shapes.{elements_of};
ghost use Rattle.range_json.specs.declared.error.JsonError.TheVariants.{NotArray};

use crate::error::JsonError;
use json_trees::JsonTree;

/// The elements of an array.
pub fn elements_of_array<J: JsonTree>(value: &J) -> Result<&[J], JsonError>
    ensures found { IfOk result (λ vs. elements_of (J.content value.now) ≡ Some (map J.content vs.now)) }
    ensures fault { IfErr result
        (λ e. (e ≡ NotArray) × (elements_of (J.content value.now) ≡ None)) }
{
    match value.as_array() {
        Some(elements) => Ok(elements),
        None => Err(JsonError::NotArray),
    }
}
