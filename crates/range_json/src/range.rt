//! Ranges as JSON values.
ghost use Rattle.std.specs.Prelude.{◌≡◌, ◌⊎◌, Some, None, option_map, IfOk, OnOk, IfErr, IsErrOf};
ghost use Rattle.serde_json.specs.View.{view};
ghost use Rattle.range_json.specs.Shapes.{range_shape, pair_of};
ghost use Rattle.range_json.specs.Faults.{IsRangeRead, range_fault};
ghost use Rattle.range_json.specs.Values.{IsRangeValue};
ghost use Rattle.range_json.specs.declared.error.JsonError.TheVariants.{Memory};

use crate::bound::{bound_from_json, bound_to_json};
use crate::error::JsonError;
use crate::json::Json;
use json_trees::JsonTree;
use range_algebra::any::AnyRange;
use serde_json::Value;
use std::alloc::{AllocError, Global};

/// The range as an array of its start and its end, as they are stored. Allocates; fails where an
/// allocation fails.
pub fn range_to_json<K: Json>(alloc: Global, range: &AnyRange<K>) -> Result<Value, AllocError>
    ensures written { IfOk result (λ v. view v ≡ range_shape K.shape range.now) }
    ensures values { OnOk result (IsRangeValue K.is_value range.now) }
{
    let mut ends = Vec::with_capacity(alloc, 2)?;
    ends.push(bound_to_json(alloc, &range.start)?)?;
    ends.push(bound_to_json(alloc, &range.end)?)?;
    Ok(Value::Array(ends))
}

/// The two elements of an array of two.
pub(crate) fn pair<J: JsonTree>(value: &J) -> Option<(&J, &J)>
    ensures { option_map (λ p. (J.content p.0.now, J.content p.1.now)) result
        ≡ pair_of (J.content value.now) }
{
    let mut elements = value.as_array()?.iter();
    match (elements.next(), elements.next(), elements.next()) {
        (Some(first), Some(second), None) => Some((first, second)),
        _ => None,
    }
}

/// The range of the element at `index`.
pub fn element_range<K: Json, J: JsonTree>(
    alloc: Global,
    value: &J,
    index: usize,
) -> Result<AnyRange<K>, JsonError>
    ensures read { IfOk result (IsRangeRead K.is_read (J.content value.now)) }
    ensures sound { OnOk result (range_fault K.reads index (J.content value.now) ≡ None) }
    ensures fault { IfErr result
        (λ e. (e ≡ Memory) ⊎ (range_fault K.reads index (J.content value.now) ≡ Some e)) }
    ensures memory { IsErrOf result Memory → ¬ K.reads_in_place }
{
    match pair(value) {
        Some((start, end)) => Ok(AnyRange {
            start: bound_from_json(alloc, start, index)?,
            end: bound_from_json(alloc, end, index)?,
        }),
        None => Err(JsonError::NotRange(index)),
    }
}

/// The range with the bounds in an array of two.
///
/// # Errors
///
/// `NotRange` where the value is no array of two; else the fault of the first faulty bound,
/// `NotBound` or `Key`. All have the index 0. `Memory` where an allocation fails.
pub fn range_from_json<K: Json, J: JsonTree>(
    alloc: Global,
    value: &J,
) -> Result<AnyRange<K>, JsonError>
    ensures read { IfOk result (IsRangeRead K.is_read (J.content value.now)) }
    ensures sound { OnOk result (range_fault K.reads 0 (J.content value.now) ≡ None) }
    ensures fault { IfErr result
        (λ e. (e ≡ Memory) ⊎ (range_fault K.reads 0 (J.content value.now) ≡ Some e)) }
{
    element_range(alloc, value, 0)
}
