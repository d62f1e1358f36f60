//! Sets as JSON values.
ghost use Rattle.std.specs.Prelude.{◌≡◌, ◌⊎◌, Some, None, IfOk, OnOk, IfErr};
ghost use Rattle.serde_json.specs.View.{view};
ghost use Rattle.range_algebra.specs.Range.{ClonesAreEqual};
ghost use Rattle.range_sets.specs.KeySets.{IsCanonicalSet};
ghost use Rattle.range_json.specs.Shapes.{set_shape};
ghost use Rattle.range_set_json.specs.Faults.{IsSetRead, set_fault};
ghost use Rattle.range_json.specs.Values.{AreRangeValues};
ghost use Rattle.range_json.specs.declared.error.JsonError.TheVariants.{Memory};

use range_algebra::any::AnyRange;
use range_algebra::inner;
use range_json::inner::{element_range, elements_of_array};
use range_json::json::{Json, JsonError, JsonTree, range_to_json};
use range_keys::traits::{Measure, PartialEnum};
use range_sets::set::RangeSet;
use range_store::storage::{Item, Storage};
use serde_json::Value;
use std::alloc::{AllocError, Global};

/// The stored ranges as an array, in order, bounds as they are stored. Allocates; fails where an
/// allocation fails.
pub fn set_to_json<T: Json + PartialEnum, C: Storage<Item<AnyRange<T>, ()>>>(
    alloc: Global,
    set: &RangeSet<T, C>,
) -> Result<Value, AllocError>
    ensures written { IfOk result (λ v. view v ≡ set_shape T.shape (C.items set.now)) }
    ensures values { OnOk result (AreRangeValues T.is_value (C.items set.now)) }
{
    let mut written = Vec::with_capacity(alloc, set.range_count())?;
    let mut ranges = set.iter();
    while let Some(range) = ranges.next() {
        written.push(range_to_json(alloc, range)?)?;
    }
    Ok(Value::Array(written))
}

/// A set of just the keys of the ranges in an array. Ranges that meet or touch are joined.
///
/// Costs an insertion for each range.
///
/// # Errors
///
/// `NotArray` where the value is no array; else the fault of the first faulty element, with its
/// index. `Memory` where an allocation fails.
pub fn set_from_json<T: Json + Measure + Clone, C: Storage<Item<AnyRange<T>, ()>>, J: JsonTree>(
    alloc: Global,
    value: &J,
) -> Result<RangeSet<T, C>, JsonError>
    requires { ClonesAreEqual T.is_clone T.eq }
    ensures read { IfOk result (λ set. IsSetRead T.is_read T.order (J.content value.now) (C.items set)) }
    ensures canonical { IfOk result (λ set. IsCanonicalSet T.order (C.items set)) }
    ensures sound { OnOk result (set_fault T.reads (J.content value.now) ≡ None) }
    ensures fault { IfErr result
        (λ e. (e ≡ Memory) ⊎ (set_fault T.reads (J.content value.now) ≡ Some e)) }
{
    let elements = elements_of_array(value)?;
    let mut set = RangeSet::new(alloc);
    for (index, element) in elements.iter().enumerate() {
        let range = element_range(alloc, element, index)?;
        inner::known(&range);
        set.insert(range)?;
    }
    Ok(set)
}
