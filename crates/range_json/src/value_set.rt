//! std's `BTreeSet` as an array of its values.
ghost use Rattle.range_json.specs.ValueSets.{values_shape, reads_values, IsValueSet, AreValuesRead};
ghost use Rattle.range_json.specs.SetReadBack.{set_written, set_back, one_set};

use crate::array::elements_of_array;
use crate::error::ReadError;
use crate::json::{Json, ReadsBack};
use json_trees::JsonTree;
use serde_json::Value;
use std::alloc::{AllocError, Global};
use std::collections::BTreeSet;

/// A set is written as the array of its values, in ascending order. Any array of values is read as
/// a set, in whatever order they stand; a value that stands there twice is one value of the set.
impl<V: Json + Ord> Json for BTreeSet<V> {
    ghost shape = { values_shape V.shape };

    ghost reads = { reads_values V.reads };

    ghost is_value = { IsValueSet V.cmp V.is_value };

    ghost is_read = { AreValuesRead V.cmp V.is_read };

    fn to_json(&self, alloc: Global) -> Result<Value, AllocError> {
        let mut written = Vec::with_capacity(alloc, self.len())?;
        let mut values = self.iter();
        while let Some(value) = values.next() {
            written.push(value.to_json(alloc)?)?;
        }
        Ok(Value::Array(written))
    }

    fn from_json<J: JsonTree>(alloc: Global, value: &J) -> Result<BTreeSet<V>, ReadError> {
        let Ok(elements) = elements_of_array(value) else {
            return Err(ReadError::Refused);
        };
        let mut values = BTreeSet::new(alloc);
        for element in elements {
            match values.insert(V::from_json(alloc, element)?) {
                Ok(_) => (),
                Err(_) => return Err(ReadError::Memory),
            }
        }
        Ok(values)
    }

    fn name() -> &'static str {
        "an array of values"
    }
}

impl<V: ReadsBack + Ord> ReadsBack for BTreeSet<V> {
    ghost reads_written = { set_written V.shape V.reads V.is_value V.reads_written V.cmp };

    ghost reads_back = { set_back V.cmp V.total V.eq V.matches_eq V.is_read V.shape V.is_value
        V.reads_back };

    ghost one_reading = { one_set V.cmp V.total V.eq V.matches_eq V.is_read V.one_reading };
}
