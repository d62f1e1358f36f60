//! Callers of JSON of ranges, of single keys, of multimaps, and of maps whose elements may meet.

ghost use Rattle.std.specs.Prelude.{◌≡◌, IfOk, OnOk, None};
ghost use Rattle.std.specs.Ordering.{int_eq};
ghost use Rattle.serde_json.specs.View.{view};
ghost use Rattle.btree_range_map.specs.Names.{bindings_of, i32_order};
ghost use Rattle.btree_range_map.specs.Overwriting.{IsMapOverwritten, overwriting_fault};

use btree_range_map::json::{
    Json, JsonError, ReadError, map_from_json_overwriting, range_from_json, range_to_json,
};
use btree_range_map::{AnyRange, RangeMap};
use serde_json::Value;
use std::alloc::{AllocError, Global};

fn range_written(alloc: Global, range: &AnyRange<i32>) -> Result<Value, AllocError> {
    range_to_json(alloc, range)
}

fn range_read(alloc: Global, value: &Value) -> Result<AnyRange<i32>, JsonError> {
    range_from_json(alloc, value)
}

fn key_written(alloc: Global, key: char) -> Result<Value, AllocError> {
    key.to_json(alloc)
}

fn key_read(alloc: Global, value: &Value) -> Result<char, ReadError> {
    Json::from_json(alloc, value)
}

fn map_read_overwriting(alloc: Global, value: &Value) -> Result<RangeMap<i32, i64>, JsonError>
    ensures read { IfOk result (λ map. IsMapOverwritten i32_order ⟦<i32 as Json>⟧.is_read
        ⟦<i64 as Json>⟧.is_read int_eq (view value.now) (bindings_of map)) }
    ensures sound { OnOk result (overwriting_fault ⟦<i32 as Json>⟧.reads ⟦<i64 as Json>⟧.reads
        (view value.now) ≡ None) }
{
    map_from_json_overwriting(alloc, value)
}
