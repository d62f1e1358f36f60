//! JSON: maps that are written and read.

ghost use Rattle.std.specs.Prelude.{◌≡◌, ◌≤◌, IfOk, Some, is_some};
ghost use Rattle.std.specs.Ordering.{int_eq};
ghost use Rattle.serde_json.specs.View.{view};
ghost use Rattle.btree_range_map.specs.Holding.{box_items};
ghost use Rattle.btree_range_map.specs.Keys.{unsigned_of, unsigned_shape};
ghost use Rattle.btree_range_map.specs.MapFaults.{IsMapRead};
ghost use Rattle.btree_range_map.specs.Shapes.{map_shape};

use crate::blind::Blind;
use crate::half::Half;
use btree_range_map::json::{Json, JsonError, JsonTree, ReadError, map_from_json, map_to_json};
use btree_range_map::range::traits::MaybeBounded;
use btree_range_map::{Measure, RangeMap};
use serde_json::Value;
use std::alloc::{AllocError, Global};

impl Json for Half {
    ghost shape = { λ h. unsigned_shape h.0 };

    ghost reads = { λ d. is_some (unsigned_of 255 d) };

    ghost is_value = { λ h. h.0 ≤ 255 };

    ghost is_read = { λ d h. unsigned_of 255 d ≡ Some h.0 };

    fn to_json(&self, alloc: Global) -> Result<Value, AllocError> {
        self.0.to_json(alloc)
    }

    fn from_json<J: JsonTree>(alloc: Global, value: &J) -> Result<Half, ReadError> {
        match u8::from_json(alloc, value) {
            Ok(number) => Ok(Half(number)),
            Err(error) => Err(error),
        }
    }
}

impl<T: Json + Copy> Json for Blind<T> {
    ghost shape = { λ b. T.shape b.0 };

    ghost reads = { T.reads };

    ghost is_value = { λ b. T.is_value b.0 };

    ghost is_read = { λ d b. T.is_read d b.0 };

    fn to_json(&self, alloc: Global) -> Result<Value, AllocError> {
        self.0.to_json(alloc)
    }

    fn from_json<J: JsonTree>(alloc: Global, value: &J) -> Result<Blind<T>, ReadError> {
        match T::from_json(alloc, value) {
            Ok(inner) => Ok(Blind(inner)),
            Err(error) => Err(error),
        }
    }
}

fn written<K: Json + Measure>(alloc: Global, map: &RangeMap<K, i64>) -> Result<Value, AllocError>
    ensures { IfOk result (λ v. view v ≡ map_shape K.shape ⟦<i64 as Json>⟧.shape
        (box_items map.now)) }
{
    map_to_json(alloc, map)
}

fn read<K: Json + Measure>(alloc: Global, value: &Value) -> Result<RangeMap<K, i64>, JsonError>
    ensures { IfOk result (λ map. IsMapRead K.order K.reads ⟦<i64 as Json>⟧.reads K.is_read
        ⟦<i64 as Json>⟧.is_read int_eq (view value.now) (box_items map)) }
{
    map_from_json(alloc, value)
}

fn written_halves(alloc: Global, map: &RangeMap<Half, i64>) -> Result<Value, AllocError>
    ensures { IfOk result (λ v. view v ≡ map_shape ⟦<Half as Json>⟧.shape ⟦<i64 as Json>⟧.shape
        (box_items map.now)) }
{
    written(alloc, map)
}

fn read_halves(alloc: Global, value: &Value) -> Result<RangeMap<Half, i64>, JsonError>
    ensures { IfOk result (λ map. IsMapRead ⟦<Half as MaybeBounded>⟧.order ⟦<Half as Json>⟧.reads
        ⟦<i64 as Json>⟧.reads ⟦<Half as Json>⟧.is_read ⟦<i64 as Json>⟧.is_read int_eq
        (view value.now) (box_items map)) }
{
    read(alloc, value)
}

fn written_blind(alloc: Global, map: &RangeMap<Blind<i32>, i64>) -> Result<Value, AllocError>
    ensures { IfOk result (λ v. view v ≡ map_shape ⟦<Blind<i32> as Json>⟧.shape
        ⟦<i64 as Json>⟧.shape (box_items map.now)) }
{
    written(alloc, map)
}

fn read_blind(alloc: Global, value: &Value) -> Result<RangeMap<Blind<i32>, i64>, JsonError>
    ensures { IfOk result (λ map. IsMapRead ⟦<Blind<i32> as MaybeBounded>⟧.order
        ⟦<Blind<i32> as Json>⟧.reads ⟦<i64 as Json>⟧.reads ⟦<Blind<i32> as Json>⟧.is_read
        ⟦<i64 as Json>⟧.is_read int_eq (view value.now) (box_items map)) }
{
    read(alloc, value)
}
