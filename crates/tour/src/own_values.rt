//! A type of your own as values in JSON, by the two calls of `Json`.

ghost use Rattle.std.specs.Prelude.{◌≡◌, ◌≤◌, Some, is_some};
ghost use Rattle.btree_range_map.specs.Keys.{unsigned_of, unsigned_shape};

use btree_range_map::RangeMap;
use btree_range_map::json::{Json, JsonError, JsonTree, ReadError, map_from_json};
use serde_json::Value;
use std::alloc::{AllocError, Global};

/// A price in cents, written as a number.
#[derive(Clone, Copy, Debug, Drop, PartialEq, Eq)]
pub struct Price {
    cents: u32,
}

impl Json for Price {
    ghost shape = { λ p. unsigned_shape p.cents };

    ghost reads = { λ d. is_some (unsigned_of 4_294_967_295 d) };

    ghost is_value = { λ p. p.cents ≤ 4_294_967_295 };

    ghost is_read = { λ d p. unsigned_of 4_294_967_295 d ≡ Some p.cents };

    fn to_json(&self, alloc: Global) -> Result<Value, AllocError> {
        self.cents.to_json(alloc)
    }

    fn from_json<J: JsonTree>(alloc: Global, value: &J) -> Result<Price, ReadError> {
        match u32::from_json(alloc, value) {
            Ok(cents) => Ok(Price { cents }),
            Err(error) => Err(error),
        }
    }
}

type Prices = RangeMap<u8, Price>;

/// Whether the second element meets the first.
pub fn is_second_met(alloc: Global, value: &Value) -> bool {
    let read: Result<Prices, JsonError> = map_from_json(alloc, value);
    match read {
        Err(JsonError::Meets(1)) => true,
        _ => false,
    }
}
