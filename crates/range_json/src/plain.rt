//! `bool` and `String` as JSON's own.
ghost use Rattle.std.specs.Prelude.{◌≡◌, Some, is_some, string_bytes, ⊤};
ghost use Rattle.serde_json.specs.Data.{boolean, string};
ghost use Rattle.serde_json.specs.Find.{as_bool, as_str};
ghost use Rattle.std.proofs.Common.{rules};

use crate::error::ReadError;
use crate::json::{Json, ReadsBack};
use json_trees::JsonTree;
use serde_json::Value;
use std::alloc::{AllocError, Global};

impl Json for bool {
    ghost shape = { boolean };

    ghost reads = { λ d. is_some (as_bool d) };

    ghost is_value = { λ _. ⊤ };

    ghost is_read = { λ d x. as_bool d ≡ Some x };

    ghost reads_in_place = { ⊤ };

    fn to_json(&self, _alloc: Global) -> Result<Value, AllocError> {
        Ok(Value::from(*self))
    }

    fn from_json<J: JsonTree>(_alloc: Global, value: &J) -> Result<bool, ReadError> {
        match value.as_bool() {
            Some(flag) => Ok(flag),
            None => Err(ReadError::Refused),
        }
    }

    fn name() -> &'static str {
        "a bool"
    }
}

impl Json for String {
    ghost shape = { λ s. string (string_bytes s) };

    ghost reads = { λ d. is_some (as_str d) };

    ghost is_value = { λ _. ⊤ };

    ghost is_read = { λ d x. as_str d ≡ Some (string_bytes x) };

    fn to_json(&self, alloc: Global) -> Result<Value, AllocError> {
        Value::try_from_str(alloc, self.as_str())
    }

    fn from_json<J: JsonTree>(alloc: Global, value: &J) -> Result<String, ReadError> {
        match value.as_str() {
            Some(text) => Ok(String::from_str(alloc, text)?),
            None => Err(ReadError::Refused),
        }
    }

    fn name() -> &'static str {
        "a string"
    }
}

impl ReadsBack for bool {
    ghost reads_written = { λ x h. Prim.search rules };

    ghost reads_back = { λ x y h e. Prim.search (rules, e) };

    ghost one_reading = { λ d x y e h. Prim.search (rules, e, h) };
}

impl ReadsBack for String {
    ghost reads_written = { λ x h. Prim.search rules };

    ghost reads_back = { λ x y h e. Prim.search (rules, e) };

    ghost one_reading = { λ d x y e h. Prim.search (rules, e, h) };
}
