//! `char` as a text of one character.
ghost use Rattle.std.specs.Prelude.{◌≡◌, Some, is_some, ⊤};
ghost use Rattle.range_keys.specs.Characters.{character_order};
ghost use Rattle.range_json.specs.Keys.{character_of, character_shape};
ghost use Rattle.range_json.specs.ReadBack.{character_back, told_some, same_number};

use crate::error::ReadError;
use crate::json::{Json, ReadsBack};
use json_trees::JsonTree;
use range_keys::traits::MaybeBounded;
use serde_json::Value;
use std::alloc::{AllocError, Global};

impl Json for char {
    ghost shape = { character_shape };

    ghost reads = { λ d. is_some (character_of d) };

    ghost is_value = { character_order.is_key };

    ghost is_read = { λ d x. character_of d ≡ Some x };

    ghost reads_in_place = { ⊤ };

    fn to_json(&self, alloc: Global) -> Result<Value, AllocError> {
        self.known();
        let mut text = String::new(alloc);
        text.push(*self)?;
        Ok(Value::from(text))
    }

    fn from_json<J: JsonTree>(_alloc: Global, value: &J) -> Result<char, ReadError> {
        let text = match value.as_str() {
            Some(text) => text,
            None => return Err(ReadError::Refused),
        };
        match text.chars().next() {
            Some(first) if first.len_utf8() == text.len() => Ok(first),
            _ => Err(ReadError::Refused),
        }
    }

    fn name() -> &'static str {
        "a char, a string of one character"
    }
}

impl ReadsBack for char {
    ghost reads_written = { λ x h. told_some (character_back x h) };

    ghost reads_back = { λ x y h e. same_number (character_back x h) e };

    ghost one_reading = { λ d x y e h. same_number e h };
}
