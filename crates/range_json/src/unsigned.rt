//! The unsigned integers as JSON numbers.
ghost use Rattle.std.specs.Prelude.{◌≡◌, ◌≤◌, Some, None, is_some, MatchResult, ⊤};
ghost use Rattle.range_json.specs.Keys.{unsigned_of, unsigned_shape};
ghost use Rattle.range_json.specs.ReadBack.{unsigned_back, told_some, same_number};
ghost use Rattle.range_json.specs.declared.error.ReadError.TheVariants.{Refused};

use crate::error::ReadError;
use crate::json::{Json, ReadsBack};
use json_trees::JsonTree;
use serde_json::Value;
use std::alloc::{AllocError, Global};

/// A whole number from 0 to `top`.
fn unsigned_from_json<J: JsonTree>(value: &J, top: u64) -> Result<u64, ReadError>
    ensures { MatchResult result (λ n. unsigned_of top (J.content value.now) ≡ Some n)
        (λ e. (e ≡ Refused) × (unsigned_of top (J.content value.now) ≡ None)) }
{
    match value.as_u64() {
        Some(number) if number <= top => Ok(number),
        _ => Err(ReadError::Refused),
    }
}

impl Json for u8 {
    ghost shape = { unsigned_shape };

    ghost reads = { λ d. is_some (unsigned_of 255 d) };

    ghost is_value = { λ x. x ≤ 255 };

    ghost is_read = { λ d x. unsigned_of 255 d ≡ Some x };

    ghost reads_in_place = { ⊤ };

    fn to_json(&self, _alloc: Global) -> Result<Value, AllocError> {
        let value = *self;
        Ok(Value::from(value))
    }

    fn from_json<J: JsonTree>(_alloc: Global, value: &J) -> Result<u8, ReadError> {
        Ok(unsigned_from_json(value, u8::MAX as u64)? as u8)
    }

    fn name() -> &'static str {
        "a u8"
    }
}

impl ReadsBack for u8 {
    ghost reads_written = { λ x h. told_some (unsigned_back 255 x h) };

    ghost reads_back = { λ x y h e. same_number (unsigned_back 255 x h) e };

    ghost one_reading = { λ d x y e h. same_number e h };
}

impl Json for u16 {
    ghost shape = { unsigned_shape };

    ghost reads = { λ d. is_some (unsigned_of 65_535 d) };

    ghost is_value = { λ x. x ≤ 65_535 };

    ghost is_read = { λ d x. unsigned_of 65_535 d ≡ Some x };

    ghost reads_in_place = { ⊤ };

    fn to_json(&self, _alloc: Global) -> Result<Value, AllocError> {
        let value = *self;
        Ok(Value::from(value))
    }

    fn from_json<J: JsonTree>(_alloc: Global, value: &J) -> Result<u16, ReadError> {
        Ok(unsigned_from_json(value, u16::MAX as u64)? as u16)
    }

    fn name() -> &'static str {
        "a u16"
    }
}

impl ReadsBack for u16 {
    ghost reads_written = { λ x h. told_some (unsigned_back 65_535 x h) };

    ghost reads_back = { λ x y h e. same_number (unsigned_back 65_535 x h) e };

    ghost one_reading = { λ d x y e h. same_number e h };
}

impl Json for u32 {
    ghost shape = { unsigned_shape };

    ghost reads = { λ d. is_some (unsigned_of 4_294_967_295 d) };

    ghost is_value = { λ x. x ≤ 4_294_967_295 };

    ghost is_read = { λ d x. unsigned_of 4_294_967_295 d ≡ Some x };

    ghost reads_in_place = { ⊤ };

    fn to_json(&self, _alloc: Global) -> Result<Value, AllocError> {
        let value = *self;
        Ok(Value::from(value))
    }

    fn from_json<J: JsonTree>(_alloc: Global, value: &J) -> Result<u32, ReadError> {
        Ok(unsigned_from_json(value, u32::MAX as u64)? as u32)
    }

    fn name() -> &'static str {
        "a u32"
    }
}

impl ReadsBack for u32 {
    ghost reads_written = { λ x h. told_some (unsigned_back 4_294_967_295 x h) };

    ghost reads_back = { λ x y h e. same_number (unsigned_back 4_294_967_295 x h) e };

    ghost one_reading = { λ d x y e h. same_number e h };
}

impl Json for u64 {
    ghost shape = { unsigned_shape };

    ghost reads = { λ d. is_some (unsigned_of 18_446_744_073_709_551_615 d) };

    ghost is_value = { λ x. x ≤ 18_446_744_073_709_551_615 };

    ghost is_read = { λ d x. unsigned_of 18_446_744_073_709_551_615 d ≡ Some x };

    ghost reads_in_place = { ⊤ };

    fn to_json(&self, _alloc: Global) -> Result<Value, AllocError> {
        let value = *self;
        Ok(Value::from(value))
    }

    fn from_json<J: JsonTree>(_alloc: Global, value: &J) -> Result<u64, ReadError> {
        unsigned_from_json(value, u64::MAX)
    }

    fn name() -> &'static str {
        "a u64"
    }
}

impl ReadsBack for u64 {
    ghost reads_written = { λ x h. told_some (unsigned_back 18_446_744_073_709_551_615 x h) };

    ghost reads_back = { λ x y h e. same_number (unsigned_back 18_446_744_073_709_551_615 x h) e };

    ghost one_reading = { λ d x y e h. same_number e h };
}

impl Json for usize {
    ghost shape = { unsigned_shape };

    ghost reads = { λ d. is_some (unsigned_of 18_446_744_073_709_551_615 d) };

    ghost is_value = { λ x. x ≤ 18_446_744_073_709_551_615 };

    ghost is_read = { λ d x. unsigned_of 18_446_744_073_709_551_615 d ≡ Some x };

    ghost reads_in_place = { ⊤ };

    fn to_json(&self, _alloc: Global) -> Result<Value, AllocError> {
        let value = *self;
        Ok(Value::from(value))
    }

    fn from_json<J: JsonTree>(_alloc: Global, value: &J) -> Result<usize, ReadError> {
        Ok(unsigned_from_json(value, usize::MAX as u64)? as usize)
    }

    fn name() -> &'static str {
        "a usize"
    }
}

impl ReadsBack for usize {
    ghost reads_written = { λ x h. told_some (unsigned_back 18_446_744_073_709_551_615 x h) };

    ghost reads_back = { λ x y h e. same_number (unsigned_back 18_446_744_073_709_551_615 x h) e };

    ghost one_reading = { λ d x y e h. same_number e h };
}
