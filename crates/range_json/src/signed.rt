//! The signed integers as JSON numbers.
ghost use Rattle.std.specs.Prelude.{◌≡◌, ◌≤ℤ◌, pos, unsigned_abs, Some, None, is_some, MatchResult, ⊤};
ghost use Rattle.std.proofs.Common.{lit<};
ghost use Rattle.range_keys.specs.Signed.{IsSigned};
ghost use Rattle.range_json.specs.Keys.{signed_of, signed_shape};
ghost use Rattle.range_json.specs.ReadBack.{signed_back, told_some, same_integer};
ghost use Rattle.range_json.specs.declared.error.ReadError.TheVariants.{Refused};

use crate::error::ReadError;
use crate::json::{Json, ReadsBack};
use json_trees::JsonTree;
use serde_json::Value;
use std::alloc::{AllocError, Global};

/// A whole number from `-top - 1` to `top`.
fn signed_from_json<J: JsonTree>(value: &J, top: i64) -> Result<i64, ReadError>
    requires { pos 0 ≤ℤ top }
    ensures { MatchResult result (λ z. signed_of (unsigned_abs top) (J.content value.now) ≡ Some z)
        (λ e. (e ≡ Refused) × (signed_of (unsigned_abs top) (J.content value.now) ≡ None)) }
{
    match value.as_i64() {
        Some(number) if -top - 1 <= number && number <= top => Ok(number),
        _ => Err(ReadError::Refused),
    }
}

impl Json for i8 {
    ghost shape = { signed_shape };

    ghost reads = { λ d. is_some (signed_of 127 d) };

    ghost is_value = { IsSigned 127 };

    ghost is_read = { λ d x. signed_of 127 d ≡ Some x };

    ghost reads_in_place = { ⊤ };

    fn to_json(&self, _alloc: Global) -> Result<Value, AllocError> {
        let value = *self;
        Ok(Value::from(value))
    }

    fn from_json<J: JsonTree>(_alloc: Global, value: &J) -> Result<i8, ReadError> {
        Ok(signed_from_json(value, i8::MAX as i64)? as i8)
    }

    fn name() -> &'static str {
        "an i8"
    }
}

impl ReadsBack for i8 {
    ghost reads_written = { λ x h. told_some (signed_back 127 (lit< tt) x h) };

    ghost reads_back = { λ x y h e. same_integer (signed_back 127 (lit< tt) x h) e };

    ghost one_reading = { λ d x y e h. same_integer e h };
}

impl Json for i16 {
    ghost shape = { signed_shape };

    ghost reads = { λ d. is_some (signed_of 32_767 d) };

    ghost is_value = { IsSigned 32_767 };

    ghost is_read = { λ d x. signed_of 32_767 d ≡ Some x };

    ghost reads_in_place = { ⊤ };

    fn to_json(&self, _alloc: Global) -> Result<Value, AllocError> {
        let value = *self;
        Ok(Value::from(value))
    }

    fn from_json<J: JsonTree>(_alloc: Global, value: &J) -> Result<i16, ReadError> {
        Ok(signed_from_json(value, i16::MAX as i64)? as i16)
    }

    fn name() -> &'static str {
        "an i16"
    }
}

impl ReadsBack for i16 {
    ghost reads_written = { λ x h. told_some (signed_back 32_767 (lit< tt) x h) };

    ghost reads_back = { λ x y h e. same_integer (signed_back 32_767 (lit< tt) x h) e };

    ghost one_reading = { λ d x y e h. same_integer e h };
}

impl Json for i32 {
    ghost shape = { signed_shape };

    ghost reads = { λ d. is_some (signed_of 2_147_483_647 d) };

    ghost is_value = { IsSigned 2_147_483_647 };

    ghost is_read = { λ d x. signed_of 2_147_483_647 d ≡ Some x };

    ghost reads_in_place = { ⊤ };

    fn to_json(&self, _alloc: Global) -> Result<Value, AllocError> {
        let value = *self;
        Ok(Value::from(value))
    }

    fn from_json<J: JsonTree>(_alloc: Global, value: &J) -> Result<i32, ReadError> {
        Ok(signed_from_json(value, i32::MAX as i64)? as i32)
    }

    fn name() -> &'static str {
        "an i32"
    }
}

impl ReadsBack for i32 {
    ghost reads_written = { λ x h. told_some (signed_back 2_147_483_647 (lit< tt) x h) };

    ghost reads_back = { λ x y h e. same_integer (signed_back 2_147_483_647 (lit< tt) x h) e };

    ghost one_reading = { λ d x y e h. same_integer e h };
}

impl Json for i64 {
    ghost shape = { signed_shape };

    ghost reads = { λ d. is_some (signed_of 9_223_372_036_854_775_807 d) };

    ghost is_value = { IsSigned 9_223_372_036_854_775_807 };

    ghost is_read = { λ d x. signed_of 9_223_372_036_854_775_807 d ≡ Some x };

    ghost reads_in_place = { ⊤ };

    fn to_json(&self, _alloc: Global) -> Result<Value, AllocError> {
        let value = *self;
        Ok(Value::from(value))
    }

    fn from_json<J: JsonTree>(_alloc: Global, value: &J) -> Result<i64, ReadError> {
        signed_from_json(value, i64::MAX)
    }

    fn name() -> &'static str {
        "an i64"
    }
}

impl ReadsBack for i64 {
    ghost reads_written = { λ x h. told_some
        (signed_back 9_223_372_036_854_775_807 (lit< tt) x h) };

    ghost reads_back = { λ x y h e. same_integer
        (signed_back 9_223_372_036_854_775_807 (lit< tt) x h) e };

    ghost one_reading = { λ d x y e h. same_integer e h };
}
