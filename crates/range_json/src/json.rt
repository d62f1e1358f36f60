//! Keys, values and ranges as JSON values.
ghost use Rattle.std.specs.Prelude.{◌≡◌, Bool, true, false, IsTrue, IfOk, OnOk, IsErrOf};
ghost use Rattle.serde_json.specs.Data.{Data};
ghost use Rattle.serde_json.specs.View.{view};
ghost use Rattle.range_json.specs.declared.error.ReadError.TheVariants.{Memory, Refused};

pub use crate::error::{JsonError, ReadError};
pub use crate::explanation::Explanation;
pub use crate::laws::{maps_are_read_back, ranges_are_read_back, read_maps_have_no_fault};
pub use crate::range::{range_from_json, range_to_json};
pub use json_trees::JsonTree;
use serde_json::Value;
use std::alloc::{AllocError, Global};

/// A type whose values are written as JSON values and read from them.
pub trait Json: Sized + Drop {
    // What a value is written as.
    ghost shape: { Self → Data };

    // Which JSON values are read.
    ghost reads: { Data → Bool };

    // A value that the type really has: a contract sees any whole number for a `u8`.
    ghost is_value: { Self → Type 0 };

    // The value is one that may be read there.
    ghost is_read: { Data → Self → Type 0 };

    // To read a value takes no memory. A type that does not say so need not show it.
    ghost reads_in_place: { Type 0 } = { ⊥ };

    /// The JSON value that this value is written as. Fails where an allocation fails.
    fn to_json(&self, alloc: Global) -> Result<Value, AllocError>
        ensures written { IfOk result (λ v. view v ≡ shape self.now) }
        ensures known { OnOk result (is_value self.now) };

    /// The value that the JSON value is read as. `Refused` where it is read as none, `Memory` where
    /// an allocation fails.
    fn from_json<J: JsonTree>(alloc: Global, value: &J) -> Result<Self, ReadError>
        ensures read { IfOk result (is_read (J.content value.now)) }
        ensures readable { OnOk result (IsTrue (reads (J.content value.now))) }
        ensures refused { IsErrOf result Refused → reads (J.content value.now) ≡ false }
        ensures memory { IsErrOf result Memory → ¬ reads_in_place };

    /// What a JSON value has to be to be read as such a value, as an explained error says it:
    /// `a u32`, `a string`.
    fn name() -> &'static str {
        "a value of the type"
    }
}

/// A type that reads what it has written as an equal value, and one JSON value never as two unequal
/// ones. It has laws alone.
pub trait ReadsBack: Json + Eq {
    ghost reads_written: { (x : Self) → Self.is_value x → IsTrue (Self.reads (Self.shape x)) };

    ghost reads_back: { (x y : Self) → Self.is_value x → Self.is_read (Self.shape x) y
        → IsTrue (Self.eq x y) };

    ghost one_reading: { (d : Data) (x y : Self) → Self.is_read d x → Self.is_read d y
        → IsTrue (Self.eq x y) };
}
