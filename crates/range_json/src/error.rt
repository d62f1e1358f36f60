//! Why a JSON value was not read.
ghost use Rattle.std.specs.Prelude.{◌≡◌};
ghost use Rattle.range_json.specs.declared.error.JsonError.TheVariants.{Memory};
ghost use Rattle.range_json.specs.declared.error.ReadError.TheVariants.{Memory as ReadMemory};

use range_map::map::MapError;
use std::alloc::AllocError;
use thiserror::Error;

/// Why a key or a value was not read.
#[derive(Debug, Drop, Clone, Copy, PartialEq, Eq, Error)]
pub enum ReadError {
    /// There was not enough memory.
    #[error("out of memory")]
    Memory,
    /// The JSON value is none of the type's.
    #[error("not a value of the type")]
    Refused,
}

impl From<AllocError> for ReadError {
    ghost from_gives = { λ _ e. e ≡ ReadMemory };

    fn from(_error: AllocError) -> ReadError {
        ReadError::Memory
    }
}

/// Why a range, a set, a map or a multimap was not read, with the index of the element at fault,
/// counted from 0.
///
/// Given the JSON value again, `explained_map` and the like also say what was found there.
#[derive(Debug, Drop, Clone, Copy, PartialEq, Eq, Error)]
pub enum JsonError {
    /// There was not enough memory.
    #[error("out of memory")]
    Memory,
    /// The whole, or its member `items`, is no array.
    #[error("expected an array of elements, or an object with such an array as its member items")]
    NotArray,
    /// The element is no array of two.
    #[error("element {0}: expected an array of two, a range and what it is bound to")]
    NotPair(usize),
    /// The range is no array of two.
    #[error("element {0}: expected a range, an array of two bounds")]
    NotRange(usize),
    /// A bound of the range is none.
    #[error("element {0}: expected a bound, Unbounded or an object whose one member is Included or Excluded")]
    NotBound(usize),
    /// The key of a bound is none.
    #[error("element {0}: the key of a bound is not of its type")]
    Key(usize),
    /// The value is none.
    #[error("element {0}: what the range is bound to is not of its type")]
    Value(usize),
    /// The range meets that of an earlier element.
    #[error("element {0}: the range meets that of an earlier element")]
    Meets(usize),
    /// The object is none of version 2.
    #[error("expected an object with the members version, which is 2, and items, and no others")]
    Version,
}

impl From<AllocError> for JsonError {
    ghost from_gives = { λ _ e. e ≡ Memory };

    fn from(_error: AllocError) -> JsonError {
        JsonError::Memory
    }
}

impl From<MapError> for JsonError {
    ghost from_gives = { λ _ e. e ≡ Memory };

    fn from(_error: MapError) -> JsonError {
        JsonError::Memory
    }
}
