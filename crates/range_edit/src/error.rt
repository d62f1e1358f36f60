//! Why a call was refused.
ghost use Rattle.std.specs.Prelude.{◌≡◌};
ghost use Rattle.range_edit.specs.declared.error.MapError.TheVariants.{Memory};

use range_algebra::any::AnyRange;
use std::alloc::{AllocError, AllocFailed};
use std::fmt::{self, Debug};
use thiserror::Error;

/// Why a changing call was refused.
#[derive(Debug, Drop, Clone, Copy, PartialEq, Eq, Error)]
pub enum MapError {
    /// There was not enough memory.
    #[error("out of memory")]
    Memory,
}

impl From<AllocError> for MapError {
    ghost from_gives = { λ _ e. e ≡ Memory };

    fn from(_error: AllocError) -> MapError {
        MapError::Memory
    }
}

/// So that `?` turns the error of a `push` into one of a map. The value is dropped.
impl<T: Drop> From<AllocFailed<T>> for MapError {
    ghost from_gives = { λ _ e. e ≡ Memory };

    fn from(failed: AllocFailed<T>) -> MapError {
        drop(failed);
        Self::Memory
    }
}

/// Why a range was not inserted, with the range and the value that were given.
#[derive(Drop, Error)]
pub enum NotInserted<K, V> {
    /// The range meets or touches a stored one.
    #[error("the range meets or touches a stored one")]
    Connected(AnyRange<K>, V),
    /// There was not enough memory.
    #[error("out of memory")]
    Memory(AnyRange<K>, V),
}

impl<K: Debug, V: Debug> Debug for NotInserted<K, V> {
    fn fmt<W: fmt::Write>(&self, f: &mut fmt::Formatter<W>) -> fmt::Result {
        let (name, range, value) = match self {
            NotInserted::Connected(range, value) => ("Connected", range, value),
            NotInserted::Memory(range, value) => ("Memory", range, value),
        };
        f.debug_tuple(name)
            .field(&range.start)
            .field(&range.end)
            .field(value)
            .finish()
    }
}
