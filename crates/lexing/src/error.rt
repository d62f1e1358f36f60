//! Why no machine was built.
ghost use Rattle.std.specs.Prelude.{◌≡◌};
ghost use Rattle.lexing.specs.declared.error.BuildError.TheVariants.{Memory};

use btree_range_map::MapError;
use std::alloc::{AllocError, AllocFailed};
use thiserror::Error;

/// Why no machine was built.
#[derive(Clone, Copy, Debug, PartialEq, Eq, Drop, Error)]
pub enum BuildError {
    /// It would have more states than the budget.
    #[error("too many states")]
    TooLarge,
    /// An allocation failed, or a step cannot tell so many states apart.
    #[error("out of memory")]
    Memory,
}

impl From<MapError> for BuildError {
    ghost from_gives = { λ _ e. e ≡ Memory };

    fn from(_error: MapError) -> BuildError {
        BuildError::Memory
    }
}

impl From<AllocError> for BuildError {
    ghost from_gives = { λ _ e. e ≡ Memory };

    fn from(_error: AllocError) -> BuildError {
        BuildError::Memory
    }
}

/// So that `?` turns the error of a `push` into one of a machine. The value is dropped.
impl<T: Drop> From<AllocFailed<T>> for BuildError {
    ghost from_gives = { λ _ e. e ≡ Memory };

    fn from(failed: AllocFailed<T>) -> BuildError {
        drop(failed);
        BuildError::Memory
    }
}
