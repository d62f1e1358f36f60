//! Why an update was refused.
ghost use Rattle.std.specs.Prelude.{◌≡◌};
ghost use Rattle.range_runs.specs.declared.error.UpdateError.TheVariants.{Memory};

use std::alloc::AllocError;
use thiserror::Error;

/// Why an update was refused.
#[derive(Debug, Drop, Clone, Copy, PartialEq, Eq, Error)]
pub enum UpdateError<E> {
    /// There was not enough memory.
    #[error("out of memory")]
    Memory,
    /// The closure returned this error for a piece.
    #[error("the closure failed")]
    Closure(E),
}

impl<E> From<AllocError> for UpdateError<E> {
    ghost from_gives = { λ _ e. e ≡ Memory };

    fn from(_error: AllocError) -> UpdateError<E> {
        UpdateError::Memory
    }
}
