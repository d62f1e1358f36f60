//! Why modes are not taken, and why there is no token.
ghost use Rattle.std.specs.Prelude.{◌≡◌};
ghost use Rattle.lexing_modes.specs.declared.error.SetupError.TheVariants.{Memory as SetupMemory};
ghost use Rattle.lexing_modes.specs.declared.error.TokenError.TheVariants.{Memory};

use std::alloc::{AllocError, AllocFailed};
use thiserror::Error;

/// Why a mode or a change is not taken.
#[derive(Clone, Copy, Debug, PartialEq, Eq, Drop, Error)]
pub enum SetupError {
    /// No mode has this number.
    #[error("there is no mode {0}")]
    UnknownMode(u32),
    /// An allocation failed.
    #[error("out of memory")]
    Memory,
}

/// Why there is no token.
#[derive(Clone, Copy, Debug, PartialEq, Eq, Drop, Error)]
pub enum TokenError {
    /// From this byte on no rule of the mode accepts anything.
    #[error("no token of mode {mode} begins at byte {place}")]
    NoToken { mode: u32, place: usize },
    /// The rule of the token at this byte pops, and no mode was pushed.
    #[error("the token at byte {place} pops mode {mode}, and none lies below")]
    NothingPushed { mode: u32, place: usize },
    /// An allocation failed.
    #[error("out of memory")]
    Memory,
}

/// So that `?` turns the error of a `push` into one of modes. The value is dropped.
impl<T: Drop> From<AllocFailed<T>> for SetupError {
    ghost from_gives = { λ _ e. e ≡ SetupMemory };

    fn from(failed: AllocFailed<T>) -> SetupError {
        drop(failed);
        SetupError::Memory
    }
}

impl From<AllocError> for SetupError {
    ghost from_gives = { λ _ e. e ≡ SetupMemory };

    fn from(_error: AllocError) -> SetupError {
        SetupError::Memory
    }
}

/// So that `?` turns the error of a `push` into one of tokens. The value is dropped.
impl<T: Drop> From<AllocFailed<T>> for TokenError {
    ghost from_gives = { λ _ e. e ≡ Memory };

    fn from(failed: AllocFailed<T>) -> TokenError {
        drop(failed);
        TokenError::Memory
    }
}
