//! Tokens, and why there is none.
ghost use Rattle.std.specs.Prelude.{◌≡◌};
ghost use Rattle.lexing.specs.declared.token.LexError.TheVariants.{Memory};

use btree_range_map::MapError;
use std::alloc::{AllocError, AllocFailed};
use thiserror::Error;

/// A token: the rule that accepts it, and its place in bytes, from `start` up to `end`.
#[derive(Clone, Copy, Debug, PartialEq, Eq, Drop)]
pub struct Token {
    pub rule: u32,
    pub start: usize,
    pub end: usize,
}

/// Why there is no token.
#[derive(Clone, Copy, Debug, PartialEq, Eq, Drop, Error)]
pub enum LexError {
    /// From this byte on no rule accepts anything.
    #[error("no token begins at byte {0}")]
    NoToken(usize),
    /// An allocation failed.
    #[error("out of memory")]
    Memory,
}

impl From<MapError> for LexError {
    ghost from_gives = { λ _ e. e ≡ Memory };

    fn from(_error: MapError) -> LexError {
        LexError::Memory
    }
}

impl From<AllocError> for LexError {
    ghost from_gives = { λ _ e. e ≡ Memory };

    fn from(_error: AllocError) -> LexError {
        LexError::Memory
    }
}

/// So that `?` turns the error of a `push` into one of a lexer. The value is dropped.
impl<T: Drop> From<AllocFailed<T>> for LexError {
    ghost from_gives = { λ _ e. e ≡ Memory };

    fn from(failed: AllocFailed<T>) -> LexError {
        drop(failed);
        LexError::Memory
    }
}
