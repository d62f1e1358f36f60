//! Why a pattern is not taken.
ghost use Rattle.std.specs.Prelude.{◌≡◌};
ghost use Rattle.lexing_patterns.specs.declared.error.PatternError.TheVariants.{Memory};

use btree_range_map::MapError;
use lexing::LexError;
use std::alloc::{AllocError, AllocFailed};
use thiserror::Error;

/// Why a pattern is not taken.
#[derive(Clone, Copy, Debug, PartialEq, Eq, Drop, Error)]
pub enum PatternError {
    /// It is no pattern: what is wrong, and where in it.
    #[error("{0}")]
    Syntax(regex_syntax::Error),
    /// It has an assertion, such as `^`, `$` or `\b`: a token is matched by its own text alone.
    #[error("assertions such as ^, $ and \\b are not taken")]
    Assertion,
    /// It may match bytes that are no UTF-8.
    #[error("bytes that are no UTF-8 are not taken")]
    NotText,
    /// With those before it, it takes more steps than the budget has: by what it repeats, or by how
    /// much may follow what.
    #[error("the pattern is too large")]
    TooLarge,
    /// An allocation failed.
    #[error("out of memory")]
    Memory,
}

/// Which rule is not taken, and why. Where memory ran out behind the last rule, `rule` is the number
/// of rules.
#[derive(Clone, Copy, Debug, PartialEq, Eq, Drop, Error)]
#[error("rule {rule}: {error}")]
pub struct RuleError {
    pub rule: usize,
    pub error: PatternError,
}

impl From<AllocError> for PatternError {
    ghost from_gives = { λ _ e. e ≡ Memory };

    fn from(_error: AllocError) -> PatternError {
        PatternError::Memory
    }
}

/// So that `?` turns the error of a `push` into one of a pattern. The value is dropped.
impl<T: Drop> From<AllocFailed<T>> for PatternError {
    ghost from_gives = { λ _ e. e ≡ Memory };

    fn from(failed: AllocFailed<T>) -> PatternError {
        drop(failed);
        PatternError::Memory
    }
}

impl From<MapError> for PatternError {
    ghost from_gives = { λ _ e. e ≡ Memory };

    fn from(_error: MapError) -> PatternError {
        PatternError::Memory
    }
}

impl From<LexError> for PatternError {
    ghost from_gives = { λ _ e. e ≡ Memory };

    fn from(_error: LexError) -> PatternError {
        PatternError::Memory
    }
}
