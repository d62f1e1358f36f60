//! Why rules with modes are not taken.
ghost use Rattle.std.specs.Prelude.{◌≡◌};
ghost use Rattle.lexing_mode_patterns.specs.declared.error.ModeRuleError.TheVariants.{Memory};

use lexing_modes::SetupError;
use lexing_patterns::RuleError;
use std::alloc::AllocError;
use thiserror::Error;

/// Why rules with modes are not taken. Rules and modes are named by their numbers.
#[derive(Clone, Copy, Debug, PartialEq, Eq, Drop, Error)]
pub enum ModeRuleError {
    /// The first rule whose pattern is not taken, and why.
    #[error("{0}")]
    Rule(RuleError),
    /// A rule holds in a mode, or leads to one, that there is not.
    #[error("rule {rule}: there is no mode {mode}")]
    UnknownMode { rule: usize, mode: u32 },
    /// A text begins in mode 0, and there is no mode.
    #[error("there is no mode")]
    NoMode,
    /// The machine of the mode would have more states than the budget.
    #[error("too many states for mode {0}")]
    TooManyStates(u32),
    /// An allocation failed.
    #[error("out of memory")]
    Memory,
}

/// Where all modes are known only memory may be missing.
impl From<SetupError> for ModeRuleError {
    ghost from_gives = { λ _ e. e ≡ Memory };

    fn from(_error: SetupError) -> ModeRuleError {
        ModeRuleError::Memory
    }
}

impl From<AllocError> for ModeRuleError {
    ghost from_gives = { λ _ e. e ≡ Memory };

    fn from(_error: AllocError) -> ModeRuleError {
        ModeRuleError::Memory
    }
}
