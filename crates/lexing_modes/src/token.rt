//! Tokens with their modes.

use lexing::Token;

/// A token, and the mode whose rule accepts it.
#[derive(Clone, Copy, Debug, PartialEq, Eq, Drop)]
pub struct ModeToken {
    pub mode: u32,
    pub token: Token,
}
