//! Why no lexer is made of rules.

use lexing_patterns::PatternError;

/// Why a rule is not taken.
#[derive(Clone, Copy, Drop)]
pub enum Reason {
    /// Its name or its pattern is no UTF-8.
    NotText,
    /// Its pattern is not taken.
    Pattern(PatternError),
}

/// A rule that is not taken, by its number from 0 on, and why.
#[derive(Clone, Copy, Drop)]
pub struct BadRule {
    pub rule: usize,
    pub reason: Reason,
}

/// Why no lexer is made of rules.
#[derive(Clone, Copy, Drop)]
pub enum Refusal {
    /// The first rule that is not taken.
    Rule(BadRule),
    /// The lexer would have more states than the budget.
    TooLarge,
    /// An allocation failed.
    Memory,
}
