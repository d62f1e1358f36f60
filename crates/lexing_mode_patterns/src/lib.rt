//! Lexers with modes from patterns.
//!
//! [`modes`] makes them of rules: a name and a pattern, the modes in which the rule holds, and what
//! it does to the mode behind its tokens.
//!
//! ```
//! // `rule` makes a `ModeRule` of its fields
//! let rules = [
//!     rule("word", "[a-z]+", false, &[0], ModeChange::Stay),
//!     rule("open", r"/\*", true, &[0, 1], ModeChange::Push(1)),
//!     rule("close", r"\*/", true, &[1], ModeChange::Pop),
//!     rule("other", "(?s).", true, &[1], ModeChange::Stay),
//! ];
//! let modes = modes(alloc, 2, &rules, 1000)?;
//! let mut tokens = modes.tokens("a/* b /* c */ */d");
//! ```
//!
//! Where to find what:
//!
//! - what is promised of modes, and how they are made: `src/build.rt`, `specs/Rules.antt`
//! - rules, and those of a mode: `src/rules.rt`
//! - why rules are not taken: `src/{error,checks}.rt`, `specs/Refusals.antt`
#![tactic(auto)]

mod build;
mod checks;
mod error;
mod rules;

pub use build::modes;
pub use error::ModeRuleError;
pub use rules::ModeRule;
