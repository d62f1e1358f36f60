//! Lexers for callers from other languages: rules in, tokens out.
//!
//! A rule crosses as a name and a pattern in bytes, a token as numbers. What is found are the tokens
//! of the crate `lexing`.
//!
//! Where to find what:
//!
//! - rules as they cross, and those whose bytes are text: `src/rules.rt`, `specs/Rules.antt`
//! - the machine of rules, or why there is none: `src/{lexer,refusal}.rt`, `specs/Refusals.antt`
//! - how a bad rule is told: `src/fault.rt`, `specs/Faults.antt`
//! - the tokens of a text, written to an array: `src/tokens.rt`, `specs/Tokens.antt`,
//!   `proofs/Writing.antt`
//! - what a call answers, beside the statuses of `range_ffi`: `src/status.rt`
#![tactic(auto)]

pub mod fault;
pub mod lexer;
pub mod refusal;
pub mod rules;
pub mod status;
pub mod tokens;
