//! Lexers from patterns.
//!
//! [`lexer`] makes one of names and patterns, such as `[0-9]+`. Each token is the longest piece of
//! the text from its place on that one of the patterns matches, by the first such pattern.
//!
//! ```
//! let rule = |name, pattern, skipped| PatternRule { name, pattern, skipped };
//! let rules = [rule("number", "[0-9]+", false), rule("space", " +", true)];
//! let lexer = lexer(alloc, &rules)?;
//! let mut tokens = lexer.tokens("12 345");
//! assert!(rt; tokens.next() == Some(Ok(Token { rule: 0, start: 0, end: 2 })));
//! assert!(rt; tokens.next() == Some(Ok(Token { rule: 0, start: 3, end: 6 })));
//! assert!(rt; tokens.next() == None);
//! ```
//!
//! Where to find what:
//!
//! - the promise: `src/patterns.rt`, `specs/Patterns.antt`, `proofs/Promise.antt`
//! - which texts a pattern matches, as a language over characters, form by form:
//!   `specs/Languages.antt`, `proofs/{Meanings,Literals,Repeating}.antt`
//! - why a pattern is not taken, and how many steps it takes:
//!   `specs/{Faults,Leaves,Sizes}.antt`, `proofs/{Faults,Sizing,Spending,Totals}.antt`
//! - a pattern as a part of an automaton, whose states are each entered by one character or class:
//!   `src/{trees,builder}.rt`, `specs/Built.antt`, `proofs/Making.antt`
//! - parts, and how they are put together: `src/part.rt`, `specs/Parts.antt`,
//!   `proofs/{Joining,CharacterRanges}.antt`
//! - the automata of several rules side by side, and as those of a lexer: `src/{draft,pour}.rt`,
//!   `specs/Drafts.antt`, `proofs/{Drafting,Pouring}.antt`
#![tactic(auto)]

mod builder;
mod draft;
mod error;
mod part;
mod patterns;
mod pour;
mod trees;

pub use error::{PatternError, RuleError};
pub use patterns::{PatternRule, lexer};
