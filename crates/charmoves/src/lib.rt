//! Automata over characters, whose rules have ranges of characters, as those of a lexer.
//!
//! [`Rules`] gathers rules, start states and accepting states. [`Moves`] follows them from a set of
//! states: by one character, along a whole text, or along the longest beginning of one that is
//! accepted. A state may have several rules for a character: all of them are followed.
//!
//! ```
//! let mut rules = Rules::new(alloc);
//! rules.add(0, '-', 1)?; // a sign, then digits
//! rules.add(0, '0'..='9', 2)?;
//! rules.add(1, '0'..='9', 2)?;
//! rules.add(2, '0'..='9', 2)?;
//! rules.start(0)?;
//! rules.accept(2)?;
//! let moves = Moves::build(rules);
//! assert!(rt; moves.accepts("-12")?);
//! assert!(rt; !moves.accepts("1-2")?);
//! ```
//!
//! Where to find what:
//!
//! - rules, steps and accepted texts of an automaton: `src/{rules,moves}.rt`,
//!   `specs/Automata.antt`, over `Steps` of the crate `state_sets`
//! - one state after the other: `proofs/Gathering.antt`
//! - whether a state accepts, and the longest beginning of a text that is accepted:
//!   `src/longest.rt`, `proofs/{Paths,LongestFronts}.antt`
#![tactic(auto)]

mod longest;
mod moves;
mod rules;

pub use moves::Moves;
pub use rules::Rules;
