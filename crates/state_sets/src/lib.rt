//! Sets of states of automata over characters.
//!
//! An [`Automaton`] makes steps from sets of states. [`follow`] makes them along a text, and
//! [`longest_match`] along the longest beginning of a text that a rule accepts. [`Sets`] finds a set
//! of states again by its number.
//!
//! Where to find what:
//!
//! - steps, and the states that a text leads to: `src/automaton.rt`, `specs/Steps.antt`,
//!   `proofs/Leading.antt`
//! - the first rule of which a text may end in a set: `src/first.rt`, `proofs/Firsts.antt`
//! - the token that a text begins with: `src/longest.rt`, `specs/{Beginnings,Tokens}.antt`,
//!   `proofs/{Reading,Fronts,Best}.antt`
//! - sets that are found again: `src/sets.rt`, `specs/{Listed,Found}.antt`,
//!   `proofs/{Lists,Finding}.antt`
#![tactic(auto)]

mod automaton;
mod first;
mod longest;
mod sets;

pub use automaton::{Automaton, follow};
pub use first::first_rule;
pub use longest::{Match, longest_match};
pub use sets::Sets;
