//! Ranges of characters that lead to a state.
//!
//! A class of characters is a list of ranges of numbers, in which surrogates may lie, though they
//! are no characters. [`leads_of`] makes of it the ranges of characters that lead to a state.
//!
//! Where to find what:
//!
//! - leads, and those of a class: `src/leads.rt`, `specs/Leads.antt`, `proofs/Ranges.antt`
//! - lists with one of which something holds: `specs/Leads.antt`, `proofs/Any.antt`
#![tactic(auto)]

mod leads;

pub use leads::{Lead, leads_of};
