//! Sets and multimaps as JSON values, and what JSON values are read as.
//!
//! Where to find what:
//!
//! - a set as the array of its ranges: `src/set.rt`, `specs/Faults.antt`
//! - a multimap as a map of arrays: `src/multimap.rt`, `specs/MultimapFaults.antt`,
//!   `proofs/Multimaps.antt`
//! - what is written is read back: laws for users: `src/laws.rt`, `specs/Laws.antt`,
//!   `proofs/SetReadingBack.antt`
#![tactic(auto)]

pub mod json;
mod laws;
mod multimap;
mod set;
