//! Maps as JSON values, and what JSON values are read as.
//!
//! Where to find what:
//!
//! - a map in either shape, written and read: `src/map.rt`, `proofs/MapReading.antt`
//! - a map of which the last element counts: `src/overwriting.rt`, `specs/Overwriting.antt`
//! - the loops over the elements of both: `proofs/{ElementLoop,WritingLoop}.antt`
#![tactic(auto)]

pub mod map;
pub mod overwriting;
