//! Ranges, bindings and statuses as they cross to callers from other languages.
//!
//! A range crosses as two keys and flags.
//!
//! Where to find what:
//!
//! - ranges as two keys and flags, and bindings: `src/bounds.rt`, `specs/{Flags,Bindings}.antt`,
//!   `proofs/Flags.antt`
//! - a range with its value, either way: `src/items.rt`
//! - the same of keys of 128 bits, which are two words: `src/wide.rt`, `specs/Wide.antt`
//! - what a call answers: `src/status.rt`
#![tactic(auto)]

pub mod bounds;
pub mod items;
pub mod status;
pub mod wide;
