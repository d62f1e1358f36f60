//! Tables of addresses as they cross to callers from other languages.
//!
//! An address is a key of 128 bits. The calls take maps of `range_handles`, and answer by a status
//! of `range_ffi`.
//!
//! Where to find what:
//!
//! - a prefix with its value, either way: `src/prefix.rt`, `specs/Prefixes.antt`
//! - the shortest table of prefixes of a map: `src/shortest.rt`; the map of some prefixes, each key
//!   by the longest: `src/longest.rt`; what both promise: `specs/Tables.antt`
#![tactic(auto)]

pub mod longest;
pub mod prefix;
pub mod shortest;
