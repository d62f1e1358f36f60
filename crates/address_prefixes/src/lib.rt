//! Prefixes of addresses, how numbers are divided into them, and sets but for exceptions.
//!
//! Where to find what:
//!
//! - what a prefix is: `src/prefix.rt`, `specs/Prefixes.antt`
//! - the addresses of a range, as numbers: `src/span.rt`, `specs/Spans.antt`; those that follow
//!   each other without a gap: `specs/Runs.antt`
//! - how they are divided into the widest prefixes: `src/divide.rt`, `specs/Tiles.antt`; that no
//!   fewer prefixes have them: `proofs/{Fewest,RunTiles}.antt`
//! - a set but for some exceptions: `src/except.rt`
#![tactic(auto)]

pub mod divide;
pub mod except;
pub mod prefix;
pub mod span;

pub use except::take_out;
pub use prefix::Prefix;
