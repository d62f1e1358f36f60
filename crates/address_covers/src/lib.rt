//! The addresses of a set and others, such that few prefixes have them.
//!
//! Where to find what:
//!
//! - how few prefixes have the addresses of a set, and which sets add the fewest:
//!   `src/cover.rt`, `specs/Covers.antt`; how many addresses a set has: `proofs/Numbers.antt`
//! - sets and blocks of numbers: `src/blocks.rt`, `specs/Blocks.antt`; the blocks that add the
//!   fewest numbers: the crate `least_covers`
#![tactic(auto)]

mod blocks;
pub mod cover;

pub use cover::{Cover, least_cover};
