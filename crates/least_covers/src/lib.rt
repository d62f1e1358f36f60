//! The blocks of numbers that cover some runs and add the fewest numbers, of at most so many.
//!
//! A block holds the numbers that begin with the first bits of its network.
//!
//! Where to find what:
//!
//! - runs of numbers: `src/runs.rt`, `specs/Runs.antt`; blocks, what they cover and how many
//!   numbers they hold: `src/blocks.rt`, `specs/Covers.antt`
//! - how many numbers a block takes in addition with one prefix, with two and so on:
//!   `src/rows.rt`, `specs/Rows.antt`; that no prefixes add fewer: `proofs/{Halves,Joins,Bounds}.antt`
//! - the rows of all blocks, from the bottom up: `src/{gather,marks}.rt`, `specs/Trees.antt`; the
//!   blocks that are chosen, from the top down: `src/write.rt`, `proofs/Made.antt`
//! - the blocks that add the fewest numbers: `src/least.rt`
#![tactic(auto)]

pub mod blocks;
mod gather;
pub mod least;
mod marks;
mod rows;
mod runs;
mod write;

pub use blocks::Block;
pub use least::{Cover, least_cover};
