//! What is read of the ranges that a container stores, and changes nothing.
//!
//! Where to find what:
//!
//! - the item that holds a key, and whether a range meets an item, with the steps that it takes:
//!   `src/lookup.rt`
//! - the items from both ends, lent or moved out: `src/{iter,into_iter}.rt`,
//!   `specs/Iteration.antt`, `proofs/Chunks.antt`
//! - what the items leave free, of all keys and of a range: `src/{gaps,gaps_within}.rt`,
//!   `specs/{FreeRanges,PieceLists}.antt`
//! - equality, order and hash of lists: `src/compare.rt`, `specs/ListOrder.antt`
#![tactic(auto)]

pub mod compare;
pub mod gaps;
pub mod gaps_within;
pub mod into_iter;
pub mod iter;
pub mod lookup;
