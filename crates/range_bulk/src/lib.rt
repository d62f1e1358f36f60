//! Lists of stored ranges as a whole: put after one another, cut in two, and built of ranges in
//! order. All of it goes by a container, and knows no map.
//!
//! Where to find what:
//!
//! - one list moved to the end of another, and an item put after the others of a list:
//!   `src/append.rt`, `specs/Appending.antt`, `proofs/{AppendedLists,JoinedItems}.antt`
//! - a list cut in two at a key: `src/split.rt`, `specs/Splitting.antt`, `proofs/SplitLists.antt`
//! - a list of ranges that are in order, and the first that is not: `src/sorted.rt`,
//!   `specs/Sorting.antt`, `proofs/SortedLists.antt`
//! - nonempty ranges, each before all that follow: `proofs/Ascending.antt`
//! - which keys a list binds, by its parts: `proofs/BoundKeys.antt`
#![tactic(auto)]

pub mod append;
pub mod sorted;
pub mod split;
