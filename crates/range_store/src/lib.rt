//! An ordered container, seen as a list of items with capacity to spare.
//!
//! Where to find what:
//!
//! - the container's contract: `src/storage.rt`
//! - a sorted vector: `src/vec_storage.rt`; a B-tree: the crate `range_tree`
//! - a run of items that others replace: `src/inner/cursor.rt`
//! - the items after a position that lie together: `Run` and `chunk_from` in `src/storage.rt`;
//!   the iterator `range_reads/src/iter.rt`
//! - what a step is, and who counts it: `specs/Counting.antt`; a search by its probe, a
//!   comparison in `{range_runs/src/window,range_edit/src/{reach,borders}}.rt`
#![tactic(auto)]

pub mod inner;
pub mod storage;
pub mod vec_storage;
