//! Maps and sets of ranges behind handles, for callers from other languages, and lexers.
//!
//! A handle is a struct of the caller's own: closed, or open on a collection whose type the caller
//! does not see. A call on a collection that may be of another kind answers by a status of
//! `range_ffi`, by which ranges cross too.
//!
//! Where to find what:
//!
//! - the handle of a caller in C: a box of a map or a set whose type C does not see, or nothing:
//!   `src/{handle,seal,unboxed}.rt`, `specs/Seals.antt`; how a call reaches it where it lies:
//!   `src/seal/lend.rt`, `specs/Lending.antt`; what it holds in `specs/Held.antt`, that no fewer
//!   ranges would do in `specs/Fewest.antt`
//! - what is asked of a map, and of a set as the map of its keys to nothing, each call said once for
//!   all keys and values: `src/reads.rt`; many ranges at once in `src/batch.rt`,
//!   `proofs/Fills.antt`
//! - what is done to a map or a set of any kind of keys, each call said once:
//!   `src/{kept_map,kept_set}.rt`, `proofs/Many.antt`; a map made at once of ranges in order:
//!   `src/in_order.rt`, `proofs/InOrder.antt`; what is made of two maps in
//!   `src/kept_map/together.rt`, `specs/MapKinds.antt`; what two sets are asked in
//!   `src/kept_set/algebra.rt`, `specs/SetKinds.antt`
//! - what a handle of any kind is saved as and loaded from: `src/collection.rt`,
//!   `specs/Texts.antt`, `btree_range_map_c/src/exports/any.rt`; that such a text has no float in
//!   `proofs/Floats.antt`
#![tactic(auto)]

mod batch;
pub mod collection;
pub mod handle;
mod in_order;
pub mod kept_map;
pub mod kept_set;
pub mod key;
pub mod reads;
pub mod seal;
mod unboxed;
