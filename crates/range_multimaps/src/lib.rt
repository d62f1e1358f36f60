//! Relations between keys and values, on the contract of the map alone.
//!
//! Where to find what:
//!
//! - clones of strings, tuples, vectors and sets equal their source, for those who keep such
//!   values: `specs/EqualClones.antt`, used for sets as values by `tour/src/set_values.rt`
//! - multimaps made of two: `src/multimap/algebra.rt`, over `update` of the map and `SetAlgebra`;
//!   `specs/Pairs.antt`, `proofs/PairsTogether.antt`
//! - which values a multimap's sets have: std's sets as lists: `src/members/`, laws in
//!   `specs/ListedMembers.antt`
//! - what a multimap asks of a type of sets, and std's two that have it: `src/members.rt` and
//!   `members/`, `specs/{Members,ListedMembers}.antt`; a type outside the library:
//!   `odd_keys/src/rights.rt`
//! - a multimap: one `update` of a map of sets for each change, on the map's public contract
//!   alone: `src/multimap.rt` and `multimap/`, `specs/Pairs.antt`, `proofs/{Pairing,Keeping}.antt`
//! - the last unrefused call on a pair says whether it is there: a law for users:
//!   `src/multimap/laws.rt`, `specs/Calls.antt`, `proofs/CallHistories.antt`
#![tactic(auto)]

pub mod inner;
mod members;
pub mod multimap;
