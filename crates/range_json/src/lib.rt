//! Keys, values, ranges and elements of maps as JSON values, and what JSON values are read as.
//!
//! Where to find what:
//!
//! - what a key or a plain value is written as: `src/{unsigned,signed,characters,plain}.rt`,
//!   `specs/Keys.antt`, read back by `specs/ReadBack.antt`
//! - bounds and ranges as JSON values: `src/{bound,range}.rt`, `specs/Shapes.antt`; their faults in
//!   `specs/Faults.antt`
//! - the two shapes of a map, its elements and its faults: `src/{version,element}.rt`,
//!   `specs/MapFaults.antt`
//! - what an error of JSON found, in the value that it is given again:
//!   `src/{explanation,found}.rt`
//! - which earlier element one meets, looked for by the explanation alone: `src/meeting.rt`,
//!   `specs/Meetings.antt`, `proofs/Meetings.antt`
//! - std's `BTreeSet` as an array of its values: `src/value_set.rt`,
//!   `specs/{ValueSets,SetReadBack}.antt`, `proofs/ValueSets.antt`
//! - what is written is read back: laws for users: `src/laws.rt`, `specs/{Laws,Values}.antt`,
//!   `proofs/{Keeping,ReadingBack,Exact}.antt`
#![tactic(auto)]

mod array;
mod bound;
mod characters;
mod element;
mod error;
mod explanation;
mod found;
pub mod inner;
pub mod json;
mod laws;
mod meeting;
mod plain;
mod range;
mod signed;
mod unsigned;
mod value_set;
mod version;
