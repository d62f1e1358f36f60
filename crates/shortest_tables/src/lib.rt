//! The shortest table of prefixes that routes each address as a map says.
//!
//! Addresses are numbers of up to 128 bits, values are numbers, and a map is a list of spans. What
//! stands above it gives these their types.
//!
//! Where to find what:
//!
//! - maps as spans: `src/spans.rt`, `specs/Numbers.antt`
//! - what a table routes, and which is the shortest: `src/entries.rt`,
//!   `specs/{Tables,Entries}.antt`
//! - the labels with which a block needs fewest entries: `src/labels.rt`, `specs/Labels.antt`
//! - the labels of all blocks, from the bottom up: `src/{gather,marks}.rt`, `specs/Trees.antt`; the
//!   entries, from the top down: `src/write.rt`
//! - the table: `src/shortest.rt`; that it routes as the map, and that none that does is shorter:
//!   `proofs/{Made,Least,Theorem,Numbered}.antt`
#![tactic(auto)]

mod entries;
mod gather;
mod labels;
mod marks;
mod shortest;
mod spans;
mod write;

pub use entries::Entry;
pub use shortest::shortest_table;
pub use spans::Span;
