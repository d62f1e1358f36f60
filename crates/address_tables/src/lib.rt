//! Tables of IP addresses: maps of addresses to values, and the prefixes with values that route
//! each address as such a map says.
//!
//! Where to find what:
//!
//! - what a prefix with a value is, and where such prefixes route an address: `src/entries.rt`,
//!   `specs/Tables.antt`
//! - the table that prefixes with values are, each address by the longest: `src/longest.rt`
//! - the prefixes that a table is, none of which overlap: `src/disjoint.rt`
//! - the shortest table of prefixes there is: `src/shortest_prefixes.rt`; its values and ranges as numbers:
//!   `src/{values,spans}.rt`, `specs/Numbers.antt`
#![tactic(auto)]

pub mod disjoint;
pub mod entries;
pub mod longest;
pub mod shortest_prefixes;
mod spans;
mod values;

pub use address_keys::{Address, Ipv4, Ipv6};
pub use address_prefixes::Prefix;
use btree_range_map::RangeMap;
pub use disjoint::disjoint_prefixes;
pub use entries::Entry;
pub use longest::from_prefixes;
pub use shortest_prefixes::{shortest, shortest_with};

/// A map of addresses of one family to values.
pub type AddressTable<A, V> = RangeMap<A, V>;
