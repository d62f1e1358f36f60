//! Sets of IP addresses, and the prefixes that they have.
//!
//! [`Ipv4`] and [`Ipv6`] are the keys of `address_keys`, and an [`AddressSet`] is a set of such
//! keys. [`PrefixSet::prefixes`] goes over the prefixes that have just the addresses of a set, as
//! few as can be.
//!
//! Where to find what:
//!
//! - the prefixes of a set of addresses: `src/prefixes.rt`; what they are and that no fewer have
//!   its addresses, and a set but for some exceptions: `address_prefixes`
//! - the addresses that follow each other: `src/runs.rt`, `proofs/StoredRuns.antt`; how many
//!   addresses a set has: `src/count.rt`, `proofs/Counts.antt`
#![tactic(auto)]

pub mod count;
pub mod prefixes;
pub mod runs;

pub use address_keys::{Address, Ipv4, Ipv6};
pub use address_prefixes::{Prefix, except, take_out};
use btree_range_map::RangeSet;
pub use count::address_count;
pub use prefixes::{PrefixSet, Prefixes};
pub use runs::{Runs, run_around, runs_of};

/// A set of addresses of one family.
pub type AddressSet<A> = RangeSet<A>;
