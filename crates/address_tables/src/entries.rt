//! Entries of a table of prefixes.

use address_prefixes::Prefix;

/// A prefix, and the value of the addresses that it holds and no longer prefix does.
#[derive(PartialEq, Eq, Debug, Drop)]
pub struct Entry<A, V> {
    /// The prefix.
    pub prefix: Prefix<A>,
    /// The value.
    pub value: V,
}
