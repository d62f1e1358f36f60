//! Entries of a table.

/// A prefix, and the value of the addresses that it holds and no longer prefix does.
#[derive(Clone, Copy, PartialEq, Eq, Debug)]
pub struct Entry<V> {
    /// The first address of the prefix.
    pub network: u128,
    /// How many bits are the same in all its addresses.
    pub length: u8,
    /// Their value.
    pub value: V,
}
