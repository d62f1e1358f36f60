//! What is asked of keys that cross to C.

use address_keys::Ipv6;
use btree_range_map::range::traits::{Bounded, Complete, Measure};

/// A type of keys that cross to C, which are copied as they are.
pub trait Key: Measure + Complete + Bounded + Clone + Copy {}

impl Key for u64 {}

impl Key for i64 {}

/// Keys of 128 bits.
impl Key for Ipv6 {}
