//! What a type of keys offers, and the laws that it keeps.

pub use range_keys::inner::counted::{Counted, measure_counts_keys};
pub use range_keys::traits::{Bounded, Complete, MaybeBounded, Measure, PartialEnum};
