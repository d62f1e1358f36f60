//! The collections, generic in their container.

pub mod map;

pub use map::RangeMap;
pub use range_multimaps::multimap::{self, RangeMultiMap};
pub use range_sets::set::{self, RangeSet};
