//! What the crates above need beyond the multimaps themselves.

pub use crate::multimap::disjoint::insert_set;
