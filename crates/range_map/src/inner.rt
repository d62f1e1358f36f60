//! What the crates above need beyond the map itself.

pub mod append;
pub mod build;
pub mod onward;
pub mod relate;
pub mod scan;
