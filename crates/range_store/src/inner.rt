//! What the crates above need beyond the container itself.

pub mod cursor;
