//! What the crates above need beyond the public surface.

pub mod counted;
pub mod directed;
pub mod position;
