//! The ordered containers that a map can stand on.

pub use range_store::storage::{Chunk, Item, Probe, Run, Steps, Storage};
pub use range_store::vec_storage::VecStorage;
