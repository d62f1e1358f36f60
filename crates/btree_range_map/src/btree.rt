//! The B-tree in which a map keeps its ranges.

pub use range_tree::btree::BoxStorage;
