//! What the crates above need beyond the calls of ranges.

pub use crate::array::elements_of_array;
pub use crate::element::{element_from_json, pair_to_json};
pub use crate::range::element_range;
pub use crate::version::{elements_of_map, versioned};
