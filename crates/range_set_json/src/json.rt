//! Ranges, sets, maps and multimaps as JSON values.

pub use crate::laws::{multimaps_are_read_back, read_multimaps_have_no_fault, sets_are_read_back};
pub use crate::multimap::{multimap_from_json, multimap_to_json};
pub use crate::set::{set_from_json, set_to_json};
pub use json_trees::{Scratch, TextError, parse};
pub use range_json::json::{
    Explanation, Json, JsonError, JsonTree, ReadError, ReadsBack, maps_are_read_back,
    range_from_json, range_to_json, ranges_are_read_back, read_maps_have_no_fault,
};
pub use range_map_json::map::{map_from_json, map_to_json};
pub use range_map_json::overwriting::map_from_json_overwriting;
