//! Keys and bounds.

mod bounds;
mod values;
