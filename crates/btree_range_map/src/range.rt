//! Ranges of keys: their traits, bounds, order and algebra.

pub mod traits;

pub use range_algebra::range::{
    AsRange, Difference, IntoRange, Product, ProductArg, RangeFromExcluded, RangeFromExcludedTo,
    RangeFromExcludedToIncluded, RelativePosition,
};
pub use range_algebra::{any, ordering};
pub use range_keys::bound;
