//! Callers of single ranges.

use btree_range_map::{AnyRange, AsRange, RangeFromExcluded, RangeFromExcludedToIncluded};
use std::alloc::AllocError;
use std::cmp::Ordering;
use std::ops::{Bound, Range, RangeBounds};

fn holds(range: &AnyRange<u8>) -> bool {
    range.contains(&3)
}

fn read_from(range: RangeFromExcluded<u8>) -> Result<AnyRange<u8>, AllocError> {
    AnyRange::from(range)
}

fn order(range: &AnyRange<u8>, other: &AnyRange<u8>) -> Ordering {
    range.cmp(other)
}

fn up_to(start: u8, last: u8) -> bool {
    AsRange::is_empty(&RangeFromExcludedToIncluded::new(start, last))
}

fn bounds_of(range: &Range<u8>) -> (Bound<&u8>, Bound<&u8>) {
    (AsRange::start(range), AsRange::end(range))
}
