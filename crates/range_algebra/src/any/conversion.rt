//! Conversions from the ranges of the standard library.

ghost use Rattle.std.specs.Prelude.{◌≡◌};
ghost use Rattle.std.specs.Range.{range_inclusive_start, range_inclusive_end};
ghost use Rattle.std.specs.declared.ops.Bound.TheVariants.{Included, Excluded, Unbounded};

use crate::any::AnyRange;
use std::ops::{Bound, Range, RangeFrom, RangeFull, RangeInclusive, RangeTo, RangeToInclusive};

impl<T: Drop> From<Range<T>> for AnyRange<T> {
    ghost from_gives = { λ r s. s ≡ record { start = Included r.start; end = Excluded r.end } };

    fn from(value: Range<T>) -> AnyRange<T> {
        AnyRange::new(Bound::Included(value.start), Bound::Excluded(value.end))
    }
}

impl<T: Drop> From<RangeFrom<T>> for AnyRange<T> {
    ghost from_gives = { λ r s. s ≡ record { start = Included r.start; end = Unbounded } };

    fn from(value: RangeFrom<T>) -> AnyRange<T> {
        AnyRange::new(Bound::Included(value.start), Bound::Unbounded)
    }
}

impl<T: Drop> From<RangeTo<T>> for AnyRange<T> {
    ghost from_gives = { λ r s. s ≡ record { start = Unbounded; end = Excluded r.end } };

    fn from(value: RangeTo<T>) -> AnyRange<T> {
        AnyRange::new(Bound::Unbounded, Bound::Excluded(value.end))
    }
}

impl<T: Drop> From<RangeToInclusive<T>> for AnyRange<T> {
    ghost from_gives = { λ r s. s ≡ record { start = Unbounded; end = Included r.end } };

    fn from(value: RangeToInclusive<T>) -> AnyRange<T> {
        AnyRange::new(Bound::Unbounded, Bound::Included(value.end))
    }
}

impl<T: Drop> From<RangeInclusive<T>> for AnyRange<T> {
    ghost from_gives = { λ r s. s
        ≡ record {
          start = Included (range_inclusive_start r);
          end = Included (range_inclusive_end r);
        } };

    fn from(value: RangeInclusive<T>) -> AnyRange<T> {
        let (start, end) = value.into_inner();
        AnyRange::new(Bound::Included(start), Bound::Included(end))
    }
}

impl<T: Drop> From<RangeFull> for AnyRange<T> {
    ghost from_gives = { λ _ s. s ≡ record { start = Unbounded; end = Unbounded } };

    fn from(_: RangeFull) -> AnyRange<T> {
        AnyRange::new(Bound::Unbounded, Bound::Unbounded)
    }
}
