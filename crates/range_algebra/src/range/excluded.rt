//! Ranges whose start is excluded, for which Rust has no notation.

ghost use Rattle.std.specs.Prelude.{◌≡◌, ⊤};
ghost use Rattle.std.specs.declared.ops.Bound.TheVariants.{Included, Excluded, Unbounded};

use crate::any::AnyRange;
use crate::range::{AsRange, IntoRange};
use range_keys::traits::Measure;
use std::ops::{Bound, RangeBounds};

/// The keys above a start: those of `RangeFromExcluded::new(3)` are 4, 5 and so on.
#[derive(Drop)]
pub struct RangeFromExcluded<T> {
    /// The start, which the range does not hold.
    pub start: T,
}

impl<T> RangeFromExcluded<T> {
    /// The range above the start. Allocates nothing.
    pub const fn new(start: T) -> RangeFromExcluded<T>
        ensures { result.start ≡ start }
    {
        RangeFromExcluded { start }
    }
}

impl<T: Drop> RangeBounds<T> for RangeFromExcluded<T> {
    ghost has_bounds = { λ _. ⊤ };

    ghost start_bound = { λ r. Excluded r.start };

    ghost end_bound = { λ r. Unbounded };

    fn start_bound(&self) -> Bound<&T> {
        Bound::Excluded(&self.start)
    }

    fn end_bound(&self) -> Bound<&T> {
        Bound::Unbounded
    }
}

impl<T: Measure> AsRange for RangeFromExcluded<T> {
    type Item = T;

    ghost range = { λ r. record { start = Excluded r.start; end = Unbounded } };

    fn start(&self) -> Bound<&T> {
        Bound::Excluded(&self.start)
    }

    fn end(&self) -> Bound<&T> {
        Bound::Unbounded
    }
}

impl<T: Measure> IntoRange for RangeFromExcluded<T> {
    fn into_range(self) -> AnyRange<T> {
        AnyRange::new(Bound::Excluded(self.start), Bound::Unbounded)
    }
}

/// The keys above a start and below an end: those of `RangeFromExcludedTo::new(3, 6)` are 4 and 5.
#[derive(Drop)]
pub struct RangeFromExcludedTo<T> {
    /// The start, which the range does not hold.
    pub start: T,
    /// The end, which the range does not hold.
    pub end: T,
}

impl<T> RangeFromExcludedTo<T> {
    /// The range above the start and below the end. Allocates nothing.
    pub const fn new(start: T, end: T) -> RangeFromExcludedTo<T>
        ensures start { result.start ≡ start }
        ensures end { result.end ≡ end }
    {
        RangeFromExcludedTo { start, end }
    }
}

impl<T: Drop> RangeBounds<T> for RangeFromExcludedTo<T> {
    ghost has_bounds = { λ _. ⊤ };

    ghost start_bound = { λ r. Excluded r.start };

    ghost end_bound = { λ r. Excluded r.end };

    fn start_bound(&self) -> Bound<&T> {
        Bound::Excluded(&self.start)
    }

    fn end_bound(&self) -> Bound<&T> {
        Bound::Excluded(&self.end)
    }
}

impl<T: Measure> AsRange for RangeFromExcludedTo<T> {
    type Item = T;

    ghost range = { λ r. record { start = Excluded r.start; end = Excluded r.end } };

    fn start(&self) -> Bound<&T> {
        Bound::Excluded(&self.start)
    }

    fn end(&self) -> Bound<&T> {
        Bound::Excluded(&self.end)
    }
}

impl<T: Measure> IntoRange for RangeFromExcludedTo<T> {
    fn into_range(self) -> AnyRange<T> {
        AnyRange::new(Bound::Excluded(self.start), Bound::Excluded(self.end))
    }
}

/// The keys above a start, up to an end: those of `RangeFromExcludedToIncluded::new(3, 6)` are 4, 5
/// and 6.
#[derive(Drop)]
pub struct RangeFromExcludedToIncluded<T> {
    /// The start, which the range does not hold.
    pub start: T,
    /// The end, which the range holds.
    pub end: T,
}

impl<T> RangeFromExcludedToIncluded<T> {
    /// The range above the start up to the end, which it holds. Allocates nothing.
    pub const fn new(start: T, end: T) -> RangeFromExcludedToIncluded<T>
        ensures start { result.start ≡ start }
        ensures end { result.end ≡ end }
    {
        RangeFromExcludedToIncluded { start, end }
    }
}

impl<T: Drop> RangeBounds<T> for RangeFromExcludedToIncluded<T> {
    ghost has_bounds = { λ _. ⊤ };

    ghost start_bound = { λ r. Excluded r.start };

    ghost end_bound = { λ r. Included r.end };

    fn start_bound(&self) -> Bound<&T> {
        Bound::Excluded(&self.start)
    }

    fn end_bound(&self) -> Bound<&T> {
        Bound::Included(&self.end)
    }
}

impl<T: Measure> AsRange for RangeFromExcludedToIncluded<T> {
    type Item = T;

    ghost range = { λ r. record { start = Excluded r.start; end = Included r.end } };

    fn start(&self) -> Bound<&T> {
        Bound::Excluded(&self.start)
    }

    fn end(&self) -> Bound<&T> {
        Bound::Included(&self.end)
    }
}

impl<T: Measure> IntoRange for RangeFromExcludedToIncluded<T> {
    fn into_range(self) -> AnyRange<T> {
        AnyRange::new(Bound::Excluded(self.start), Bound::Included(self.end))
    }
}
