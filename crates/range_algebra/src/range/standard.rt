//! The ranges of the standard library, and ranges by their bounds.

ghost use Rattle.std.specs.Range.{range_inclusive_start, range_inclusive_end};
ghost use Rattle.std.specs.declared.ops.Bound.TheVariants.{Included, Excluded, Unbounded};

use crate::any::AnyRange;
use crate::range::{AsRange, IntoRange};
use range_keys::traits::Measure;
use std::ops::{Bound, Range, RangeBounds, RangeFrom, RangeInclusive, RangeTo, RangeToInclusive};

impl<T: Measure> AsRange for Range<T> {
    type Item = T;

    ghost range = { λ r. record { start = Included r.start; end = Excluded r.end } };

    fn start(&self) -> Bound<&T> {
        Bound::Included(&self.start)
    }

    fn end(&self) -> Bound<&T> {
        Bound::Excluded(&self.end)
    }
}

impl<T: Measure> IntoRange for Range<T> {
    fn into_range(self) -> AnyRange<T> {
        AnyRange::new(Bound::Included(self.start), Bound::Excluded(self.end))
    }
}

/// The range between the two keys, whether or not it was iterated before.
impl<T: Measure> AsRange for RangeInclusive<T> {
    type Item = T;

    ghost range = { λ r. record {
      start = Included (range_inclusive_start r);
      end = Included (range_inclusive_end r);
    } };

    fn start(&self) -> Bound<&T> {
        Bound::Included(RangeInclusive::start(self))
    }

    fn end(&self) -> Bound<&T> {
        Bound::Included(RangeInclusive::end(self))
    }
}

impl<T: Measure> IntoRange for RangeInclusive<T> {
    fn into_range(self) -> AnyRange<T> {
        let (start, end) = self.into_inner();
        AnyRange::new(Bound::Included(start), Bound::Included(end))
    }
}

impl<T: Measure> AsRange for RangeFrom<T> {
    type Item = T;

    ghost range = { λ r. record { start = Included r.start; end = Unbounded } };

    fn start(&self) -> Bound<&T> {
        Bound::Included(&self.start)
    }

    fn end(&self) -> Bound<&T> {
        Bound::Unbounded
    }
}

impl<T: Measure> IntoRange for RangeFrom<T> {
    fn into_range(self) -> AnyRange<T> {
        AnyRange::new(Bound::Included(self.start), Bound::Unbounded)
    }
}

impl<T: Measure> AsRange for RangeTo<T> {
    type Item = T;

    ghost range = { λ r. record { start = Unbounded; end = Excluded r.end } };

    fn start(&self) -> Bound<&T> {
        Bound::Unbounded
    }

    fn end(&self) -> Bound<&T> {
        Bound::Excluded(&self.end)
    }
}

impl<T: Measure> IntoRange for RangeTo<T> {
    fn into_range(self) -> AnyRange<T> {
        AnyRange::new(Bound::Unbounded, Bound::Excluded(self.end))
    }
}

impl<T: Measure> AsRange for RangeToInclusive<T> {
    type Item = T;

    ghost range = { λ r. record { start = Unbounded; end = Included r.end } };

    fn start(&self) -> Bound<&T> {
        Bound::Unbounded
    }

    fn end(&self) -> Bound<&T> {
        Bound::Included(&self.end)
    }
}

impl<T: Measure> IntoRange for RangeToInclusive<T> {
    fn into_range(self) -> AnyRange<T> {
        AnyRange::new(Bound::Unbounded, Bound::Included(self.end))
    }
}

impl<T: Measure> AsRange for AnyRange<T> {
    type Item = T;

    ghost range = { λ r. r };

    fn start(&self) -> Bound<&T> {
        self.start_bound()
    }

    fn end(&self) -> Bound<&T> {
        self.end_bound()
    }
}

impl<T: Measure> IntoRange for AnyRange<T> {
    fn into_range(self) -> AnyRange<T> {
        self
    }
}

/// The range that is referred to, as one that a map lends.
impl<'a, R: AsRange> AsRange for &'a R {
    type Item = R::Item;

    ghost range = { λ r. R.range r.now };

    fn start(&self) -> Bound<&R::Item> {
        R::start(*self)
    }

    fn end(&self) -> Bound<&R::Item> {
        R::end(*self)
    }
}

impl<'a, R: IntoRange + Copy> IntoRange for &'a R {
    fn into_range(self) -> AnyRange<R::Item> {
        R::into_range(*self)
    }
}
