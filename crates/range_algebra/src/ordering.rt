//! How ranges lie to one another.

ghost use Rattle.std.specs.Prelude.{◌≡◌, Some};
ghost use Rattle.range_algebra.specs.Compared.{range_ordering, is_before, is_after, matches};
ghost use Rattle.range_algebra.specs.declared.any.AnyRange.{AnyRange};

use crate::inner::compare_ranges;
pub use crate::laws::{comparisons_order_keys, touching_ranges_are_joined};
use crate::range::AsRange;
use range_keys::traits::Measure;

/// Where a range lies to another.
///
/// The flag of `Before` and `After` says whether the two touch, with no key between them. The flags
/// of `Intersecting` say whether the starts and whether the ends are equal.
#[derive(Clone, Copy, PartialEq, Eq, Debug)]
pub enum RangeOrdering {
    Before(bool),
    Intersecting(bool, bool),
    After(bool),
}

impl RangeOrdering {
    /// Whether the range lies before the other, where touching ranges count as one if `connected`.
    ///
    /// `Before(true).is_before(false)` is true, and `Before(true).is_before(true)` is not.
    pub fn is_before(&self, connected: bool) -> bool
        ensures { result ≡ is_before self.now connected }
    {
        match self {
            RangeOrdering::Before(touching) => !*touching || !connected,
            _ => false,
        }
    }

    /// Whether the range lies after the other, where touching ranges count as one if `connected`.
    pub fn is_after(&self, connected: bool) -> bool
        ensures { result ≡ is_after self.now connected }
    {
        match self {
            RangeOrdering::After(touching) => !*touching || !connected,
            _ => false,
        }
    }

    /// Whether the two ranges intersect, or touch, if `connected`.
    pub fn matches(&self, connected: bool) -> bool
        ensures { result ≡ matches self.now connected }
    {
        match self {
            RangeOrdering::Before(touching) => *touching && connected,
            RangeOrdering::After(touching) => *touching && connected,
            RangeOrdering::Intersecting(_, _) => true,
        }
    }
}

/// What can be compared with ranges of keys `T`.
///
/// Ranges are compared by the positions of their bounds, so `0..10` and `0..=9` over integers have
/// equal starts and equal ends.
///
/// ```text
/// (0..10).range_partial_cmp(&(10..20))    Some(RangeOrdering::Before(true))
/// (11..20).range_partial_cmp(&(0..10))    Some(RangeOrdering::After(false))
/// (0..10).range_partial_cmp(&(0..=9))     Some(RangeOrdering::Intersecting(true, true))
/// ```
pub trait RangePartialOrd<T: Measure> {
    // The range by its bounds.
    ghost compared: { Self → AnyRange T };

    /// Where this range lies to the other, which is always known.
    fn range_partial_cmp<R: AsRange<Item = T>>(&self, other: &R) -> Option<RangeOrdering>
        ensures { result ≡ Some (range_ordering T.order (compared self.now) (R.range other.now)) };
}

impl<S: AsRange> RangePartialOrd<S::Item> for S {
    ghost compared = { S.range };

    fn range_partial_cmp<R: AsRange<Item = S::Item>>(&self, other: &R) -> Option<RangeOrdering> {
        Some(compare_ranges(self, other))
    }
}
