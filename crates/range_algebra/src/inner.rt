//! What the crates above need beyond the public surface.

ghost use Rattle.std.specs.Prelude.{◌≡◌, ◌↔◌, IsTrue, MatchResult};
ghost use Rattle.range_keys.specs.Position.{bound_of, start_position};
ghost use Rattle.range_algebra.specs.Clones.{IsBoundClone, IsBoundInfallible};
ghost use Rattle.range_algebra.specs.Compared.{range_ordering, bounds_ordering, starts_at_end, starts_past_end};
ghost use Rattle.range_algebra.specs.Range.{Holds, LiesWithin, IsBoundOfKey, IsKeyRange};

use crate::any::AnyRange;
use crate::ordering::RangeOrdering;
use crate::range::AsRange;
use range_keys::bound::Directed;
use range_keys::traits::PartialEnum;
use std::alloc::AllocError;
use std::ops::{Bound, RangeBounds};

/// Does nothing, and promises that the bound's value is a key.
pub fn known_bound<T: PartialEnum>(bound: Bound<&T>)
    ensures { IsBoundOfKey T.order (bound_of bound.entry) }
{
    match bound {
        Bound::Included(key) | Bound::Excluded(key) => key.known(),
        Bound::Unbounded => (),
    }
}

/// Does nothing, and promises that the bounds are keys.
pub fn known<T: PartialEnum>(range: &AnyRange<T>)
    ensures { IsKeyRange T.order range.now }
{
    known_bound(range.start_bound());
    known_bound(range.end_bound());
}

/// Does nothing, and promises that the bounds are keys.
pub fn known_range<R: AsRange>(range: &R)
    ensures { IsKeyRange R.Item.order (R.range range.now) }
{
    known_bound(range.start());
    known_bound(range.end());
}

/// Whether the range holds the key.
pub fn holds<T: PartialEnum>(range: &AnyRange<T>, key: &T) -> bool
    ensures held { IsTrue result ↔ Holds T.order range.now key.now }
    ensures by_position { IsTrue result ↔ LiesWithin T.order range.now key.now }
{
    key.known();
    range.contains(key)
}

/// A clone of the bound's value, in a bound of the same kind.
pub fn clone_bound<T: Clone>(bound: &Bound<T>) -> Result<Bound<T>, AllocError>
    ensures { MatchResult result (IsBoundClone T.is_clone bound.now)
        (λ _. IsBoundInfallible T.is_infallible bound.now → ⊥) }
{
    clone_of(bound.as_ref())
}

/// A clone of what the bound refers to, in a bound of the same kind.
pub fn clone_of<T: Clone>(bound: Bound<&T>) -> Result<Bound<T>, AllocError>
    ensures { MatchResult result (IsBoundClone T.is_clone (bound_of bound.entry))
        (λ _. IsBoundInfallible T.is_infallible (bound_of bound.entry) → ⊥) }
{
    Ok(match bound {
        Bound::Included(key) => Bound::Included(key.clone()?),
        Bound::Excluded(key) => Bound::Excluded(key.clone()?),
        Bound::Unbounded => Bound::Unbounded,
    })
}

/// Whether the start bound lies past the end bound.
pub fn starts_past_end<T: PartialEnum>(start: Bound<&T>, end: Bound<&T>) -> bool
    ensures { result ≡ starts_past_end T.order (bound_of start.entry) (bound_of end.entry) }
{
    Directed::Start(start).cmp(&Directed::End(end)).is_gt()
}

/// Whether a range that starts at the start bound touches one that ends at the end bound.
pub fn starts_at_end<T: PartialEnum>(end: Bound<&T>, start: Bound<&T>) -> bool
    ensures { result
        ≡ starts_at_end T.order (bound_of end.entry)
        (start_position T.order (bound_of start.entry)) }
{
    if let (Bound::Excluded(end), Bound::Included(start)) = (end, start) {
        return *end == *start;
    }
    let flipped = match end {
        Bound::Included(key) => Bound::Excluded(key),
        Bound::Excluded(key) => Bound::Included(key),
        Bound::Unbounded => return false,
    };
    Directed::Start(flipped) == Directed::Start(start)
}

/// Compares two ranges by their bounds.
pub fn compare_ranges<R: AsRange, S: AsRange<Item = R::Item>>(left: &R, right: &S) -> RangeOrdering
    ensures { result ≡ range_ordering R.Item.order (R.range left.now) (S.range right.now) }
{
    compare_bounds(left.start(), left.end(), right.start(), right.end())
}

/// Compares two ranges, each given by its bounds.
pub fn compare_bounds<T: PartialEnum>(
    left: Bound<&T>,
    left_end: Bound<&T>,
    right: Bound<&T>,
    right_end: Bound<&T>,
) -> RangeOrdering
    ensures { result
        ≡ bounds_ordering T.order (bound_of left.entry) (bound_of left_end.entry)
        (bound_of right.entry) (bound_of right_end.entry) }
{
    let start = Directed::Start(left);
    let other_start = Directed::Start(right);
    let starts = start.cmp(&other_start);
    let end = Directed::End(left_end);
    let other_end = Directed::End(right_end);
    let ends = end.cmp(&other_end);
    if starts.is_lt() {
        if end.cmp(&other_start).is_lt() {
            RangeOrdering::Before(starts_at_end(left_end, right))
        } else {
            RangeOrdering::Intersecting(false, ends.is_eq())
        }
    } else if start.cmp(&other_end).is_gt() {
        RangeOrdering::After(starts_at_end(right_end, left))
    } else {
        RangeOrdering::Intersecting(starts.is_eq(), ends.is_eq())
    }
}
