//! Bounds and parts of ranges that are given by their bounds.

ghost use Rattle.std.specs.Prelude.{◌≡◌};
ghost use Rattle.std.specs.Option.{option_map, option_or};
ghost use Rattle.range_keys.specs.Position.{bound_of};
ghost use Rattle.range_algebra.specs.Compared.{flipped};
ghost use Rattle.range_algebra.specs.Combined.{later_start, earlier_end, common};
ghost use Rattle.range_algebra.specs.References.{range_of, difference_of, part_of, product_of};
ghost use Rattle.range_algebra.specs.Parts.{unless_empty, part_to, part_from, pieces, difference, product, full_product};
ghost use Rattle.range_algebra.specs.declared.range.parts.ProductArg.TheVariants.{Subject, Object};

use crate::any::AnyRange;
use crate::inner::{compare_bounds, starts_past_end};
use crate::range::{AsRange, Difference, Product, ProductArg};
use range_keys::bound::Directed;
use range_keys::traits::PartialEnum;
use std::ops::{Bound, RangeBounds};

/// The range over references to its bounds.
pub fn bounds_of<R: AsRange>(range: &R) -> AnyRange<&R::Item>
    ensures { range_of result ≡ R.range range.now }
{
    AnyRange::new(range.start(), range.end())
}

/// The range over references to its bounds.
pub fn by_reference<T: Drop>(range: &AnyRange<T>) -> AnyRange<&T>
    ensures { range_of result ≡ range.now }
{
    AnyRange::new(range.start_bound(), range.end_bound())
}

/// The bound on the other side of the same position.
fn flipped<'a, T>(bound: Bound<&'a T>) -> Option<Bound<&'a T>>
    ensures { option_map bound_of result ≡ flipped (bound_of bound.entry) }
{
    match bound {
        Bound::Included(key) => Some(Bound::Excluded(key)),
        Bound::Excluded(key) => Some(Bound::Included(key)),
        Bound::Unbounded => None,
    }
}

/// The later of two starts, or the first.
fn later_start<'a, T: PartialEnum>(first: Bound<&'a T>, second: Bound<&'a T>) -> Bound<&'a T>
    ensures { bound_of result ≡ later_start T.order (bound_of first.entry) (bound_of second.entry) }
{
    if Directed::Start(first).cmp(&Directed::Start(second)).is_lt() {
        second
    } else {
        first
    }
}

/// The earlier of two ends, or the first.
fn earlier_end<'a, T: PartialEnum>(first: Bound<&'a T>, second: Bound<&'a T>) -> Bound<&'a T>
    ensures { bound_of result ≡ earlier_end T.order (bound_of first.entry) (bound_of second.entry) }
{
    if Directed::End(first).cmp(&Directed::End(second)).is_gt() {
        second
    } else {
        first
    }
}

/// What two ranges have in common.
pub fn common<'a, T: PartialEnum>(
    first: AnyRange<&'a T>,
    second: AnyRange<&'a T>,
) -> AnyRange<&'a T>
    ensures { range_of result ≡ common T.order (range_of first.entry) (range_of second.entry) }
{
    AnyRange::new(
        later_start(first.start, second.start),
        earlier_end(first.end, second.end),
    )
}

/// The range, unless it is empty.
fn unless_empty<'a, T: PartialEnum>(range: AnyRange<&'a T>) -> Option<AnyRange<&'a T>>
    ensures { option_map range_of result ≡ unless_empty T.order (range_of range.entry) }
{
    if starts_past_end(range.start, range.end) {
        None
    } else {
        Some(range)
    }
}

/// What of the range lies before the start.
fn part_before<'a, T: PartialEnum>(
    range: AnyRange<&'a T>,
    start: Bound<&'a T>,
) -> Option<AnyRange<&'a T>>
    ensures { option_map range_of result
        ≡ part_to T.order (range_of range.entry) (flipped (bound_of start.entry)) }
{
    match flipped(start) {
        Some(end) => unless_empty(AnyRange::new(range.start, earlier_end(range.end, end))),
        None => None,
    }
}

/// What of the range lies after the end.
fn part_after<'a, T: PartialEnum>(
    range: AnyRange<&'a T>,
    end: Bound<&'a T>,
) -> Option<AnyRange<&'a T>>
    ensures { option_map range_of result
        ≡ part_from T.order (range_of range.entry) (flipped (bound_of end.entry)) }
{
    match flipped(end) {
        Some(start) => unless_empty(AnyRange::new(later_start(range.start, start), range.end)),
        None => None,
    }
}

/// The parts on the two sides of a range, and whether it was met.
fn pieces<'a, T: PartialEnum>(
    left: Option<AnyRange<&'a T>>,
    right: Option<AnyRange<&'a T>>,
    met: bool,
) -> Difference<&'a T>
    ensures { difference_of result
        ≡ pieces T.order (option_map range_of left.entry) (option_map range_of right.entry) met }
{
    match (left, right) {
        (None, None) => Difference::Empty,
        (Some(left), None) => Difference::Before(left, met),
        (None, Some(right)) => Difference::After(right, met),
        (Some(left), Some(right)) => Difference::Split(left, right),
    }
}

/// The first range without the second.
pub fn difference<'a, T: PartialEnum>(
    range: AnyRange<&'a T>,
    other: AnyRange<&'a T>,
) -> Difference<&'a T>
    ensures { difference_of result
        ≡ difference T.order (range_of range.entry) (range_of other.entry) }
{
    if starts_past_end(range.start, range.end) {
        return Difference::Empty;
    }
    if starts_past_end(other.start, other.end) {
        return Difference::Before(range, false);
    }
    let met = compare_bounds(range.start, range.end, other.start, other.end).matches(false);
    pieces(
        part_before(range, other.start),
        part_after(range, other.end),
        met,
    )
}

/// A part of the first range, or else one of the second.
fn either<'a, T: PartialEnum>(
    subject: Option<AnyRange<&'a T>>,
    object: Option<AnyRange<&'a T>>,
) -> Option<ProductArg<&'a T>>
    ensures { option_map part_of result
        ≡ option_or (option_map Subject (option_map range_of subject.entry))
        (option_map Object (option_map range_of object.entry)) }
{
    match (subject, object) {
        (Some(part), _) => Some(ProductArg::Subject(part)),
        (None, Some(part)) => Some(ProductArg::Object(part)),
        (None, None) => None,
    }
}

/// The parts of two nonempty ranges.
fn full_product<'a, T: PartialEnum>(
    range: AnyRange<&'a T>,
    other: AnyRange<&'a T>,
) -> Product<&'a T>
    ensures { product_of result
        ≡ full_product T.order (range_of range.entry) (range_of other.entry) }
{
    Product {
        before: either(
            part_before(range, other.start),
            part_before(other, range.start),
        ),
        intersection: unless_empty(common(range, other)),
        after: either(part_after(range, other.end), part_after(other, range.end)),
    }
}

/// The parts of two ranges.
pub fn product<'a, T: PartialEnum>(range: AnyRange<&'a T>, other: AnyRange<&'a T>) -> Product<&'a T>
    ensures { product_of result ≡ product T.order (range_of range.entry) (range_of other.entry) }
{
    if starts_past_end(range.start, range.end) {
        return Product {
            before: None,
            intersection: None,
            after: either(None, unless_empty(other)),
        };
    }
    if starts_past_end(other.start, other.end) {
        return Product {
            before: None,
            intersection: None,
            after: Some(ProductArg::Subject(range)),
        };
    }
    full_product(range, other)
}
