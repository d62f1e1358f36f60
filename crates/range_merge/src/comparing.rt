//! How bounds of ranges compare: by their keys where that tells, else by their positions.
ghost use Rattle.std.specs.Prelude.{◌≡◌};
ghost use Rattle.std.specs.Ordering.{is_gt};
ghost use Rattle.std.specs.declared.ops.Bound.TheVariants.{Excluded, Included};
ghost use Rattle.range_keys.specs.Position.{bound_of, end_position, position_cmp, start_position};

use range_keys::bound::Directed;
use range_keys::traits::PartialEnum;
use std::cmp::Ordering;
use std::ops::Bound;

/// How the position just past a key compares with another key.
#[inline(always)]
fn compare_past<K: PartialEnum>(key: &K, other: &K) -> Ordering
    ensures { result
        ≡ position_cmp K.order.cmp (start_position K.order (Excluded key.now))
        (start_position K.order (Included other.now)) }
{
    match key.succ() {
        Some(next) => next.cmp(other),
        None if key.cmp(other).is_lt() => Ordering::Less,
        None => Ordering::Greater,
    }
}

/// How the positions of two starts compare.
#[inline(always)]
pub fn compare_starts<K: PartialEnum>(start: Bound<&K>, other: Bound<&K>) -> Ordering
    ensures { result
        ≡ position_cmp K.order.cmp (start_position K.order (bound_of start.entry))
        (start_position K.order (bound_of other.entry)) }
{
    match (start, other) {
        (Bound::Included(key), Bound::Included(other_key)) => key.cmp(other_key),
        (Bound::Excluded(key), Bound::Included(other_key)) => compare_past(key, other_key),
        (Bound::Included(key), Bound::Excluded(other_key)) => {
            compare_past(other_key, key).reverse()
        }
        _ => Directed::Start(start).cmp(&Directed::Start(other)),
    }
}

/// How the positions of two ends compare.
#[inline(always)]
pub fn compare_ends<K: PartialEnum>(end: Bound<&K>, other: Bound<&K>) -> Ordering
    ensures { result
        ≡ position_cmp K.order.cmp (end_position K.order (bound_of end.entry))
        (end_position K.order (bound_of other.entry)) }
{
    match (end, other) {
        (Bound::Included(key), Bound::Included(other_key)) => key.cmp(other_key),
        (Bound::Excluded(key), Bound::Excluded(other_key)) => {
            key.known();
            other_key.known();
            key.cmp(other_key)
        }
        _ => Directed::End(end).cmp(&Directed::End(other)),
    }
}

/// Whether a start lies past an end.
#[inline(always)]
pub fn starts_past<K: PartialEnum>(start: Bound<&K>, end: Bound<&K>) -> bool
    ensures { result
        ≡ is_gt (position_cmp K.order.cmp (start_position K.order (bound_of start.entry))
        (end_position K.order (bound_of end.entry))) }
{
    match (start, end) {
        (Bound::Included(first), Bound::Included(last)) => first.cmp(last).is_gt(),
        (Bound::Included(first), Bound::Excluded(past)) => {
            first.known();
            first.cmp(past).is_ge()
        }
        _ => Directed::Start(start).cmp(&Directed::End(end)).is_gt(),
    }
}
