//! The measure of a range.

ghost use Rattle.std.specs.Prelude.{◌≡◌, ◌↔◌, Some, IsNone, IsSomeAnd};
ghost use Rattle.std.specs.Range.Bound.{bound_map};
ghost use Rattle.range_keys.specs.Counted.{IsCountedMeasure};
ghost use Rattle.range_keys.specs.Position.{bound_of, key_value, start_position, end_position, position_cmp};
ghost use Rattle.range_algebra.specs.Intervals.{Le};
ghost use Rattle.range_algebra.specs.Measures.{closed_by, measure_between, range_measure, HasUnknownEnd};
ghost use Rattle.range_algebra.specs.Numbers.{IsNumberOfKeys};
ghost use Rattle.range_algebra.specs.Range.{IsEmptyRange, IsBoundOfKey, Holds};

use crate::any::AnyRange;
use crate::inner;
use range_keys::inner::position::KeyRef;
use range_keys::traits::{Bounded, MaybeBounded, Measure, PartialEnum};
use std::ops::{Bound, RangeBounds};

impl<T: Measure + Bounded> AnyRange<T> {
    /// How much the range measures: over the shipped keys, each of which has length 1, the number
    /// of keys that it holds.
    ///
    /// Over keys of other lengths it is the distance from the start's key to the end's, in the unit
    /// of `Measure::len`. The length of an excluded start is taken off, and that of an included end
    /// added. An unbounded bound stands for the least or the greatest key of the type, included. An
    /// empty range, as `8..3`, measures 0. The call allocates nothing, and the same few steps for
    /// any range.
    ///
    /// ```
    /// assert!(rt; AnyRange::new(Bound::Included(10u8), Bound::Unbounded).len() == 246);
    /// ```
    pub fn len(&self) -> u128
        ensures measure { range_measure T.order T.len T.distance self.now ≡ Some result }
        ensures empty { IsEmptyRange T.order self.now → result ≡ 0 }
        ensures counted { IsCountedMeasure T.order T.len T.distance
            → IsNumberOfKeys T.order (Holds T.order self.now) result }
    {
        self.bounded_len().unwrap()
    }
}

impl<T: Measure> AnyRange<T> {
    /// How much the range measures, as `len` says, or `None` where it is unbounded towards an end
    /// that is not known.
    ///
    /// An empty range is not unbounded towards such an end, so it measures `Some(0)`. The call
    /// allocates nothing.
    ///
    /// ```
    /// let above: AnyRange<u64> = AnyRange::new(Bound::Excluded(2), Bound::Included(5));
    /// assert!(rt; above.bounded_len() == Some(3));
    /// ```
    pub fn bounded_len(&self) -> Option<u128>
        ensures measure { result ≡ range_measure T.order T.len T.distance self.now }
        ensures empty { IsEmptyRange T.order self.now → result ≡ Some 0 }
        ensures unknown { IsNone result ↔ HasUnknownEnd T.order self.now }
        ensures counted { IsCountedMeasure T.order T.len T.distance
            → IsSomeAnd result (IsNumberOfKeys T.order (Holds T.order self.now)) }
    {
        inner::known(self);
        if self.is_empty() {
            return Some(0);
        }
        let start = with_told(self.start_bound(), <T as MaybeBounded>::min());
        let end = with_told(self.end_bound(), <T as MaybeBounded>::max());
        measured(&start, &end)
    }
}

/// The bound, or the known end in place of none.
fn with_told<T: PartialEnum>(bound: Bound<&T>, told: Option<T>) -> Bound<KeyRef<'_, T>>
    ensures { bound_map key_value result ≡ closed_by told (bound_of bound.entry) }
{
    match (bound, told) {
        (Bound::Included(key), _) => Bound::Included(KeyRef::Given(key)),
        (Bound::Excluded(key), _) => Bound::Excluded(KeyRef::Given(key)),
        (Bound::Unbounded, Some(end)) => Bound::Included(KeyRef::Told(end)),
        (Bound::Unbounded, None) => Bound::Unbounded,
    }
}

/// How much lies from the start to the end, where both name a key.
fn measured<T: Measure>(start: &Bound<KeyRef<'_, T>>, end: &Bound<KeyRef<'_, T>>) -> Option<u128>
    requires known_start { IsBoundOfKey T.order (bound_map key_value start.now) }
    requires known_end { IsBoundOfKey T.order (bound_map key_value end.now) }
    requires nonempty { Le (position_cmp T.order.cmp)
        (start_position T.order (bound_map key_value start.now))
        (end_position T.order (bound_map key_value end.now)) }
    ensures { result
        ≡ measure_between T.len T.distance (bound_map key_value start.now)
        (bound_map key_value end.now) }
{
    match (start, end) {
        (Bound::Included(a), Bound::Included(b)) => {
            let (a, b) = (a.get(), b.get());
            Some(a.distance(b) + b.len())
        }
        (Bound::Included(a), Bound::Excluded(b)) => Some(a.get().distance(b.get())),
        (Bound::Excluded(a), Bound::Included(b)) => {
            let (a, b) = (a.get(), b.get());
            Some(a.distance(b) - a.len() + b.len())
        }
        (Bound::Excluded(a), Bound::Excluded(b)) => {
            let (a, b) = (a.get(), b.get());
            Some(a.distance(b) - a.len())
        }
        (_, _) => None,
    }
}
