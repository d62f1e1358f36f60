//! How the ranges of two maps lie to one another, found in one pass over both.
ghost use Rattle.std.specs.Prelude.{◌↔◌, IsTrue};
ghost use Rattle.range_algebra.specs.Relations.{LiesBefore};
ghost use Rattle.range_runs.specs.Pieces.{LiesIn};
ghost use Rattle.range_map.specs.Together.{MeetNowhere, LieInside};

use crate::map::RangeMap;
use range_algebra::any::AnyRange;
use range_keys::bound::Directed;
use range_keys::traits::PartialEnum;
use range_store::storage::{Item, Storage};
use std::ops::RangeBounds;

/// Whether the first range ends before the second starts.
fn lies_before<K: PartialEnum>(first: &AnyRange<K>, second: &AnyRange<K>) -> bool
    ensures { IsTrue result ↔ LiesBefore K.order first.now second.now }
{
    Directed::End(first.end_bound()) < Directed::Start(second.start_bound())
}

/// Whether the one range neither starts before the other nor ends after it.
fn lies_in<K: PartialEnum>(part: &AnyRange<K>, range: &AnyRange<K>) -> bool
    ensures { IsTrue result ↔ LiesIn K.order part.now range.now }
{
    Directed::Start(range.start_bound()) <= Directed::Start(part.start_bound())
        && Directed::End(part.end_bound()) <= Directed::End(range.end_bound())
}

/// Whether no range of the one map meets one of the other. Allocates nothing, and takes at most a
/// step for each stored range of both.
pub fn meet_nowhere<K, V, W, C, D>(map: &RangeMap<K, V, C>, other: &RangeMap<K, W, D>) -> bool
where
    K: PartialEnum,
    V: Eq + Drop,
    W: Eq + Drop,
    C: Storage<Item<AnyRange<K>, V>>,
    D: Storage<Item<AnyRange<K>, W>>,
    ensures { IsTrue result ↔ MeetNowhere K.order (C.items map.now) (D.items other.now) }
{
    let mut ranges = map.iter();
    let mut others = other.iter();
    let mut next = ranges.next();
    let mut near = others.next();
    while let (Some((range, _)), Some((other_range, _))) = (next, near) {
        if lies_before(range, other_range) {
            next = ranges.next();
        } else if lies_before(other_range, range) {
            near = others.next();
        } else {
            return false;
        }
    }
    true
}

/// Whether each range of the one map lies in a range of the other. Allocates nothing, and takes at
/// most a step for each stored range of both.
pub fn lie_inside<K, V, W, C, D>(map: &RangeMap<K, V, C>, other: &RangeMap<K, W, D>) -> bool
where
    K: PartialEnum,
    V: Eq + Drop,
    W: Eq + Drop,
    C: Storage<Item<AnyRange<K>, V>>,
    D: Storage<Item<AnyRange<K>, W>>,
    ensures { IsTrue result ↔ LieInside K.order (C.items map.now) (D.items other.now) }
{
    let mut ranges = map.iter();
    let mut others = other.iter();
    let mut next = ranges.next();
    let mut near = others.next();
    while let (Some((range, _)), Some((other_range, _))) = (next, near) {
        if lies_in(range, other_range) {
            next = ranges.next();
        } else if lies_before(other_range, range) {
            near = others.next();
        } else {
            return false;
        }
    }
    next.is_none()
}
