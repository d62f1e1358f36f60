//! A set of keys, kept as disjoint ranges.
ghost use Rattle.std.specs.Prelude.{◌≡◌, ◌↔◌, ◌+◌, ◌≤◌, ◌++◌, [], length, true, IsTrue};
ghost use Rattle.range_keys.specs.Order.{IsComplete};
ghost use Rattle.range_algebra.specs.Range.{IsEmptyRange};
ghost use Rattle.range_reads.specs.FreeRanges.{AreGaps, IsHeldOnce, item_ranges};
ghost use Rattle.range_store.specs.Counting.{AddsSteps};
ghost use Rattle.range_runs.specs.Lookups.{MeetsSome, BindsKeyOf};
ghost use Rattle.range_set_extend.specs.KeySets.{HoldsKey, IsCanonicalSet, IsLeastCount, IsStoredSet};

mod algebra;
mod clear;
mod clone;
mod compare;
mod comparing;
mod complement;
mod ends;
mod extend;
mod in_place;
mod insert;
mod into_iter;
mod iter;
mod keys;
mod len;
mod reads;
mod relations;
mod remove;
mod retain;
mod shared;
mod subtracted;
mod text;
mod try_insert;
mod union;

pub use crate::laws::{
    complementing_twice_restores, complements_exchange_union_and_intersection,
    set_operations_associate, set_operations_commute, set_operations_distribute,
};
pub use into_iter::IntoIter;
pub use iter::Iter;
use range_algebra::any::AnyRange;
use range_algebra::range::AsRange;
use range_keys::traits::{Measure, PartialEnum};
use range_map::map::{self, RangeMap};
use range_store::storage::{Item, Steps, Storage};
pub use reads::{GapsWithin, Overlapping};
use std::alloc::Global;
use std::marker::Model;
pub use try_insert::NotAdded;

/// The gaps of a set that are left, in order: ranges over references to the keys that bound them.
pub type Gaps<'a, T, C> = map::Gaps<'a, T, (), C>;

/// A set of keys, kept as ranges: nonempty ones in order, each of which ends before the next one
/// starts, with a position between.
///
/// A contract sees the container, and the stored ranges as `C.items`.
///
/// ```
/// // of a set of bytes that has no key
/// set.extend([0..10, 20..30, 10..15])?; // 0..15 and 20..30 are stored
/// set.remove(3u8)?;
/// assert!(rt; set.len() == 24);
/// ```
#[derive(Drop)]
pub struct RangeSet<T: PartialEnum, C: Storage<Item<AnyRange<T>, ()>>> {
    pub(crate) map: RangeMap<T, (), C>,
    pub(crate) alloc: Global,
}

impl<T: PartialEnum, C: Storage<Item<AnyRange<T>, ()>>> Model for RangeSet<T, C> {
    ghost Value = { C };

    ghost view = { λ s. s.map };
}

impl<T: PartialEnum, C: Storage<Item<AnyRange<T>, ()>>> RangeSet<T, C> {
    /// A set without a key. Allocates nothing.
    ///
    /// ```
    /// let mut set: RangeSet<u8> = RangeSet::new(rt.alloc());
    /// ```
    pub fn new(alloc: Global) -> Self
        ensures { C.items result ≡ [] }
    {
        RangeSet {
            map: RangeMap::new(alloc),
            alloc,
        }
    }

    /// A set without a key. Allocates nothing.
    ///
    /// ```
    /// let mut set: RangeSet<i32> = RangeSet::default(alloc); // in the default container
    /// ```
    pub fn default(alloc: Global) -> Self
        ensures { C.items result ≡ [] }
    {
        RangeSet::new(alloc)
    }

    /// Does nothing, and promises the form of what is stored.
    pub(crate) fn in_form(&self)
        ensures stored { IsStoredSet T.order (C.items self.now) }
        ensures canonical { IsCanonicalSet T.order (C.items self.now) }
    {
        // `iter` of the map promises it.
        let _items = self.map.iter();
    }

    /// How many ranges are stored. Allocates nothing.
    ///
    /// Over complete keys no list of ranges that holds the same keys has fewer.
    ///
    /// ```
    /// // of a set of the keys 0..=5
    /// assert!(rt; set.range_count() == 1);
    /// ```
    pub fn range_count(&self) -> usize
        ensures value { result ≡ length (C.items self.now) }
        ensures least { IsComplete T.order → IsLeastCount T.order (C.items self.now) result }
    {
        self.map.range_count()
    }

    /// Whether no range is stored. Allocates nothing.
    ///
    /// ```
    /// // of a set of the keys 0..=5
    /// assert!(rt; !set.is_empty());
    /// ```
    pub fn is_empty(&self) -> bool
        ensures { IsTrue result ↔ C.items self.now ≡ [] }
    {
        self.map.is_empty()
    }

    /// Whether the key is in the set.
    ///
    /// Costs one search and one comparison more. Allocates nothing.
    ///
    /// ```
    /// // of a set of the keys 0..=5
    /// assert!(rt; set.contains(5));
    /// ```
    pub fn contains(&self, key: T) -> bool
        ensures { IsTrue result ↔ HoldsKey T.order (C.items self.now) key }
    {
        self.map.contains_key(key)
    }

    /// Whether the key is in the set, as `contains` returns it; adds the steps that it takes.
    ///
    /// A step is one range that the search asks, or one comparison of the key with a stored range.
    /// The empty set takes none. Allocates nothing.
    ///
    /// ```
    /// let mut steps = Steps::new();
    /// set.insert_counted(2..4, &mut steps)?; // 0..6 is stored
    /// set.remove_counted(4, &mut steps)?;
    /// assert!(rt; set.contains_counted(5, &mut steps));
    /// ```
    pub fn contains_counted(&self, key: T, steps: &mut Steps) -> bool
        ensures value { IsTrue result ↔ HoldsKey T.order (C.items self.now) key }
        ensures counted { AddsSteps steps.old steps.new (C.least_asks self.now)
            (C.most_asks self.now + 1) }
        ensures none { C.items self.now ≡ [] → AddsSteps steps.old steps.new 0 0 }
    {
        self.map.contains_key_counted(key, steps)
    }

    /// The stored ranges, in ascending order, from both ends. Allocates nothing.
    ///
    /// ```
    /// // of a set of the keys 0..=5
    /// assert!(rt; set.iter().next().is_some()); // 0..=5
    /// ```
    pub fn iter(&self) -> Iter<'_, T, C>
        ensures ranges { result ≡ item_ranges (C.items self.now) }
        ensures canonical { IsCanonicalSet T.order (C.items self.now) }
    {
        Iter::new(self.map.iter())
    }

    /// The ranges that hold no key of the set, in ascending order, each as wide as it goes and none
    /// empty.
    ///
    /// Allocates nothing. An iteration over all gaps takes one step for each stored range.
    ///
    /// ```
    /// // of a set of the keys 0..=5
    /// assert!(rt; set.gaps().next().is_some()); // ..0, and then from 6 on
    /// ```
    pub fn gaps(&self) -> Gaps<'_, T, C>
        ensures gaps { AreGaps T.order (C.items self.now) result }
        ensures once { (k : T) → T.order.is_key k
            → IsHeldOnce T.order (item_ranges (C.items self.now) ++ result) k }
        ensures few { length result ≤ length (C.items self.now) + 1 }
    {
        self.map.gaps()
    }
}

impl<T: Measure, C: Storage<Item<AnyRange<T>, ()>>> RangeSet<T, C> {
    /// Whether the range is nonempty and meets a stored one.
    ///
    /// It does wherever one of its keys is in the set; over keys that leave no gap, nowhere else.
    /// Costs one search and one comparison more. Allocates nothing.
    ///
    /// ```
    /// // of a set of the keys 0..=5
    /// assert!(rt; !set.intersects(6..8));
    /// ```
    pub fn intersects<R: AsRange<Item = T>>(&self, range: R) -> bool
        ensures meets { IsTrue result
            ↔ (¬ IsEmptyRange T.order (R.range range))
            × MeetsSome T.order (C.items self.now) (R.range range) }
        ensures bound { BindsKeyOf T.order (C.items self.now) (R.range range) → IsTrue result }
        ensures complete { IsComplete T.order → IsTrue result
            → BindsKeyOf T.order (C.items self.now) (R.range range) }
    {
        self.map.intersects(range)
    }
}
