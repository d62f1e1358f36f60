//! Whether the keys of one set are among those of another, all or none of them.
ghost use Rattle.std.specs.Prelude.{◌↔◌, IsTrue};
ghost use Rattle.range_keys.specs.Order.{IsComplete};
ghost use Rattle.range_map.specs.Together.{MeetNowhere, LieInside, ShareNoKey, BindKeysOf};

use super::RangeSet;
use range_algebra::any::AnyRange;
use range_keys::traits::PartialEnum;
use range_map::inner::relate::{lie_inside, meet_nowhere};
use range_store::storage::{Item, Storage};

impl<T: PartialEnum, C: Storage<Item<AnyRange<T>, ()>>> RangeSet<T, C> {
    /// Whether no range of this set meets one of the other, whatever containers they are kept in.
    ///
    /// Then no key is in both; over complete keys, as integers and characters, it is so exactly
    /// then. Allocates nothing. Goes once over both sets, at most a step for each stored range, and
    /// stops at the first two ranges that meet.
    ///
    /// ```
    /// // of a set of the keys 0..=5, and one of the keys 2..4
    /// assert!(rt; !set.is_disjoint(few));
    /// ```
    pub fn is_disjoint<D: Storage<Item<AnyRange<T>, ()>>>(&self, other: &RangeSet<T, D>) -> bool
        ensures meets { IsTrue result
            ↔ MeetNowhere T.order (C.items self.now) (D.items other.now) }
        ensures held { IsTrue result → ShareNoKey T.order (C.items self.now) (D.items other.now) }
        ensures complete { IsComplete T.order
            → ShareNoKey T.order (C.items self.now) (D.items other.now) → IsTrue result }
    {
        self.in_form();
        other.in_form();
        meet_nowhere(&self.map, &other.map)
    }

    /// Whether each range of this set lies in a range of the other, whatever containers they are
    /// kept in.
    ///
    /// Then each key of this set is in the other; over complete keys, as integers and characters,
    /// it is so exactly then. Allocates nothing. Goes once over both sets, at most a step for each
    /// stored range, and stops at the first range that lies in none.
    ///
    /// ```
    /// // of a set of the keys 0..=5, and one of the keys 2..4
    /// assert!(rt; few.is_subset(set) && !set.is_subset(few));
    /// ```
    pub fn is_subset<D: Storage<Item<AnyRange<T>, ()>>>(&self, other: &RangeSet<T, D>) -> bool
        ensures inside { IsTrue result
            ↔ LieInside T.order (C.items self.now) (D.items other.now) }
        ensures held { IsTrue result → BindKeysOf T.order (C.items self.now) (D.items other.now) }
        ensures complete { IsComplete T.order
            → BindKeysOf T.order (C.items self.now) (D.items other.now) → IsTrue result }
    {
        self.in_form();
        other.in_form();
        lie_inside(&self.map, &other.map)
    }

    /// Whether each range of the other set lies in a range of this one, which is `is_subset` the
    /// other way round. Allocates nothing.
    ///
    /// ```
    /// // of a set of the keys 0..=5, and one of the keys 2..4
    /// assert!(rt; set.is_superset(few));
    /// ```
    pub fn is_superset<D: Storage<Item<AnyRange<T>, ()>>>(&self, other: &RangeSet<T, D>) -> bool
        ensures inside { IsTrue result
            ↔ LieInside T.order (D.items other.now) (C.items self.now) }
        ensures held { IsTrue result → BindKeysOf T.order (D.items other.now) (C.items self.now) }
        ensures complete { IsComplete T.order
            → BindKeysOf T.order (D.items other.now) (C.items self.now) → IsTrue result }
    {
        other.is_subset(self)
    }
}
