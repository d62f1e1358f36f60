//! The stored ranges that a range meets, from both ends.
ghost use Rattle.std.specs.Prelude.{◌≡◌, []};
ghost use Rattle.std.specs.declared.ops.Bound.TheVariants.{Included, Unbounded};
ghost use Rattle.range_keys.specs.Order.{IsComplete};
ghost use Rattle.range_algebra.specs.Range.{IsEmptyRange, with_bounds};
ghost use Rattle.range_runs.specs.Lookups.{BindsKeyOf};
ghost use Rattle.range_runs.specs.Runs.{AreOverlapping};

use crate::map::RangeMap;
use range_algebra::any::AnyRange;
use range_algebra::inner;
use range_algebra::range::AsRange;
use range_keys::bound::Directed;
use range_keys::traits::{Measure, PartialEnum};
pub use range_runs::runs::Overlapping;
use range_runs::runs::run_between;
use range_runs::window::{find, find_last_started};
use range_store::storage::{Item, Steps, Storage};
use std::ops::Bound;

impl<K: Measure, V: Eq + Drop, C: Storage<Item<AnyRange<K>, V>>> RangeMap<K, V, C> {
    /// The stored ranges that meet the range, whole, with their values, in ascending order, from
    /// both ends.
    ///
    /// An empty range meets none. There is none exactly where no key of the range is bound, over
    /// keys that leave no gap. Costs two searches and one comparison more, and then at most
    /// two comparisons for each range that is shown. Allocates nothing.
    ///
    /// ```
    /// // of a map that binds 0..=5 to 1
    /// assert!(rt; map.overlapping(3..8).next().is_some()); // 0..=5 with 1
    /// ```
    pub fn overlapping<R: AsRange<Item = K>>(&self, range: R) -> Overlapping<'_, K, V, C>
        ensures items { ¬ IsEmptyRange K.order (R.range range)
            → AreOverlapping K.order (C.items self.now) (R.range range) result }
        ensures empty { IsEmptyRange K.order (R.range range) → result ≡ [] }
        ensures none { result ≡ [] → ¬ BindsKeyOf K.order (C.items self.now) (R.range range) }
        ensures complete { IsComplete K.order
            → (¬ BindsKeyOf K.order (C.items self.now) (R.range range)) → result ≡ [] }
    {
        self.met_by(&range)
    }

    /// What `overlapping` shows, of a borrowed range.
    pub(crate) fn met_by<R: AsRange<Item = K>>(&self, range: &R) -> Overlapping<'_, K, V, C>
        ensures items { ¬ IsEmptyRange K.order (R.range range.now)
            → AreOverlapping K.order (C.items self.now) (R.range range.now) result }
        ensures empty { IsEmptyRange K.order (R.range range.now) → result ≡ [] }
        ensures none { result ≡ [] → ¬ BindsKeyOf K.order (C.items self.now) (R.range range.now) }
        ensures complete { IsComplete K.order
            → (¬ BindsKeyOf K.order (C.items self.now) (R.range range.now)) → result ≡ [] }
    {
        self.in_form();
        inner::known_range(range);
        if range.is_empty() {
            return Overlapping::new(&self.stored, None);
        }
        let mut steps = Steps::new();
        let start = Directed::Start(range.start());
        let end = Directed::End(range.end());
        let (_, first) = find::<K, V, C>(&self.stored, &start, &mut steps);
        let last = find_last_started::<K, V, C>(&self.stored, &end, &mut steps);
        let ends = run_between::<K, V, C>(&self.stored, first, last);
        Overlapping::new(&self.stored, ends)
    }
}

impl<K: PartialEnum, V: Eq + Drop, C: Storage<Item<AnyRange<K>, V>>> RangeMap<K, V, C> {
    /// The stored ranges from the first that ends at or after the key on, with their values, in
    /// ascending order, from both ends.
    ///
    /// They are those that meet the keys from this one on. Costs one search and a way down the
    /// tree, and then at most two comparisons for each range that is shown. Allocates nothing.
    ///
    /// ```
    /// // of a map that binds 0..=5 to 1
    /// assert!(rt; map.iter_from(5).next().is_some() && map.iter_from(6).next().is_none());
    /// ```
    pub fn iter_from(&self, key: K) -> Overlapping<'_, K, V, C>
        ensures items { AreOverlapping K.order (C.items self.now)
            (with_bounds (Included key) Unbounded) result }
    {
        self.in_form();
        key.known();
        let mut steps = Steps::new();
        let start = Directed::Start(Bound::Included(&key));
        let (_, first) = find::<K, V, C>(&self.stored, &start, &mut steps);
        let ends = run_between::<K, V, C>(&self.stored, first, self.stored.last());
        Overlapping::new(&self.stored, ends)
    }
}
