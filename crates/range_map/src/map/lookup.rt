//! Whether keys are bound.
ghost use Rattle.std.specs.Prelude.{◌≡◌, ◌↔◌, ◌+◌, [], IsTrue};
ghost use Rattle.range_keys.specs.Order.{IsComplete};
ghost use Rattle.range_store.specs.Counting.{AddsSteps};
ghost use Rattle.range_algebra.specs.Range.{IsEmptyRange};
ghost use Rattle.range_runs.specs.Bindings.{IsBound};
ghost use Rattle.range_runs.specs.Lookups.{MeetsSome, BindsKeyOf};

use crate::map::RangeMap;
use range_algebra::any::AnyRange;
use range_algebra::range::AsRange;
use range_keys::traits::{Measure, PartialEnum};
use range_reads::lookup::meets_some;
use range_store::storage::{Item, Steps, Storage};

impl<K: PartialEnum, V: Eq + Drop, C: Storage<Item<AnyRange<K>, V>>> RangeMap<K, V, C> {
    /// Whether no range is stored. Allocates nothing.
    ///
    /// ```
    /// // of a map that binds 0..=5 to 1
    /// assert!(rt; !map.is_empty());
    /// ```
    pub fn is_empty(&self) -> bool
        ensures { IsTrue result ↔ C.items self.now ≡ [] }
    {
        self.stored.len() == 0
    }

    /// Whether the key is bound.
    ///
    /// Costs one search and one comparison more. Allocates nothing.
    ///
    /// ```
    /// // of a map that binds 0..=5 to 1
    /// assert!(rt; map.contains_key(5));
    /// ```
    pub fn contains_key(&self, key: K) -> bool
        ensures { IsTrue result ↔ IsBound K.order (C.items self.now) key }
    {
        let mut steps = Steps::new();
        self.contains_key_counted(key, &mut steps)
    }

    /// Whether the key is bound; adds the steps that it takes, as `get_counted` does. Allocates
    /// nothing.
    ///
    /// ```
    /// // of a map that binds 0..=5 to 1, but not 4
    /// let mut steps = Steps::new();
    /// assert!(rt; map.contains_key_counted(5, &mut steps));
    /// ```
    pub fn contains_key_counted(&self, key: K, steps: &mut Steps) -> bool
        ensures value { IsTrue result ↔ IsBound K.order (C.items self.now) key }
        ensures counted { AddsSteps steps.old steps.new (C.least_asks self.now)
            (C.most_asks self.now + 1) }
        ensures none { C.items self.now ≡ [] → AddsSteps steps.old steps.new 0 0 }
    {
        self.get_counted(key, steps).is_some()
    }
}

impl<K: Measure, V: Eq + Drop, C: Storage<Item<AnyRange<K>, V>>> RangeMap<K, V, C> {
    /// Whether the range is nonempty and meets a stored one.
    ///
    /// It does wherever one of its keys is bound; over keys that leave no gap, nowhere else.
    /// Costs one search and one comparison more. Allocates nothing.
    ///
    /// ```
    /// map.remove(1..9)?;
    /// assert!(rt; map.intersects(9..) && !map.intersects(1..9) && map.get(1).is_none());
    /// ```
    pub fn intersects<R: AsRange<Item = K>>(&self, range: R) -> bool
        ensures meets { IsTrue result
            ↔ (¬ IsEmptyRange K.order (R.range range))
            × MeetsSome K.order (C.items self.now) (R.range range) }
        ensures bound { BindsKeyOf K.order (C.items self.now) (R.range range) → IsTrue result }
        ensures complete { IsComplete K.order → IsTrue result
            → BindsKeyOf K.order (C.items self.now) (R.range range) }
    {
        let mut steps = Steps::new();
        self.intersects_counted(range, &mut steps)
    }

    /// Whether the range is nonempty and meets a stored one; adds the steps that it takes.
    ///
    /// A step is one range that the search asks, or one comparison of the range with a stored one.
    /// An empty range and the empty map take none. Allocates nothing.
    ///
    /// ```
    /// // of a map that binds 0..=5 to 1, but not 4
    /// let mut steps = Steps::new();
    /// assert!(rt; map.intersects_counted(5..9, &mut steps));
    /// ```
    pub fn intersects_counted<R: AsRange<Item = K>>(&self, range: R, steps: &mut Steps) -> bool
        ensures meets { IsTrue result
            ↔ (¬ IsEmptyRange K.order (R.range range))
            × MeetsSome K.order (C.items self.now) (R.range range) }
        ensures bound { BindsKeyOf K.order (C.items self.now) (R.range range) → IsTrue result }
        ensures complete { IsComplete K.order → IsTrue result
            → BindsKeyOf K.order (C.items self.now) (R.range range) }
        ensures counted { ¬ IsEmptyRange K.order (R.range range)
            → AddsSteps steps.old steps.new (C.least_asks self.now) (C.most_asks self.now + 1) }
        ensures none { C.items self.now ≡ [] → AddsSteps steps.old steps.new 0 0 }
        ensures empty_uncounted { IsEmptyRange K.order (R.range range) → steps.new ≡ steps.old }
    {
        self.in_form();
        meets_some::<K, V, C, R>(&self.stored, &range, steps)
    }
}
