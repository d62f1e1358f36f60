//! The first and the last stored range, shown or taken out, and the one that holds a key.
ghost use Rattle.std.specs.Prelude.{◌≡◌, ◌+◌, ◌≤◌, List, [], ◌∷◌, ◌++◌, MatchOption};
ghost use Rattle.range_algebra.specs.Intervals.{Any};
ghost use Rattle.range_algebra.specs.Range.{Holds};
ghost use Rattle.range_algebra.specs.declared.any.AnyRange.{AnyRange};
ghost use Rattle.range_reads.specs.FreeRanges.{item_ranges};
ghost use Rattle.range_set_extend.specs.KeySets.{HoldsKey, IsCanonicalSet};

use super::RangeSet;
use range_algebra::any::AnyRange;
use range_keys::traits::PartialEnum;
use range_store::storage::{Item, Storage};

impl<T: PartialEnum, C: Storage<Item<AnyRange<T>, ()>>> RangeSet<T, C> {
    /// The stored range that holds the key, or none where the key is not in the set.
    ///
    /// Costs one search and one comparison more. Allocates nothing.
    ///
    /// ```
    /// // of a set of the keys 0..=5
    /// assert!(rt; set.get(5).is_some()); // 0..=5
    /// ```
    pub fn get(&self, key: T) -> Option<&AnyRange<T>>
        ensures stored { MatchOption result (¬ HoldsKey T.order (C.items self.now) key)
            (λ r. Holds T.order r.now key × Any (λ i. i.key ≡ r.now) (C.items self.now)) }
    {
        match self.map.get_key_value(key) {
            Some((range, _)) => Some(range),
            None => None,
        }
    }

    /// The first stored range, or none where no range is stored.
    ///
    /// Costs a way down the tree. Allocates nothing.
    ///
    /// ```
    /// // of a set of the keys 0..=5
    /// assert!(rt; set.first().is_some()); // 0..=5
    /// ```
    pub fn first(&self) -> Option<&AnyRange<T>>
        ensures first { MatchOption result (C.items self.now ≡ [])
            (λ r. (rest : List (AnyRange T)) × (item_ranges (C.items self.now) ≡ r.now ∷ rest)) }
    {
        match self.map.first_range_value() {
            Some((range, _)) => Some(range),
            None => None,
        }
    }

    /// The last stored range, or none where no range is stored.
    ///
    /// Costs a way down the tree. Allocates nothing.
    ///
    /// ```
    /// // of a set of the keys 0..=5
    /// assert!(rt; set.last().is_some()); // 0..=5
    /// ```
    pub fn last(&self) -> Option<&AnyRange<T>>
        ensures last { MatchOption result (C.items self.now ≡ [])
            (λ r. (front : List (AnyRange T))
            × (item_ranges (C.items self.now) ≡ front ++ r.now ∷ [])) }
    {
        match self.map.last_range_value() {
            Some((range, _)) => Some(range),
            None => None,
        }
    }

    /// Takes the first stored range out, and returns it. Allocates nothing.
    ///
    /// Costs a way down the tree, and changes nodes up to its root.
    ///
    /// ```
    /// // of a set of the keys 0..=5
    /// assert!(rt; set.pop_first().is_some() && set.is_empty());
    /// ```
    pub fn pop_first(&mut self) -> Option<AnyRange<T>>
        ensures first { MatchOption result ((C.items self.old ≡ []) × (C.items self.new ≡ []))
            (λ r. item_ranges (C.items self.old) ≡ r ∷ item_ranges (C.items self.new)) }
        ensures canonical { IsCanonicalSet T.order (C.items self.new) }
        ensures space { MatchOption result (C.room self.old ≤ C.room self.new)
            (λ _. C.room self.old + 1 ≤ C.room self.new) }
    {
        match self.map.pop_first() {
            Some((range, _)) => Some(range),
            None => None,
        }
    }

    /// Takes the last stored range out, and returns it. Allocates nothing.
    ///
    /// Costs a way down the tree, and changes nodes up to its root.
    ///
    /// ```
    /// // of a set of the keys 0..=5
    /// assert!(rt; set.pop_last().is_some() && set.is_empty());
    /// ```
    pub fn pop_last(&mut self) -> Option<AnyRange<T>>
        ensures last { MatchOption result ((C.items self.old ≡ []) × (C.items self.new ≡ []))
            (λ r. item_ranges (C.items self.old) ≡ item_ranges (C.items self.new) ++ r ∷ []) }
        ensures canonical { IsCanonicalSet T.order (C.items self.new) }
        ensures space { MatchOption result (C.room self.old ≤ C.room self.new)
            (λ _. C.room self.old + 1 ≤ C.room self.new) }
    {
        match self.map.pop_last() {
            Some((range, _)) => Some(range),
            None => None,
        }
    }
}
