//! The first and the last stored range, shown or taken out.
ghost use Rattle.std.specs.Prelude.{◌≡◌, ◌+◌, ◌≤◌, List, [], ◌∷◌, ◌++◌, MatchOption};
ghost use Rattle.range_algebra.specs.declared.any.AnyRange.{AnyRange};
ghost use Rattle.range_store.specs.declared.storage.Item.{Item};
ghost use Rattle.range_reads.specs.Iteration.{pair_item, shown_item};
ghost use Rattle.range_runs.specs.Canonical.{IsCanonical};

use crate::map::RangeMap;
use range_algebra::any::AnyRange;
use range_keys::traits::PartialEnum;
use range_store::storage::{Item, Storage};

impl<K: PartialEnum, V: Eq + Drop, C: Storage<Item<AnyRange<K>, V>>> RangeMap<K, V, C> {
    /// The first stored range with its value, or none where no range is stored.
    ///
    /// Costs a way down the tree. Allocates nothing.
    ///
    /// ```
    /// // of a map that binds 0..=5 to 1
    /// assert!(rt; map.first_range_value().is_some()); // 0..=5 with 1
    /// ```
    pub fn first_range_value(&self) -> Option<(&AnyRange<K>, &V)>
        ensures first { MatchOption result (C.items self.now ≡ [])
            (λ pair. (rest : List (Item (AnyRange K) V))
            × (C.items self.now ≡ shown_item pair ∷ rest)) }
    {
        self.iter().next()
    }

    /// The last stored range with its value, or none where no range is stored.
    ///
    /// Costs a way down the tree. Allocates nothing.
    ///
    /// ```
    /// // of a map that binds 0..=5 to 1
    /// assert!(rt; map.last_range_value().is_some()); // 0..=5 with 1
    /// ```
    pub fn last_range_value(&self) -> Option<(&AnyRange<K>, &V)>
        ensures last { MatchOption result (C.items self.now ≡ [])
            (λ pair. (front : List (Item (AnyRange K) V))
            × (C.items self.now ≡ front ++ shown_item pair ∷ [])) }
    {
        self.iter().next_back()
    }

    /// Takes the first stored range out, and returns it with its value. Allocates nothing.
    ///
    /// Leaves room for one range more than there was, where it takes one out. Costs a way down the
    /// tree, and changes nodes up to its root.
    ///
    /// ```
    /// // of a map that binds 0..=5 to 1
    /// assert!(rt; map.pop_first().is_some() && map.is_empty());
    /// ```
    pub fn pop_first(&mut self) -> Option<(AnyRange<K>, V)>
        ensures first { MatchOption result ((C.items self.old ≡ []) × (C.items self.new ≡ []))
            (λ pair. C.items self.old ≡ pair_item pair ∷ C.items self.new) }
        ensures canonical { IsCanonical K.order V.eq (C.items self.new) }
        ensures space { MatchOption result (C.room self.old ≤ C.room self.new)
            (λ _. C.room self.old + 1 ≤ C.room self.new) }
    {
        match self.stored.pop_first() {
            Some(item) => Some(item.into_pair()),
            None => None,
        }
    }

    /// Takes the last stored range out, and returns it with its value. Allocates nothing.
    ///
    /// Leaves room as `pop_first` does. Costs a way down the tree, and changes nodes up to its
    /// root.
    ///
    /// ```
    /// // of a map that binds 0..=5 to 1
    /// assert!(rt; map.pop_last().is_some() && map.is_empty());
    /// ```
    pub fn pop_last(&mut self) -> Option<(AnyRange<K>, V)>
        ensures last { MatchOption result ((C.items self.old ≡ []) × (C.items self.new ≡ []))
            (λ pair. C.items self.old ≡ C.items self.new ++ pair_item pair ∷ []) }
        ensures canonical { IsCanonical K.order V.eq (C.items self.new) }
        ensures space { MatchOption result (C.room self.old ≤ C.room self.new)
            (λ _. C.room self.old + 1 ≤ C.room self.new) }
    {
        match self.stored.pop_last() {
            Some(item) => Some(item.into_pair()),
            None => None,
        }
    }
}
