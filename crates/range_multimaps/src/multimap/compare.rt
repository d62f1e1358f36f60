//! Equality of multimaps: that of the lists that they store.
ghost use Rattle.std.specs.Prelude.{◌≡◌, ◌↔◌, IsTrue};
ghost use Rattle.std.specs.Cmp.{partial_equiv_from_equiv, on_equiv};
ghost use Rattle.range_keys.specs.Order.{IsComplete};
ghost use Rattle.range_runs.specs.Bindings.{BindAlike};
ghost use Rattle.range_reads.specs.ListOrder.{same_list, lists_equivalence};

use super::RangeMultiMap;
use crate::members::MaybeEmpty;
use range_algebra::any::AnyRange;
use range_keys::traits::PartialEnum;
use range_store::storage::{Item, Storage};

impl<K: PartialEnum, S: MaybeEmpty, C: Storage<Item<AnyRange<K>, S>>> RangeMultiMap<K, S, C> {
    /// Whether a multimap over any container stores equal ranges with equal sets.
    ///
    /// Then every key has the same values in both; over complete keys, as integers and characters,
    /// it does exactly where they have. Allocates nothing. Costs one step and one comparison of two
    /// sets for each stored range.
    ///
    /// ```
    /// let copy = classes.clone()?;
    /// assert!(rt; copy == *classes);
    /// assert!(rt; copy.eq_across(classes)); // likewise over different containers
    /// ```
    pub fn eq_across<D: Storage<Item<AnyRange<K>, S>>>(
        &self,
        other: &RangeMultiMap<K, S, D>,
    ) -> bool
        ensures value { result ≡ same_list K.order S.eq (C.items self.now) (D.items other.now) }
        ensures bound { IsTrue result
            → BindAlike K.order S.eq (C.items self.now) (D.items other.now) }
        ensures same { IsComplete K.order → IsTrue result
            ↔ BindAlike K.order S.eq (C.items self.now) (D.items other.now) }
    {
        self.map.eq_across(&other.map)
    }
}

impl<K: PartialEnum, S: MaybeEmpty, C: Storage<Item<AnyRange<K>, S>>> PartialEq
    for RangeMultiMap<K, S, C> {
    ghost eq = { λ map other. same_list K.order S.eq (C.items map) (C.items other) };

    ghost laws = { partial_equiv_from_equiv
        (on_equiv C.items (lists_equivalence K.order K.lawful S.eq S.Eq.laws)) };

    fn eq(&self, other: &RangeMultiMap<K, S, C>) -> bool
        ensures value { result ≡ same_list K.order S.eq (C.items self.now) (C.items other.now) }
        ensures bound { IsTrue result
            → BindAlike K.order S.eq (C.items self.now) (C.items other.now) }
        ensures same { IsComplete K.order → IsTrue result
            ↔ BindAlike K.order S.eq (C.items self.now) (C.items other.now) }
    {
        self.eq_across(other)
    }
}

impl<K: PartialEnum, S: MaybeEmpty, C: Storage<Item<AnyRange<K>, S>>> Eq
    for RangeMultiMap<K, S, C> {
    ghost laws = { on_equiv C.items (lists_equivalence K.order K.lawful S.eq S.Eq.laws) };
}
