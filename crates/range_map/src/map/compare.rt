//! Equality, order and hash of maps: those of the lists that they store.
ghost use Rattle.std.specs.Prelude.{◌≡◌, ◌↔◌, IsTrue};
ghost use Rattle.std.specs.Cmp.{partial_equiv_from_equiv, on_equiv, on_total, po};
ghost use Rattle.std.specs.List.{fold};
ghost use Rattle.std.specs.Ordering.{as_partial_cmp, is_eq};
ghost use Rattle.std.specs.declared.cmp.Ordering.TheVariants.{Equal};
ghost use Rattle.std.proofs.Common.{refl, ap, ◌∙◌};
ghost use Rattle.range_keys.specs.Order.{IsComplete};
ghost use Rattle.range_runs.specs.Bindings.{BindAlike};
ghost use Rattle.range_reads.specs.ListOrder.{same_list, list_cmp, CompareAlike, HashAlike, list_input, lists_equivalence, lists_order, lists_tied, lists_fed};

use crate::map::RangeMap;
use range_algebra::any::AnyRange;
use range_keys::traits::PartialEnum;
use range_reads::compare::{compare_lists, hash_list, store_equal_lists};
use range_store::storage::{Item, Storage};
use std::cmp::Ordering;
use std::hash::{Hash, Hasher};

impl<K: PartialEnum, V: Eq + Drop, C: Storage<Item<AnyRange<K>, V>>> RangeMap<K, V, C> {
    /// Whether a map over any container stores equal ranges with equal values.
    ///
    /// Then the two bind every key alike; over complete keys, as integers and characters, it does
    /// exactly where they do. Allocates nothing. Costs one step for each stored range.
    ///
    /// ```
    /// // of a map that binds 0..=5 to 1, and one over a vector that binds 0..6 to 1
    /// assert!(rt; map.eq_across(vector) && map.cmp_across(vector) == Ordering::Equal);
    /// ```
    pub fn eq_across<D: Storage<Item<AnyRange<K>, V>>>(&self, other: &RangeMap<K, V, D>) -> bool
        ensures value { result ≡ same_list K.order V.eq (C.items self.now) (D.items other.now) }
        ensures bound { IsTrue result
            → BindAlike K.order V.eq (C.items self.now) (D.items other.now) }
        ensures same { IsComplete K.order → IsTrue result
            ↔ BindAlike K.order V.eq (C.items self.now) (D.items other.now) }
    {
        self.in_form();
        other.in_form();
        store_equal_lists::<K, V, C, D>(&self.stored, &other.stored)
    }
}

impl<K: PartialEnum, V: Ord + Drop, C: Storage<Item<AnyRange<K>, V>>> RangeMap<K, V, C> {
    /// How a map over any container compares, by the stored ranges with their values in dictionary
    /// order, each range before its value.
    ///
    /// Over complete keys, as integers and characters, maps that bind every key alike, and no
    /// others, are `Equal`, and compare alike with every map. Allocates nothing. Costs one step for
    /// each stored range.
    ///
    /// ```
    /// // of a map that binds 0..=5 to 1, and one over a vector that binds 0..6 to 1
    /// assert!(rt; map.eq_across(vector) && map.cmp_across(vector) == Ordering::Equal);
    /// ```
    pub fn cmp_across<D: Storage<Item<AnyRange<K>, V>>>(
        &self,
        other: &RangeMap<K, V, D>,
    ) -> Ordering
        ensures value { result ≡ list_cmp K.order V.cmp (C.items self.now) (D.items other.now) }
        ensures same { IsComplete K.order → result ≡ Equal
            ↔ BindAlike K.order V.eq (C.items self.now) (D.items other.now) }
        ensures alike { IsComplete K.order
            → CompareAlike K.order V.eq V.cmp (C.items self.now) (D.items other.now) result }
    {
        self.in_form();
        other.in_form();
        compare_lists::<K, V, C, D>(&self.stored, &other.stored)
    }
}

impl<K: PartialEnum, V: Eq + Drop, C: Storage<Item<AnyRange<K>, V>>> PartialEq
    for RangeMap<K, V, C> {
    ghost eq = { λ map other. same_list K.order V.eq (C.items map) (C.items other) };

    ghost laws = { partial_equiv_from_equiv
        (on_equiv C.items (lists_equivalence K.order K.lawful V.eq V.Eq.laws)) };

    fn eq(&self, other: &RangeMap<K, V, C>) -> bool
        ensures value { result ≡ same_list K.order V.eq (C.items self.now) (C.items other.now) }
        ensures bound { IsTrue result
            → BindAlike K.order V.eq (C.items self.now) (C.items other.now) }
        ensures same { IsComplete K.order → IsTrue result
            ↔ BindAlike K.order V.eq (C.items self.now) (C.items other.now) }
    {
        self.eq_across(other)
    }
}

impl<K: PartialEnum, V: Eq + Drop, C: Storage<Item<AnyRange<K>, V>>> Eq for RangeMap<K, V, C> {
    ghost laws = { on_equiv C.items (lists_equivalence K.order K.lawful V.eq V.Eq.laws) };
}

impl<K: PartialEnum, V: Ord + Drop, C: Storage<Item<AnyRange<K>, V>>> PartialOrd
    for RangeMap<K, V, C> {
    ghost partial_cmp = { as_partial_cmp
        (λ map other. list_cmp K.order V.cmp (C.items map) (C.items other)) };

    ghost laws = { po (on_total C.items (lists_order K.order K.lawful V.cmp V.total))
        (λ map other. lists_tied K.order V.eq V.cmp V.matches_eq (C.items map) (C.items other)) };

    fn partial_cmp(&self, other: &RangeMap<K, V, C>) -> Option<Ordering> {
        Some(self.cmp(other))
    }
}

impl<K: PartialEnum, V: Ord + Drop, C: Storage<Item<AnyRange<K>, V>>> Ord for RangeMap<K, V, C> {
    ghost cmp = { λ map other. list_cmp K.order V.cmp (C.items map) (C.items other) };

    ghost total = { on_total C.items (lists_order K.order K.lawful V.cmp V.total) };

    ghost matches_partial_cmp = { λ map other. refl };

    ghost matches_eq = { λ map other. lists_tied K.order V.eq V.cmp V.matches_eq (C.items map)
        (C.items other) };

    fn cmp(&self, other: &RangeMap<K, V, C>) -> Ordering
        ensures value { result ≡ list_cmp K.order V.cmp (C.items self.now) (C.items other.now) }
        ensures same { IsComplete K.order → result ≡ Equal
            ↔ BindAlike K.order V.eq (C.items self.now) (C.items other.now) }
        ensures alike { IsComplete K.order
            → CompareAlike K.order V.eq V.cmp (C.items self.now) (C.items other.now) result }
    {
        self.cmp_across(other)
    }
}

impl<K: PartialEnum + Hash, V: Hash + Drop, C: Storage<Item<AnyRange<K>, V>>> Hash
    for RangeMap<K, V, C> {
    ghost hash_input = { λ map. list_input K.order K.hash_input V.hash_input (C.items map) };

    ghost respects_eq = { λ map other. lists_fed K.order V.eq K.hash_input V.hash_input
        (λ a b f. K.respects_eq a b (K.matches_eq a b ∙ ap is_eq (K.order_is_cmp a b ∙ f)))
        V.respects_eq (C.items map) (C.items other) };

    fn hash<H: Hasher>(&self, state: &mut H)
        ensures value { state.new
            ≡ fold H.write state.old
            (list_input K.order K.hash_input V.hash_input (C.items self.now)) }
        ensures same { IsComplete K.order
            → HashAlike K.order V.eq K.hash_input V.hash_input H.write (C.items self.now) state.old
            state.new }
    {
        self.in_form();
        hash_list::<K, V, C, H>(&self.stored, state);
    }
}
