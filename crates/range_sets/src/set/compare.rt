//! Equality, order and hash of sets: those of the lists of their ranges.
ghost use Rattle.std.specs.Prelude.{◌≡◌, ◌↔◌, List, IsTrue};
ghost use Rattle.std.specs.Cmp.{partial_equiv_from_equiv, on_equiv, on_total, po};
ghost use Rattle.std.specs.List.{fold};
ghost use Rattle.std.specs.Ordering.{as_partial_cmp, is_eq};
ghost use Rattle.std.specs.declared.cmp.Ordering.TheVariants.{Equal};
ghost use Rattle.std.proofs.Common.{refl, ap, ◌∙◌};
ghost use Rattle.range_keys.specs.Order.{IsComplete};
ghost use Rattle.range_algebra.specs.declared.any.AnyRange.{AnyRange};
ghost use Rattle.range_store.specs.declared.storage.Item.{Item};
ghost use Rattle.range_set_extend.specs.KeySets.{HoldAlike, IsStoredSet};
ghost use Rattle.range_sets.specs.SetOrder.{same_ranges, ranges_cmp, ranges_input, sets_equivalence, sets_order, sets_tied, sets_fed};

use super::RangeSet;
use range_algebra::any::AnyRange;
use range_keys::traits::PartialEnum;
use range_store::storage::{Item, Storage};
use std::cmp::Ordering;
use std::hash::{Hash, Hasher};

impl<T: PartialEnum, C: Storage<Item<AnyRange<T>, ()>>> RangeSet<T, C> {
    /// Whether a set over any container stores equal ranges.
    ///
    /// Then the two hold the same keys; over complete keys, as integers and characters, it does
    /// exactly where they do. Allocates nothing. Costs one step for each stored range.
    ///
    /// ```
    /// // of equal sets, which may be over different containers
    /// assert!(rt; copy.eq_across(set) && copy.cmp_across(set) == Ordering::Equal);
    /// ```
    pub fn eq_across<D: Storage<Item<AnyRange<T>, ()>>>(&self, other: &RangeSet<T, D>) -> bool
        ensures value { result ≡ same_ranges T.order (C.items self.now) (D.items other.now) }
        ensures bound { IsTrue result → HoldAlike T.order (C.items self.now) (D.items other.now) }
        ensures same { IsComplete T.order → IsTrue result
            ↔ HoldAlike T.order (C.items self.now) (D.items other.now) }
    {
        self.map.eq_across(&other.map)
    }

    /// How a set over any container compares, by the stored ranges in dictionary order.
    ///
    /// Over complete keys, as integers and characters, sets that hold the same keys, and no others,
    /// are `Equal`, and compare alike with every set. Allocates nothing. Costs one step for each
    /// stored range.
    ///
    /// ```
    /// // of equal sets, which may be over different containers
    /// assert!(rt; copy.eq_across(set) && copy.cmp_across(set) == Ordering::Equal);
    /// ```
    pub fn cmp_across<D: Storage<Item<AnyRange<T>, ()>>>(&self, other: &RangeSet<T, D>) -> Ordering
        ensures value { result ≡ ranges_cmp T.order (C.items self.now) (D.items other.now) }
        ensures same { IsComplete T.order → result ≡ Equal
            ↔ HoldAlike T.order (C.items self.now) (D.items other.now) }
        ensures alike { IsComplete T.order → (items others : List (Item (AnyRange T) (Unit {0})))
            → IsStoredSet T.order items → IsStoredSet T.order others
            → HoldAlike T.order (C.items self.now) items
            → HoldAlike T.order (D.items other.now) others
            → result ≡ ranges_cmp T.order items others }
    {
        self.map.cmp_across(&other.map)
    }
}

impl<T: PartialEnum, C: Storage<Item<AnyRange<T>, ()>>> PartialEq for RangeSet<T, C> {
    ghost eq = { λ set other. same_ranges T.order (C.items set) (C.items other) };

    ghost laws = { partial_equiv_from_equiv
        (on_equiv C.items (sets_equivalence T.order T.lawful)) };

    fn eq(&self, other: &RangeSet<T, C>) -> bool
        ensures value { result ≡ same_ranges T.order (C.items self.now) (C.items other.now) }
        ensures bound { IsTrue result → HoldAlike T.order (C.items self.now) (C.items other.now) }
        ensures same { IsComplete T.order → IsTrue result
            ↔ HoldAlike T.order (C.items self.now) (C.items other.now) }
    {
        self.eq_across(other)
    }
}

impl<T: PartialEnum, C: Storage<Item<AnyRange<T>, ()>>> Eq for RangeSet<T, C> {
    ghost laws = { on_equiv C.items (sets_equivalence T.order T.lawful) };
}

impl<T: PartialEnum, C: Storage<Item<AnyRange<T>, ()>>> PartialOrd for RangeSet<T, C> {
    ghost partial_cmp = { as_partial_cmp
        (λ set other. ranges_cmp T.order (C.items set) (C.items other)) };

    ghost laws = { po (on_total C.items (sets_order T.order T.lawful))
        (λ set other. sets_tied T.order (C.items set) (C.items other)) };

    fn partial_cmp(&self, other: &RangeSet<T, C>) -> Option<Ordering> {
        Some(self.cmp(other))
    }
}

impl<T: PartialEnum, C: Storage<Item<AnyRange<T>, ()>>> Ord for RangeSet<T, C> {
    ghost cmp = { λ set other. ranges_cmp T.order (C.items set) (C.items other) };

    ghost total = { on_total C.items (sets_order T.order T.lawful) };

    ghost matches_partial_cmp = { λ set other. refl };

    ghost matches_eq = { λ set other. sets_tied T.order (C.items set) (C.items other) };

    fn cmp(&self, other: &RangeSet<T, C>) -> Ordering
        ensures value { result ≡ ranges_cmp T.order (C.items self.now) (C.items other.now) }
        ensures same { IsComplete T.order → result ≡ Equal
            ↔ HoldAlike T.order (C.items self.now) (C.items other.now) }
        ensures alike { IsComplete T.order → (items others : List (Item (AnyRange T) (Unit {0})))
            → IsStoredSet T.order items → IsStoredSet T.order others
            → HoldAlike T.order (C.items self.now) items
            → HoldAlike T.order (C.items other.now) others
            → result ≡ ranges_cmp T.order items others }
    {
        self.cmp_across(other)
    }
}

impl<T: PartialEnum + Hash, C: Storage<Item<AnyRange<T>, ()>>> Hash for RangeSet<T, C> {
    ghost hash_input = { λ set. ranges_input T.order T.hash_input (C.items set) };

    ghost respects_eq = { λ set other. sets_fed T.order T.hash_input
        (λ a b f. T.respects_eq a b (T.matches_eq a b ∙ ap is_eq (T.order_is_cmp a b ∙ f)))
        (C.items set) (C.items other) };

    fn hash<H: Hasher>(&self, state: &mut H)
        ensures value { state.new
            ≡ fold H.write state.old (ranges_input T.order T.hash_input (C.items self.now)) }
        ensures same { IsComplete T.order → (others : List (Item (AnyRange T) (Unit {0})))
            → IsStoredSet T.order others → HoldAlike T.order (C.items self.now) others
            → state.new ≡ fold H.write state.old (ranges_input T.order T.hash_input others) }
    {
        self.map.hash(state);
    }
}
