//! Laws of lists of ranges with values, over every list. Their bodies do nothing.
ghost use Rattle.std.specs.Prelude.{List, length, ◌≤◌, ◌↔◌, IsTrue};
ghost use Rattle.std.specs.List.{AllByRecursion};
ghost use Rattle.range_keys.specs.Order.{IsComplete};
ghost use Rattle.range_algebra.specs.Range.{IsKeyRange};
ghost use Rattle.range_algebra.specs.declared.any.AnyRange.{AnyRange};
ghost use Rattle.range_store.specs.declared.storage.Item.{Item};
ghost use Rattle.range_runs.specs.Bindings.{BindsTo, IsCoarse, BindAlike, AreAlike, AreDisjoint};
ghost use Rattle.range_reads.specs.ListOrder.{same_list};
ghost use Rattle.range_runs.specs.Stored.{IsStored};

use range_keys::traits::PartialEnum;

/// Coarse lists with the same bindings are alike, over every lawful key.
pub fn coarse_lists_are_unique<K: PartialEnum, V: Eq>()
    ensures { (items others : List (Item (AnyRange K) V)) → IsCoarse K.order V.eq items
        → IsCoarse K.order V.eq others → BindAlike K.order V.eq items others
        → AreAlike K.order V.eq items others }
{}

/// No list with the same bindings, disjoint or not, is shorter than a coarse one, and a coarse one
/// is disjoint. Over every lawful key.
pub fn coarse_lists_are_shortest<K: PartialEnum, V: Eq>()
    ensures shortest { (items others : List (Item (AnyRange K) V)) → IsCoarse K.order V.eq items
        → BindAlike K.order V.eq items others → length items ≤ length others }
    ensures disjoint { (items : List (Item (AnyRange K) V)) → IsCoarse K.order V.eq items
        → AreDisjoint K.order items }
{}

/// Over complete keys a list in the form of a map is coarse, and a coarse list of ranges of keys has
/// that form. Two such lists are equal exactly where they bind every key alike.
pub fn stored_lists_are_coarse<K: PartialEnum, V: Eq>()
    ensures coarse { IsComplete K.order → (items : List (Item (AnyRange K) V))
        → IsStored K.order V.eq items → IsCoarse K.order V.eq items }
    ensures stored { IsComplete K.order → (items : List (Item (AnyRange K) V))
        → AllByRecursion (λ i. IsKeyRange K.order i.key) items → IsCoarse K.order V.eq items
        → IsStored K.order V.eq items }
    ensures equal { IsComplete K.order → (items others : List (Item (AnyRange K) V))
        → IsStored K.order V.eq items → IsStored K.order V.eq others
        → IsTrue (same_list K.order V.eq items others) ↔ BindAlike K.order V.eq items others }
{}

/// A list in the form of a map binds a key once: all values to which it binds the key are equal.
/// Over every lawful key.
pub fn stored_lists_bind_once<K: PartialEnum, V: Eq>()
    ensures { (items : List (Item (AnyRange K) V)) → IsStored K.order V.eq items → (k : K)
        → K.order.is_key k → (v w : V) → BindsTo K.order V.eq items k v
        → BindsTo K.order V.eq items k w → IsTrue (V.eq v w) }
{}
