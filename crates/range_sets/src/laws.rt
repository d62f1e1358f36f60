//! Laws of lists of ranges, over every list. Their bodies do nothing.
ghost use Rattle.std.specs.Prelude.{List, IsTrue};
ghost use Rattle.range_algebra.specs.declared.any.AnyRange.{AnyRange};
ghost use Rattle.range_store.specs.declared.storage.Item.{Item};
ghost use Rattle.range_sets.specs.Complements.{EqualGapsOf};
ghost use Rattle.range_set_extend.specs.KeySets.{IsStoredSet};
ghost use Rattle.range_sets.specs.SetLaws.{Commutes, Associates, Distributes, IsDual, TakesComplement};
ghost use Rattle.range_sets.specs.SetOrder.{same_ranges};
ghost use Rattle.range_sets.specs.TwoSets.{HoldsEither, HoldsBoth, HoldsFirstAlone, HoldsJustOne};

use range_keys::traits::PartialEnum;

/// The complement of the complement of a set equals the set, over every lawful key.
///
/// Let the ranges of a second list equal, one by one, the gaps of a set's list, and those of a
/// third the gaps of the second. Then the third list equals the set's, as `==` compares sets.
pub fn complementing_twice_restores<T: PartialEnum>()
    ensures { (items others thirds : List (Item (AnyRange T) (Unit {0})))
        → IsStoredSet T.order items → EqualGapsOf T.order items others
        → EqualGapsOf T.order others thirds → IsTrue (same_ranges T.order thirds items) }
{}

/// It does not matter which of two sets is put together with the other: `a.union(&b)` holds the
/// keys of `b.union(&a)`, and so do intersections and symmetric differences. Over complete keys
/// sets that hold the same keys are equal.
pub fn set_operations_commute<T: PartialEnum>()
    ensures union { Commutes T.order (HoldsEither T.order) }
    ensures intersection { Commutes T.order (HoldsBoth T.order) }
    ensures symmetric_difference { Commutes T.order (HoldsJustOne T.order) }
{}

/// It does not matter which two of three sets are put together first, by unions, by intersections
/// or by symmetric differences.
pub fn set_operations_associate<T: PartialEnum>()
    ensures union { Associates T.order (HoldsEither T.order) }
    ensures intersection { Associates T.order (HoldsBoth T.order) }
    ensures symmetric_difference { Associates T.order (HoldsJustOne T.order) }
{}

/// The intersection with a union is the union of the intersections, and the union with an
/// intersection the intersection of the unions.
pub fn set_operations_distribute<T: PartialEnum>()
    ensures intersection { Distributes T.order (HoldsBoth T.order) (HoldsEither T.order) }
    ensures union { Distributes T.order (HoldsEither T.order) (HoldsBoth T.order) }
{}

/// The complement of a union is the intersection of the complements, and the complement of an
/// intersection the union of the complements. A difference is an intersection with a complement.
pub fn complements_exchange_union_and_intersection<T: PartialEnum>()
    ensures union { IsDual T.order (HoldsEither T.order) (HoldsBoth T.order) }
    ensures intersection { IsDual T.order (HoldsBoth T.order) (HoldsEither T.order) }
    ensures difference { TakesComplement T.order (HoldsFirstAlone T.order) (HoldsBoth T.order) }
{}
