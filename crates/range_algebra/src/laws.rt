//! Laws of comparisons of ranges, over every pair of ranges. Their bodies do nothing.

ghost use Rattle.std.specs.Prelude.{◌≡◌, ◌↔◌, Bool, IsTrue, false};
ghost use Rattle.range_keys.specs.Order.{IsComplete};
ghost use Rattle.range_algebra.specs.Compared.{range_ordering, is_before, is_after};
ghost use Rattle.range_algebra.specs.Relations.{AreBelow, AreJoined, OfAnyNonempty};
ghost use Rattle.range_algebra.specs.declared.any.AnyRange.{AnyRange};
ghost use Rattle.range_algebra.specs.declared.ordering.RangeOrdering.TheVariants.{Before, After};

use range_keys::traits::PartialEnum;

/// A range that lies before another by their comparison is below it: each key of the one is below
/// each key of the other. Over every lawful key, and over complete keys also the other way round,
/// for nonempty ranges.
pub fn comparisons_order_keys<T: PartialEnum>()
    ensures before { (r s : AnyRange T) (touching : Bool)
        → range_ordering T.order r s ≡ Before touching → AreBelow T.order r s }
    ensures after { (r s : AnyRange T) (touching : Bool)
        → range_ordering T.order r s ≡ After touching → AreBelow T.order s r }
    ensures below { IsComplete T.order → OfAnyNonempty T.order (λ r s.
        AreBelow T.order r s → IsTrue (is_before (range_ordering T.order r s) false)) }
    ensures above { IsComplete T.order → OfAnyNonempty T.order (λ r s.
        AreBelow T.order s r → IsTrue (is_after (range_ordering T.order r s) false)) }
{}

/// The flag of `Before` and `After` says whether no key lies between two nonempty ranges, over
/// complete keys.
pub fn touching_ranges_are_joined<T: PartialEnum>()
    ensures before { IsComplete T.order → OfAnyNonempty T.order (λ r s.
        (touching : Bool) → range_ordering T.order r s ≡ Before touching
        → IsTrue touching ↔ AreJoined T.order r s) }
    ensures after { IsComplete T.order → OfAnyNonempty T.order (λ r s.
        (touching : Bool) → range_ordering T.order r s ≡ After touching
        → IsTrue touching ↔ AreJoined T.order s r) }
{}
