//! Bounds with a direction, compared by their positions.

ghost use Rattle.std.specs.Prelude.{◌≡◌, Some};
ghost use Rattle.std.specs.declared.ops.Bound.{Bound};
ghost use Rattle.std.specs.declared.ops.Bound.TheVariants.{Included};
ghost use Rattle.std.specs.Ordering.{on, eq_by_cmp, as_partial_cmp};
ghost use Rattle.std.specs.Cmp.{on_total, on_equiv, on_per, eq_by_cmp_equiv, partial_equiv_from_equiv, partial_order_from_total};
ghost use Rattle.std.specs.Ordering.{is_eq};
ghost use Rattle.std.proofs.Common.{refl, ap, ◌∙◌};
ghost use Rattle.range_keys.specs.Hashing.{position_input, position_respects};
ghost use Rattle.range_keys.specs.declared.bound.Directed.{Directed};
ghost use Rattle.range_keys.specs.Position.{bound_of, key_value, position_map, position_cmp};
ghost use Rattle.range_keys.specs.Directed.{directed_map, directed_value, bound_ordering, ordering_to, reference_position};
ghost use Rattle.range_keys.specs.PositionOrder.{position_total};

use crate::inner::directed::{position_of, touches};
use crate::inner::position::{KeyRef, Position, Side, compare_positions};
use crate::traits::PartialEnum;
use std::cmp::Ordering;
use std::hash::{Hash, Hasher};
use std::ops::Bound;

/// A value that is a bound of a range: a `Bound` over a reference, or a byte, which is an included
/// bound.
pub trait AsBound {
    /// The type of the keys.
    type Item;

    // The bound that is meant.
    ghost bound: { Self → Bound Self.Item };

    /// The bound. Allocates nothing.
    fn bound(&self) -> Bound<&Self::Item>
        ensures { bound_of result ≡ bound self.now };
}

impl AsBound for u8 {
    type Item = u8;

    ghost bound = { λ x. Included x };

    fn bound(&self) -> Bound<&u8> {
        Bound::Included(self)
    }
}

impl<'a, T> AsBound for Bound<&'a T> {
    type Item = T;

    ghost bound = { bound_of };

    fn bound(&self) -> Bound<&T> {
        *self
    }
}

/// A bound as the start or as the end of a range.
///
/// `Directed<Bound<&T>>` is compared and hashed by where the bound lies in the order of the keys,
/// starts and ends together. Over `u32` the start `Excluded(0)`, the start `Included(1)` and the
/// end `Included(1)` are equal, and `Start(Unbounded)` is `Start(Included(0))`.
#[derive(Clone, Copy, Drop, Debug)]
pub enum Directed<T> {
    /// The bound where a range begins.
    Start(T),
    /// The bound where a range ends.
    End(T),
}

impl<T> Directed<T> {
    /// The bound, without its direction.
    pub fn unwrap(self) -> T
        ensures { result ≡ directed_value self }
    {
        match self {
            Directed::Start(bound) => bound,
            Directed::End(bound) => bound,
        }
    }

    /// A reference to the bound, without its direction.
    pub fn value(&self) -> &T
        ensures { result.now ≡ directed_value self.now }
    {
        match self {
            Directed::Start(bound) => bound,
            Directed::End(bound) => bound,
        }
    }
}

impl<T> Directed<Bound<T>> {
    /// The same bound over a reference to its key. It can be compared where `T` is a `PartialEnum`.
    pub fn as_ref(&self) -> Directed<Bound<&T>>
        ensures { directed_map bound_of result ≡ self.now }
    {
        match self {
            Directed::Start(bound) => Directed::Start(bound.as_ref()),
            Directed::End(bound) => Directed::End(bound.as_ref()),
        }
    }
}

/// How a bound lies to another.
///
/// The inner side of a start is what is greater than it, that of an end what is less. So over `u32`
/// `Start(Included(0))` lies to `Start(Excluded(0))` as `Excluded(true)`, and the other way round
/// as `Included(false)`; to `Start(Included(2))` it lies as `Excluded(false)`.
#[derive(Clone, Copy, PartialEq, Eq, Debug)]
pub enum BoundOrdering {
    /// On the other's inner side, or at it: the flag says which.
    Included(bool),
    /// On the other's outer side. The flag says whether no bound of the key type can lie between.
    Excluded(bool),
}

/// How far two keys lie apart.
#[derive(Clone, Copy, PartialEq, Eq, Debug)]
pub enum Dist {
    /// They are equal.
    Equals,
    /// They are neighbours: no key lies between.
    Zero,
    /// One key lies between.
    One,
    /// They are further apart.
    More,
}

/// Bounds that compare with the bounds of keys `T`, with a result that may be missing.
///
/// It never is, since keys are totally ordered.
pub trait BoundPartialOrd<T: PartialEnum> {
    // The bound that is meant.
    ghost directed: { Self → Directed (Bound T) };

    /// `Some` of what [`BoundOrd::bound_cmp`] returns, always. Allocates nothing.
    fn bound_partial_cmp<B: AsBound<Item = T>>(&self, other: &Directed<B>) -> Option<BoundOrdering>
        ensures { result
            ≡ Some (bound_ordering T.order (directed self.now) (directed_map B.bound other.now)) };
}

/// Bounds that compare with the bounds of keys `T`.
pub trait BoundOrd<T: PartialEnum>: BoundPartialOrd<T> {
    /// How this bound lies to the other, by their positions. Allocates nothing.
    fn bound_cmp<B: AsBound<Item = T>>(&self, other: &Directed<B>) -> BoundOrdering
        ensures { result
            ≡ bound_ordering T.order (Self.directed self.now) (directed_map B.bound other.now) };
}

impl<A: AsBound> BoundPartialOrd<A::Item> for Directed<A>
where
    A::Item: PartialEnum,
{
    ghost directed = { directed_map A.bound };

    fn bound_partial_cmp<B: AsBound<Item = A::Item>>(
        &self,
        other: &Directed<B>,
    ) -> Option<BoundOrdering> {
        Some(self.bound_cmp(other))
    }
}

impl<A: AsBound> BoundOrd<A::Item> for Directed<A>
where
    A::Item: PartialEnum,
{
    fn bound_cmp<B: AsBound<Item = A::Item>>(&self, other: &Directed<B>) -> BoundOrdering {
        bound_ordering_at(other, &position_of(self), &position_of(other))
    }
}

/// How the first position lies to the second, which is that of the other bound.
fn bound_ordering_at<B: AsBound>(
    other: &Directed<B>,
    own: &Position<KeyRef<'_, B::Item>>,
    others: &Position<KeyRef<'_, B::Item>>,
) -> BoundOrdering
where
    B::Item: PartialEnum,
    ensures { result
        ≡ ordering_to B.Item.order (directed_map B.bound other.now)
        (position_map key_value own.now) (position_map key_value others.now)
        (position_cmp B.Item.order.cmp (position_map key_value own.now)
        (position_map key_value others.now)) }
{
    match (compare_positions(own, others), other) {
        (Ordering::Equal, _) => BoundOrdering::Included(true),
        (Ordering::Greater, Directed::Start(_)) => BoundOrdering::Included(false),
        (Ordering::Less, Directed::End(_)) => BoundOrdering::Included(false),
        (Ordering::Less, Directed::Start(_)) => BoundOrdering::Excluded(touches(own, others)),
        (Ordering::Greater, Directed::End(_)) => BoundOrdering::Excluded(touches(others, own)),
    }
}

impl<'a, T: PartialEnum> PartialEq for Directed<Bound<&'a T>> {
    ghost eq = { on (reference_position T.order) (eq_by_cmp (position_cmp T.order.cmp)) };

    ghost laws = { on_per (reference_position T.order)
        (partial_equiv_from_equiv (eq_by_cmp_equiv (position_total T.order.cmp T.lawful.total))) };

    fn eq(&self, other: &Self) -> bool {
        compare_positions(&position_of(self), &position_of(other)) == Ordering::Equal
    }
}

impl<'a, T: PartialEnum> Eq for Directed<Bound<&'a T>> {
    ghost laws = { on_equiv (reference_position T.order)
        (eq_by_cmp_equiv (position_total T.order.cmp T.lawful.total)) };
}

impl<'a, T: PartialEnum> PartialOrd for Directed<Bound<&'a T>> {
    ghost partial_cmp = { as_partial_cmp
        (on (reference_position T.order) (position_cmp T.order.cmp)) };

    ghost laws = { partial_order_from_total
        (on_total (reference_position T.order) (position_total T.order.cmp T.lawful.total)) };

    fn partial_cmp(&self, other: &Self) -> Option<Ordering> {
        Some(self.cmp(other))
    }
}

impl<'a, T: PartialEnum> Ord for Directed<Bound<&'a T>> {
    ghost cmp = { on (reference_position T.order) (position_cmp T.order.cmp) };

    ghost total = { on_total (reference_position T.order)
        (position_total T.order.cmp T.lawful.total) };

    ghost matches_partial_cmp = { λ a b. refl };

    ghost matches_eq = { λ a b. refl };

    fn cmp(&self, other: &Self) -> Ordering {
        compare_positions(&position_of(self), &position_of(other))
    }
}

impl<'a, T: PartialEnum + Hash> Hash for Directed<Bound<&'a T>> {
    ghost hash_input = { λ d. position_input T.hash_input (reference_position T.order d) };

    ghost respects_eq = { λ x y e. position_respects T.order.cmp T.hash_input
        (λ a b f. T.respects_eq a b (T.matches_eq a b ∙ ap is_eq (T.order_is_cmp a b ∙ f)))
        (reference_position T.order x) (reference_position T.order y) e };

    fn hash<H: Hasher>(&self, state: &mut H) {
        match position_of(self) {
            Position::MinusInfinity => state.write_u8(0),
            Position::Beside(key, side) => {
                state.write_u8(match side {
                    Side::Before => 1,
                    Side::At => 2,
                    Side::After => 3,
                });
                key.get().hash(state);
            }
            Position::PlusInfinity => state.write_u8(4),
        }
    }
}
