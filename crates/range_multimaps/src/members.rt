//! Sets that a multimap may keep as its values.
ghost use Rattle.std.specs.Prelude.{◌≡◌, ◌↔◌, ◌||◌, ◌&&◌, not, Bool, IsTrue, IfOk, OnOk, OnErr, Some};
ghost use Rattle.range_algebra.specs.Range.{ClonesAreEqual};
ghost use Rattle.range_multimaps.specs.Members.{HasNone, HaveSame, HasEither, HasFirstAlone, HasAlso, HasAllBut};

mod btree_set;
mod hash_set;

use std::alloc::{AllocError, Global};

/// A type of sets, whatever their members are.
pub trait MaybeEmpty: Eq + Clone + Drop {
    /// Holds of a set with no member.
    ghost is_void: { Self → Type 0 };

    /// Holds of every set that there is at run time.
    ghost is_set: { Self → Type 0 };

    /// The empty set. Allocates nothing.
    fn default(alloc: Global) -> Self
        ensures { is_void result };

    /// Whether there is no member. Allocates nothing.
    fn is_empty(&self) -> bool
        ensures { IsTrue result ↔ is_void self.now };

    /// Does nothing, and promises that its argument is a set.
    fn known(&self)
        ensures { is_set self.now };

    /// What equals a set with no member has none.
    ghost void_equal: { (s t : Self) → IsTrue (Self.PartialEq.eq s t) → is_void s → is_void t };
}

/// A type of sets of values, seen as the values that a set has, up to equality.
///
/// std's `BTreeSet` and `HashSet` are such types.
pub trait SetMut<V: Eq + Clone>: MaybeEmpty {
    /// Whether a set has a member that equals the value.
    ghost has: { Self → V → Bool };

    /// Whether a member equals the value. Allocates nothing.
    fn contains(&self, value: &V) -> bool
        ensures { result ≡ has self.now value.now };

    /// Adds a value, and nothing else. Fails where an allocation fails; then the set has what it
    /// had.
    fn insert(&mut self, value: V) -> Result<(), AllocError>
        ensures added { OnOk result (HasAlso has V.eq (Some self.old) (Some self.new) value) }
        ensures refused { OnErr result (HaveSame has self.old self.new) };

    /// Takes a value out, and nothing else. Allocates nothing.
    fn remove(&mut self, value: &V)
        ensures { HasAllBut has V.eq (Some self.old) (Some self.new) value.now };

    /// A set with no member is one that has no value.
    ghost void_is: { (s : Self) → Self.MaybeEmpty.is_void s ↔ HasNone has s };

    /// A set has a value exactly where it has each equal one.
    ghost has_equal: { (s : Self) (v w : V) → IsTrue (V.eq v w) → has s v ≡ has s w };

    /// Equal sets have the same values.
    ghost equal_same: { (s t : Self) → IsTrue (Self.PartialEq.eq s t) → HaveSame has s t };

    /// Sets that have the same values are equal.
    ghost same_equal: { (s t : Self) → Self.MaybeEmpty.is_set s → Self.MaybeEmpty.is_set t
        → HaveSame has s t → IsTrue (Self.PartialEq.eq s t) };

    /// Where clones of values equal their source, so do clones of sets.
    ghost clones_equal: { ClonesAreEqual V.is_clone V.eq
        → ClonesAreEqual Self.Clone.is_clone Self.PartialEq.eq };
}

/// A type of sets that can be put together, as the union and the difference of multimaps ask.
///
/// std's `BTreeSet` and `HashSet` are such types.
pub trait SetAlgebra<V: Eq + Clone>: SetMut<V> {
    /// A set of the values that are in this set, in the other, or in both. Fails where an
    /// allocation fails.
    fn united_with(&self, other: &Self) -> Result<Self, AllocError>
        requires { ClonesAreEqual V.is_clone V.eq }
        ensures { IfOk result (λ new. HasEither Self.SetMut.has self.now other.now new) };

    /// A set of the values of this set that are not in the other. Fails where an allocation fails.
    fn without(&self, other: &Self) -> Result<Self, AllocError>
        requires { ClonesAreEqual V.is_clone V.eq }
        ensures { IfOk result (λ new. HasFirstAlone Self.SetMut.has self.now other.now new) };
}
