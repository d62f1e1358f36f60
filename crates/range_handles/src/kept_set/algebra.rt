//! The calls on two sets of one kind of keys, and the complement of one.
ghost use Rattle.std.specs.Prelude.{◌≡◌, ◌≢◌, ◌⊎◌, Some};
ghost use Rattle.range_handles.specs.SetKinds.{AreDisjoint, AreSetsOfOneKind, HoldsAnySet, IsComplementOf, IsJoinOf, IsSubsetOf};

use crate::collection::Collection;
use crate::handle::Handle;
use range_ffi::status::{DONE, NO_MEMORY, NONE, OTHER_KIND, answer};
use std::alloc::Global;

/// Which keys of two sets a set is made of.
#[derive(Drop, Clone, Copy)]
pub enum Join {
    /// Those in either.
    Union,
    /// Those in both.
    Intersection,
    /// Those of the first that are not in the other.
    Difference,
    /// Those in just one.
    SymmetricDifference,
}

/// Opens a closed handle on a set that is made of both sets.
pub fn joined(
    alloc: Global,
    collection: &Collection,
    other: &Collection,
    join: Join,
    made: &mut Handle,
) -> u32
    ensures made { result ≡ DONE
        → IsJoinOf join (Some collection.now) (Some other.now) made.new.seal.held }
    ensures refused { result ≢ DONE → made.new.seal.held ≡ made.old.seal.held }
    ensures answer { AreSetsOfOneKind (Some collection.now) (Some other.now)
        → (result ≡ DONE) ⊎ (result ≡ NO_MEMORY) }
    ensures other { (¬ AreSetsOfOneKind (Some collection.now) (Some other.now))
        → result ≡ OTHER_KIND }
{
    match (collection, other) {
        (Collection::Set(first), Collection::Set(second)) => match first.joined(second, join) {
            Ok(set) => made.fill(alloc, Collection::Set(set)),
            Err(_) => NO_MEMORY,
        },
        (Collection::SignedSet(first), Collection::SignedSet(second)) => {
            match first.joined(second, join) {
                Ok(set) => made.fill(alloc, Collection::SignedSet(set)),
                Err(_) => NO_MEMORY,
            }
        }
        (Collection::WideSet(first), Collection::WideSet(second)) => {
            match first.joined(second, join) {
                Ok(set) => made.fill(alloc, Collection::WideSet(set)),
                Err(_) => NO_MEMORY,
            }
        }
        (_, _) => OTHER_KIND,
    }
}

/// Opens a closed handle on a set of just the keys that are not in the set.
pub fn complement(alloc: Global, collection: &Collection, made: &mut Handle) -> u32
    ensures made { result ≡ DONE → IsComplementOf (Some collection.now) made.new.seal.held }
    ensures refused { result ≢ DONE → made.new.seal.held ≡ made.old.seal.held }
    ensures answer { HoldsAnySet (Some collection.now) → (result ≡ DONE) ⊎ (result ≡ NO_MEMORY) }
    ensures other { (¬ HoldsAnySet (Some collection.now)) → result ≡ OTHER_KIND }
{
    match collection {
        Collection::Set(kept) => match kept.complement() {
            Ok(set) => made.fill(alloc, Collection::Set(set)),
            Err(_) => NO_MEMORY,
        },
        Collection::SignedSet(kept) => match kept.complement() {
            Ok(set) => made.fill(alloc, Collection::SignedSet(set)),
            Err(_) => NO_MEMORY,
        },
        Collection::WideSet(kept) => match kept.complement() {
            Ok(set) => made.fill(alloc, Collection::WideSet(set)),
            Err(_) => NO_MEMORY,
        },
        _ => OTHER_KIND,
    }
}

/// Whether each key of the set is in the other.
pub fn is_subset(collection: &Collection, other: &Collection) -> u32
    ensures yes { result ≡ DONE → IsSubsetOf (Some collection.now) (Some other.now) }
    ensures no { result ≡ NONE → ¬ IsSubsetOf (Some collection.now) (Some other.now) }
    ensures answer { AreSetsOfOneKind (Some collection.now) (Some other.now)
        → (result ≡ DONE) ⊎ (result ≡ NONE) }
    ensures other { (¬ AreSetsOfOneKind (Some collection.now) (Some other.now))
        → result ≡ OTHER_KIND }
{
    match (collection, other) {
        (Collection::Set(first), Collection::Set(second)) => answer(first.is_subset(second)),
        (Collection::SignedSet(first), Collection::SignedSet(second)) => {
            answer(first.is_subset(second))
        }
        (Collection::WideSet(first), Collection::WideSet(second)) => {
            answer(first.is_subset(second))
        }
        (_, _) => OTHER_KIND,
    }
}

/// Whether no key is in both sets.
pub fn is_disjoint(collection: &Collection, other: &Collection) -> u32
    ensures yes { result ≡ DONE → AreDisjoint (Some collection.now) (Some other.now) }
    ensures no { result ≡ NONE → ¬ AreDisjoint (Some collection.now) (Some other.now) }
    ensures answer { AreSetsOfOneKind (Some collection.now) (Some other.now)
        → (result ≡ DONE) ⊎ (result ≡ NONE) }
    ensures other { (¬ AreSetsOfOneKind (Some collection.now) (Some other.now))
        → result ≡ OTHER_KIND }
{
    match (collection, other) {
        (Collection::Set(first), Collection::Set(second)) => answer(first.is_disjoint(second)),
        (Collection::SignedSet(first), Collection::SignedSet(second)) => {
            answer(first.is_disjoint(second))
        }
        (Collection::WideSet(first), Collection::WideSet(second)) => {
            answer(first.is_disjoint(second))
        }
        (_, _) => OTHER_KIND,
    }
}
