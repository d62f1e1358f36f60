//! The calls on two sets of one kind of keys, and the complement of one.
ghost use Rattle.std.specs.Prelude.{◌≡◌, ◌≢◌, true, false, ◌∷◌, []};
ghost use Rattle.range_handles.specs.SetKinds.{AreDisjoint, AreSetsOfOneKind, HoldsAnySet, IsComplementOf, IsJoinOf, IsSubsetOf};
ghost use Rattle.range_handles.specs.declared.kept_set.algebra.Join.TheVariants.{Union, Intersection, Difference, SymmetricDifference};
ghost use Rattle.btree_range_map_c.specs.Statuses.{IsAnswer, IsAnswerOfTwo};

use range_ffi::status::{CLOSED, DONE, NO_MEMORY, NONE, OPEN};
use range_handles::handle::Handle;
use range_handles::kept_set::algebra::{self, Join};
use std::alloc::Global;

/// Opens a closed handle on a set that is made of two.
fn joined(
    alloc: Global,
    handle: &mut Handle,
    other: &mut Handle,
    join: Join,
    made: &mut Handle,
) -> u32
    ensures unchanged { (handle.new.seal.held ≡ handle.old.seal.held)
        × (other.new.seal.held ≡ other.old.seal.held) }
    ensures made { result ≡ DONE
        → IsJoinOf join handle.old.seal.held other.old.seal.held made.new.seal.held }
    ensures refused { result ≢ DONE → made.new.seal.held ≡ made.old.seal.held }
    ensures open { made.old.is_open ≡ true → result ≡ OPEN }
    ensures answer { made.old.is_open ≡ false
        → IsAnswerOfTwo AreSetsOfOneKind handle.old other.old result (DONE ∷ NO_MEMORY ∷ []) }
{
    if made.is_open {
        return OPEN;
    }
    if !handle.is_open || !other.is_open {
        return CLOSED;
    }
    let (first, second) = (handle.seal.as_mut(), other.seal.as_mut());
    algebra::joined(alloc, first, second, join, made)
}

/// Opens a closed handle on a set of the keys that are in either set, which stay as they are.
///
/// Allocates its ranges, a list of them before, and one block more. Goes once over both sets.
#[unsafe(no_mangle)]
pub extern "C" fn brm_raw_set_union(
    alloc: Global,
    handle: &mut Handle,
    other: &mut Handle,
    made: &mut Handle,
) -> u32
    ensures unchanged { (handle.new.seal.held ≡ handle.old.seal.held)
        × (other.new.seal.held ≡ other.old.seal.held) }
    ensures made { result ≡ DONE
        → IsJoinOf Union handle.old.seal.held other.old.seal.held made.new.seal.held }
    ensures refused { result ≢ DONE → made.new.seal.held ≡ made.old.seal.held }
    ensures open { made.old.is_open ≡ true → result ≡ OPEN }
    ensures answer { made.old.is_open ≡ false
        → IsAnswerOfTwo AreSetsOfOneKind handle.old other.old result (DONE ∷ NO_MEMORY ∷ []) }
{
    joined(alloc, handle, other, Join::Union, made)
}

/// Opens a closed handle on a set of the keys that are in both sets, which stay as they are.
///
/// Allocates its ranges, a list of them before, and one block more. Goes once over both sets.
#[unsafe(no_mangle)]
pub extern "C" fn brm_raw_set_intersection(
    alloc: Global,
    handle: &mut Handle,
    other: &mut Handle,
    made: &mut Handle,
) -> u32
    ensures unchanged { (handle.new.seal.held ≡ handle.old.seal.held)
        × (other.new.seal.held ≡ other.old.seal.held) }
    ensures made { result ≡ DONE
        → IsJoinOf Intersection handle.old.seal.held other.old.seal.held made.new.seal.held }
    ensures refused { result ≢ DONE → made.new.seal.held ≡ made.old.seal.held }
    ensures open { made.old.is_open ≡ true → result ≡ OPEN }
    ensures answer { made.old.is_open ≡ false
        → IsAnswerOfTwo AreSetsOfOneKind handle.old other.old result (DONE ∷ NO_MEMORY ∷ []) }
{
    joined(alloc, handle, other, Join::Intersection, made)
}

/// Opens a closed handle on a set of the keys of the first set that are not in the other.
/// Both stay as they are.
///
/// Allocates its ranges, a list of them before, and one block more. Goes once over both sets.
#[unsafe(no_mangle)]
pub extern "C" fn brm_raw_set_difference(
    alloc: Global,
    handle: &mut Handle,
    other: &mut Handle,
    made: &mut Handle,
) -> u32
    ensures unchanged { (handle.new.seal.held ≡ handle.old.seal.held)
        × (other.new.seal.held ≡ other.old.seal.held) }
    ensures made { result ≡ DONE
        → IsJoinOf Difference handle.old.seal.held other.old.seal.held made.new.seal.held }
    ensures refused { result ≢ DONE → made.new.seal.held ≡ made.old.seal.held }
    ensures open { made.old.is_open ≡ true → result ≡ OPEN }
    ensures answer { made.old.is_open ≡ false
        → IsAnswerOfTwo AreSetsOfOneKind handle.old other.old result (DONE ∷ NO_MEMORY ∷ []) }
{
    joined(alloc, handle, other, Join::Difference, made)
}

/// Opens a closed handle on a set of the keys that are in just one of the sets, which stay as they
/// are.
///
/// Allocates its ranges, a list of them before, and one block more. Goes once over both sets.
#[unsafe(no_mangle)]
pub extern "C" fn brm_raw_set_symmetric_difference(
    alloc: Global,
    handle: &mut Handle,
    other: &mut Handle,
    made: &mut Handle,
) -> u32
    ensures unchanged { (handle.new.seal.held ≡ handle.old.seal.held)
        × (other.new.seal.held ≡ other.old.seal.held) }
    ensures made { result ≡ DONE
        → IsJoinOf SymmetricDifference handle.old.seal.held other.old.seal.held
        made.new.seal.held }
    ensures refused { result ≢ DONE → made.new.seal.held ≡ made.old.seal.held }
    ensures open { made.old.is_open ≡ true → result ≡ OPEN }
    ensures answer { made.old.is_open ≡ false
        → IsAnswerOfTwo AreSetsOfOneKind handle.old other.old result (DONE ∷ NO_MEMORY ∷ []) }
{
    joined(alloc, handle, other, Join::SymmetricDifference, made)
}

/// Opens a closed handle on a set of just the keys that are not in the set, which stays as it is.
///
/// Allocates its ranges, and one block more. Goes once over the set.
#[unsafe(no_mangle)]
pub extern "C" fn brm_raw_set_complement(
    alloc: Global,
    handle: &mut Handle,
    made: &mut Handle,
) -> u32
    ensures unchanged { handle.new.seal.held ≡ handle.old.seal.held }
    ensures made { result ≡ DONE → IsComplementOf handle.old.seal.held made.new.seal.held }
    ensures refused { result ≢ DONE → made.new.seal.held ≡ made.old.seal.held }
    ensures open { made.old.is_open ≡ true → result ≡ OPEN }
    ensures answer { made.old.is_open ≡ false
        → IsAnswer HoldsAnySet handle.old result (DONE ∷ NO_MEMORY ∷ []) }
{
    if made.is_open {
        return OPEN;
    }
    if !handle.is_open {
        return CLOSED;
    }
    algebra::complement(alloc, handle.seal.as_mut(), made)
}

/// Whether each key of the set is in the other: `DONE` where it is, `NONE` where it is not.
///
/// Goes once over both sets.
#[unsafe(no_mangle)]
pub extern "C" fn brm_raw_set_is_subset(handle: &mut Handle, other: &mut Handle) -> u32
    ensures unchanged { (handle.new.seal.held ≡ handle.old.seal.held)
        × (other.new.seal.held ≡ other.old.seal.held) }
    ensures yes { result ≡ DONE → IsSubsetOf handle.old.seal.held other.old.seal.held }
    ensures no { result ≡ NONE → ¬ IsSubsetOf handle.old.seal.held other.old.seal.held }
    ensures answer { IsAnswerOfTwo AreSetsOfOneKind handle.old other.old result
        (DONE ∷ NONE ∷ []) }
{
    if !handle.is_open || !other.is_open {
        return CLOSED;
    }
    algebra::is_subset(handle.seal.as_mut(), other.seal.as_mut())
}

/// Whether no key is in both sets: `DONE` where none is, `NONE` where one is.
///
/// Goes once over both sets.
#[unsafe(no_mangle)]
pub extern "C" fn brm_raw_set_is_disjoint(handle: &mut Handle, other: &mut Handle) -> u32
    ensures unchanged { (handle.new.seal.held ≡ handle.old.seal.held)
        × (other.new.seal.held ≡ other.old.seal.held) }
    ensures yes { result ≡ DONE → AreDisjoint handle.old.seal.held other.old.seal.held }
    ensures no { result ≡ NONE → ¬ AreDisjoint handle.old.seal.held other.old.seal.held }
    ensures answer { IsAnswerOfTwo AreSetsOfOneKind handle.old other.old result
        (DONE ∷ NONE ∷ []) }
{
    if !handle.is_open || !other.is_open {
        return CLOSED;
    }
    algebra::is_disjoint(handle.seal.as_mut(), other.seal.as_mut())
}
