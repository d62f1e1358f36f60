//! The calls that make a map of two, or of a map and a set.
ghost use Rattle.std.specs.Prelude.{◌≡◌, ◌≢◌, true, false, ◌∷◌, []};
ghost use Rattle.range_handles.specs.MapKinds.{AreMapAndKeys, AreMapsOfOneKind, IsOverlayOf, IsPartOf};
ghost use Rattle.range_handles.specs.declared.kept_map.together.Part.TheVariants.{Shared, Rest};
ghost use Rattle.btree_range_map_c.specs.Statuses.{IsAnswerOfTwo};

use range_ffi::status::{CLOSED, DONE, NO_MEMORY, OPEN};
use range_handles::handle::Handle;
use range_handles::kept_map::together::{self, Part};
use std::alloc::Global;

/// Opens a closed handle on a map that binds each key as the other map does, or else as the first
/// does. Both are of one kind, and stay as they are.
///
/// Allocates its ranges, a list of them before, and one block more. Goes once over both.
#[unsafe(no_mangle)]
pub extern "C" fn brm_raw_overlay(
    alloc: Global,
    handle: &mut Handle,
    other: &mut Handle,
    made: &mut Handle,
) -> u32
    ensures unchanged { (handle.new.seal.held ≡ handle.old.seal.held)
        × (other.new.seal.held ≡ other.old.seal.held) }
    ensures made { result ≡ DONE
        → IsOverlayOf handle.old.seal.held other.old.seal.held made.new.seal.held }
    ensures refused { result ≢ DONE → made.new.seal.held ≡ made.old.seal.held }
    ensures open { made.old.is_open ≡ true → result ≡ OPEN }
    ensures answer { made.old.is_open ≡ false
        → IsAnswerOfTwo AreMapsOfOneKind handle.old other.old result (DONE ∷ NO_MEMORY ∷ []) }
{
    if made.is_open {
        return OPEN;
    }
    if !handle.is_open || !other.is_open {
        return CLOSED;
    }
    together::overlay(alloc, handle.seal.as_mut(), other.seal.as_mut(), made)
}

/// Opens a closed handle on a map of those bindings of the first map whose keys the other has too,
/// a map of the same kind or a set of the same keys. Both stay as they are.
///
/// Allocates its ranges, a list of them before, and one block more. Goes once over both.
#[unsafe(no_mangle)]
pub extern "C" fn brm_raw_restrict(
    alloc: Global,
    handle: &mut Handle,
    other: &mut Handle,
    made: &mut Handle,
) -> u32
    ensures unchanged { (handle.new.seal.held ≡ handle.old.seal.held)
        × (other.new.seal.held ≡ other.old.seal.held) }
    ensures made { result ≡ DONE
        → IsPartOf Shared handle.old.seal.held other.old.seal.held made.new.seal.held }
    ensures refused { result ≢ DONE → made.new.seal.held ≡ made.old.seal.held }
    ensures open { made.old.is_open ≡ true → result ≡ OPEN }
    ensures answer { made.old.is_open ≡ false
        → IsAnswerOfTwo AreMapAndKeys handle.old other.old result (DONE ∷ NO_MEMORY ∷ []) }
{
    if made.is_open {
        return OPEN;
    }
    if !handle.is_open || !other.is_open {
        return CLOSED;
    }
    let (first, second) = (handle.seal.as_mut(), other.seal.as_mut());
    together::part_of(alloc, first, second, Part::Shared, made)
}

/// Opens a closed handle on a map of those bindings of the first map whose keys the other has not,
/// a map of the same kind or a set of the same keys. Both stay as they are.
///
/// Allocates its ranges, a list of them before, and one block more. Goes once over both.
#[unsafe(no_mangle)]
pub extern "C" fn brm_raw_without(
    alloc: Global,
    handle: &mut Handle,
    other: &mut Handle,
    made: &mut Handle,
) -> u32
    ensures unchanged { (handle.new.seal.held ≡ handle.old.seal.held)
        × (other.new.seal.held ≡ other.old.seal.held) }
    ensures made { result ≡ DONE
        → IsPartOf Rest handle.old.seal.held other.old.seal.held made.new.seal.held }
    ensures refused { result ≢ DONE → made.new.seal.held ≡ made.old.seal.held }
    ensures open { made.old.is_open ≡ true → result ≡ OPEN }
    ensures answer { made.old.is_open ≡ false
        → IsAnswerOfTwo AreMapAndKeys handle.old other.old result (DONE ∷ NO_MEMORY ∷ []) }
{
    if made.is_open {
        return OPEN;
    }
    if !handle.is_open || !other.is_open {
        return CLOSED;
    }
    let (first, second) = (handle.seal.as_mut(), other.seal.as_mut());
    together::part_of(alloc, first, second, Part::Rest, made)
}
