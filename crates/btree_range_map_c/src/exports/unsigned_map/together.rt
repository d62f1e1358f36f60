//! The calls on two maps of `u64` keys to `u64` values.
ghost use Rattle.std.specs.Prelude.{map, ◌≡◌, ◌≢◌, ◌↔◌, [], ◌++◌, nat_eq, ◌∷◌};
ghost use Rattle.btree_range_map.specs.Appending.{LieBefore};
ghost use Rattle.btree_range_map.specs.Bindings.{BindAlike};
ghost use Rattle.btree_range_map.specs.Names.{u64_order};
ghost use Rattle.btree_range_map.specs.Splitting.{IsSplitAt};
ghost use Rattle.range_handles.specs.Held.{HoldsMap, map_items};
ghost use Rattle.btree_range_map_c.specs.Statuses.{Both, IsAnswerOfTwo};

use range_ffi::status::{CLOSED, DONE, NO_MEMORY, OTHER_KIND, OUT_OF_ORDER};
use range_handles::collection::Collection;
use range_handles::handle::Handle;

/// Moves what lies from the key on, the key with it, to the other map, in place of what that held.
///
/// A stored range that holds the key is cut there. Allocates what the other map needs. Costs a step
/// for each range that is moved.
#[unsafe(no_mangle)]
pub extern "C" fn brm_raw_map_u64_split_off(
    handle: &mut Handle,
    key: u64,
    other: &mut Handle,
) -> u32
    ensures split { result ≡ DONE
        → IsSplitAt u64_order nat_eq key (map_items handle.old.seal.held)
        (map_items handle.new.seal.held) (map_items other.new.seal.held) }
    ensures kind { result ≡ DONE
        → HoldsMap handle.new.seal.held × HoldsMap other.new.seal.held }
    ensures refused { result ≢ DONE → (handle.new.seal.held ≡ handle.old.seal.held)
        × (other.new.seal.held ≡ other.old.seal.held) }
    ensures answer { IsAnswerOfTwo (Both HoldsMap) handle.old other.old result
        (DONE ∷ NO_MEMORY ∷ []) }
{
    if !handle.is_open || !other.is_open {
        return CLOSED;
    }
    match (handle.seal.as_mut(), other.seal.as_mut()) {
        (Collection::Unsigned(kept), Collection::Unsigned(rest)) => kept.split_off(key, rest),
        (_, _) => OTHER_KIND,
    }
}

/// Moves all ranges of the other map, with their values, to the end of this one.
///
/// Each of them lies after all ranges of this map, or the call answers `OUT_OF_ORDER`. The first
/// may become one with the last of this map. Costs a step for each range that is moved.
#[unsafe(no_mangle)]
pub extern "C" fn brm_raw_map_u64_append(handle: &mut Handle, other: &mut Handle) -> u32
    ensures bound { result ≡ DONE → BindAlike u64_order nat_eq (map_items handle.new.seal.held)
        (map_items handle.old.seal.held ++ map_items other.old.seal.held) }
    ensures emptied { result ≡ DONE → map_items other.new.seal.held ≡ [] }
    ensures kind { result ≡ DONE
        → HoldsMap handle.new.seal.held × HoldsMap other.new.seal.held }
    ensures out_of_order { HoldsMap handle.old.seal.held → HoldsMap other.old.seal.held
        → (result ≡ OUT_OF_ORDER
        ↔ ¬ LieBefore u64_order (map_items handle.old.seal.held)
        (map_items other.old.seal.held)) }
    ensures refused { result ≢ DONE → (handle.new.seal.held ≡ handle.old.seal.held)
        × (other.new.seal.held ≡ other.old.seal.held) }
    ensures answer { IsAnswerOfTwo (Both HoldsMap) handle.old other.old result
        (DONE ∷ NO_MEMORY ∷ OUT_OF_ORDER ∷ []) }
{
    if !handle.is_open || !other.is_open {
        return CLOSED;
    }
    match (handle.seal.as_mut(), other.seal.as_mut()) {
        (Collection::Unsigned(kept), Collection::Unsigned(rest)) => kept.append(rest),
        (_, _) => OTHER_KIND,
    }
}
