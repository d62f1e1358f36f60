//! The calls on maps of `u64` keys to `u64` values.
ghost use Rattle.std.specs.Prelude.{map, length, ◌≡◌, ◌≢◌, ◌⊎◌, ◌↔◌, [], ◌∷◌, ◌++◌, Some, None, true, false, nat_eq};
ghost use Rattle.btree_range_map.specs.Bindings.{Binds, IsBound, IsItemFor, IsBoundAfter, IsUnboundAfter};
ghost use Rattle.btree_range_map.specs.Lookups.{BindsKeyOf, IsConnectedToSome, MeetsSome};
ghost use Rattle.btree_range_map.specs.Names.{u64_order};
ghost use Rattle.btree_range_map.specs.Numbers.{IsNumberOfKeys};
ghost use Rattle.btree_range_map.specs.Range.{IsEmptyRange};
ghost use Rattle.btree_range_map.specs.Overlapping.{AreOverlapping};
ghost use Rattle.range_ffi.specs.Flags.{range_of, entry_item, number_of, from_key, upto_key};
ghost use Rattle.range_handles.specs.Held.{HoldsMap, map_items};
ghost use Rattle.range_handles.specs.Lists.{Ranges};
ghost use Rattle.btree_range_map_c.specs.Statuses.{IsAnswer};

mod many;
mod together;

use range_ffi::bounds::{Bounds, Entry, Length};
use range_ffi::status::{CLOSED, CONNECTED, DONE, NO_MEMORY, NONE, OCCUPIED, OPEN, OTHER_KIND};
use range_handles::collection::Collection;
use range_handles::handle::Handle;
use range_handles::kept_map::KeptMap;
use range_handles::reads;
use std::alloc::Global;

/// Opens a closed handle, on an empty map. Allocates one block.
#[unsafe(no_mangle)]
pub extern "C" fn brm_map_u64_create(alloc: Global, handle: &mut Handle) -> u32
    ensures created { result ≡ DONE → (HoldsMap handle.new.seal.held)
        × (map_items handle.new.seal.held ≡ []) }
    ensures refused { result ≢ DONE → handle.new.seal.held ≡ handle.old.seal.held }
    ensures open { handle.old.is_open ≡ true → result ≡ OPEN }
    ensures answer { handle.old.is_open ≡ false → (result ≡ DONE) ⊎ (result ≡ NO_MEMORY) }
{
    if handle.is_open {
        return OPEN;
    }
    handle.fill(alloc, Collection::Unsigned(KeptMap::new(alloc)))
}

/// Binds each key of the range to the value. An empty range changes nothing.
#[unsafe(no_mangle)]
pub extern "C" fn brm_map_u64_insert(handle: &mut Handle, range: &Bounds, value: u64) -> u32
    ensures bound { result ≡ DONE
        → IsBoundAfter u64_order nat_eq (map_items handle.old.seal.held)
        (map_items handle.new.seal.held) (range_of range.now) value }
    ensures empty { IsEmptyRange u64_order (range_of range.now)
        → HoldsMap handle.old.seal.held → result ≡ DONE }
    ensures empty_unchanged { IsEmptyRange u64_order (range_of range.now)
        → handle.new.seal.held ≡ handle.old.seal.held }
    ensures kind { HoldsMap handle.old.seal.held → HoldsMap handle.new.seal.held }
    ensures refused { result ≢ DONE → handle.new.seal.held ≡ handle.old.seal.held }
    ensures answer { IsAnswer HoldsMap handle.old result (DONE ∷ NO_MEMORY ∷ []) }
{
    if !handle.is_open {
        return CLOSED;
    }
    match handle.seal.as_mut() {
        Collection::Unsigned(kept) => kept.insert(range.range(), value),
        _ => OTHER_KIND,
    }
}

/// Binds each key of a range that neither meets nor touches a stored one.
#[unsafe(no_mangle)]
pub extern "C" fn brm_map_u64_insert_disconnected(
    handle: &mut Handle,
    range: &Bounds,
    value: u64,
) -> u32
    ensures bound { result ≡ DONE
        → IsBoundAfter u64_order nat_eq (map_items handle.old.seal.held)
        (map_items handle.new.seal.held) (range_of range.now) value }
    ensures connected { HoldsMap handle.old.seal.held → (result ≡ CONNECTED
        ↔ (¬ IsEmptyRange u64_order (range_of range.now))
        × IsConnectedToSome u64_order (map_items handle.old.seal.held) (range_of range.now)) }
    ensures empty { IsEmptyRange u64_order (range_of range.now)
        → HoldsMap handle.old.seal.held → result ≡ DONE }
    ensures empty_unchanged { IsEmptyRange u64_order (range_of range.now)
        → handle.new.seal.held ≡ handle.old.seal.held }
    ensures kind { HoldsMap handle.old.seal.held → HoldsMap handle.new.seal.held }
    ensures refused { result ≢ DONE → handle.new.seal.held ≡ handle.old.seal.held }
    ensures answer { IsAnswer HoldsMap handle.old result (DONE ∷ NO_MEMORY ∷ CONNECTED ∷ []) }
{
    if !handle.is_open {
        return CLOSED;
    }
    match handle.seal.as_mut() {
        Collection::Unsigned(kept) => kept.insert_disconnected(range.range(), value),
        _ => OTHER_KIND,
    }
}

/// Binds each key of a range that meets no stored one. It may touch stored ranges.
#[unsafe(no_mangle)]
pub extern "C" fn brm_map_u64_try_insert(handle: &mut Handle, range: &Bounds, value: u64) -> u32
    ensures bound { result ≡ DONE
        → IsBoundAfter u64_order nat_eq (map_items handle.old.seal.held)
        (map_items handle.new.seal.held) (range_of range.now) value }
    ensures occupied { HoldsMap handle.old.seal.held → (result ≡ OCCUPIED
        ↔ (¬ IsEmptyRange u64_order (range_of range.now))
        × MeetsSome u64_order (map_items handle.old.seal.held) (range_of range.now)) }
    ensures empty { IsEmptyRange u64_order (range_of range.now)
        → HoldsMap handle.old.seal.held → result ≡ DONE }
    ensures empty_unchanged { IsEmptyRange u64_order (range_of range.now)
        → handle.new.seal.held ≡ handle.old.seal.held }
    ensures kind { HoldsMap handle.old.seal.held → HoldsMap handle.new.seal.held }
    ensures refused { result ≢ DONE → handle.new.seal.held ≡ handle.old.seal.held }
    ensures answer { IsAnswer HoldsMap handle.old result (DONE ∷ NO_MEMORY ∷ OCCUPIED ∷ []) }
{
    if !handle.is_open {
        return CLOSED;
    }
    match handle.seal.as_mut() {
        Collection::Unsigned(kept) => kept.try_insert(range.range(), value),
        _ => OTHER_KIND,
    }
}

/// Binds no key of the range. An empty range changes nothing.
#[unsafe(no_mangle)]
pub extern "C" fn brm_map_u64_remove(handle: &mut Handle, range: &Bounds) -> u32
    ensures unbound { result ≡ DONE
        → IsUnboundAfter u64_order nat_eq (map_items handle.old.seal.held)
        (map_items handle.new.seal.held) (range_of range.now) }
    ensures empty { IsEmptyRange u64_order (range_of range.now)
        → HoldsMap handle.old.seal.held → result ≡ DONE }
    ensures empty_unchanged { IsEmptyRange u64_order (range_of range.now)
        → handle.new.seal.held ≡ handle.old.seal.held }
    ensures kind { HoldsMap handle.old.seal.held → HoldsMap handle.new.seal.held }
    ensures refused { result ≢ DONE → handle.new.seal.held ≡ handle.old.seal.held }
    ensures answer { IsAnswer HoldsMap handle.old result (DONE ∷ NO_MEMORY ∷ []) }
{
    if !handle.is_open {
        return CLOSED;
    }
    match handle.seal.as_mut() {
        Collection::Unsigned(kept) => kept.remove(range.range()),
        _ => OTHER_KIND,
    }
}

/// Writes the stored range that holds the key, with its value.
#[unsafe(no_mangle)]
pub extern "C" fn brm_map_u64_get(handle: &mut Handle, key: u64, entry: &mut Entry) -> u32
    ensures unchanged { handle.new.seal.held ≡ handle.old.seal.held }
    ensures found { result ≡ DONE
        → IsItemFor u64_order (map_items handle.old.seal.held) key (entry_item entry.new) }
    ensures bound { result ≡ DONE
        → Binds u64_order nat_eq (map_items handle.old.seal.held) key (Some entry.new.value) }
    ensures free { result ≢ DONE
        → Binds u64_order nat_eq (map_items handle.old.seal.held) key None }
    ensures unwritten { result ≢ DONE → entry.new ≡ entry.old }
    ensures answer { IsAnswer HoldsMap handle.old result (DONE ∷ NONE ∷ []) }
{
    if !handle.is_open {
        return CLOSED;
    }
    match handle.seal.as_mut() {
        Collection::Unsigned(kept) => reads::get(kept.as_map(), key, entry),
        _ => OTHER_KIND,
    }
}

/// Whether the key is bound: `DONE` where it is, `NONE` where it is not.
#[unsafe(no_mangle)]
pub extern "C" fn brm_map_u64_contains(handle: &mut Handle, key: u64) -> u32
    ensures unchanged { handle.new.seal.held ≡ handle.old.seal.held }
    ensures yes { result ≡ DONE → IsBound u64_order (map_items handle.old.seal.held) key }
    ensures no { result ≡ NONE → ¬ IsBound u64_order (map_items handle.old.seal.held) key }
    ensures answer { IsAnswer HoldsMap handle.old result (DONE ∷ NONE ∷ []) }
{
    if !handle.is_open {
        return CLOSED;
    }
    match handle.seal.as_mut() {
        Collection::Unsigned(kept) => reads::contains(kept.as_map(), key),
        _ => OTHER_KIND,
    }
}

/// Whether some key of the range is bound: `DONE` where one is, `NONE` where none is.
#[unsafe(no_mangle)]
pub extern "C" fn brm_map_u64_intersects(handle: &mut Handle, range: &Bounds) -> u32
    ensures unchanged { handle.new.seal.held ≡ handle.old.seal.held }
    ensures yes { result ≡ DONE
        → BindsKeyOf u64_order (map_items handle.old.seal.held) (range_of range.now) }
    ensures no { result ≡ NONE
        → ¬ BindsKeyOf u64_order (map_items handle.old.seal.held) (range_of range.now) }
    ensures answer { IsAnswer HoldsMap handle.old result (DONE ∷ NONE ∷ []) }
{
    if !handle.is_open {
        return CLOSED;
    }
    match handle.seal.as_mut() {
        Collection::Unsigned(kept) => reads::intersects(kept.as_map(), range.range()),
        _ => OTHER_KIND,
    }
}

/// Writes how many keys are bound.
#[unsafe(no_mangle)]
pub extern "C" fn brm_map_u64_len(handle: &mut Handle, length: &mut Length) -> u32
    ensures unchanged { handle.new.seal.held ≡ handle.old.seal.held }
    ensures counted { result ≡ DONE → IsNumberOfKeys u64_order
        (IsBound u64_order (map_items handle.old.seal.held)) (number_of length.new) }
    ensures unwritten { result ≢ DONE → length.new ≡ length.old }
    ensures answer { IsAnswer HoldsMap handle.old result (DONE ∷ []) }
{
    if !handle.is_open {
        return CLOSED;
    }
    match handle.seal.as_mut() {
        Collection::Unsigned(kept) => reads::len(kept.as_map(), length),
        _ => OTHER_KIND,
    }
}

/// Writes the first stored range, with its value.
#[unsafe(no_mangle)]
pub extern "C" fn brm_map_u64_first(handle: &mut Handle, entry: &mut Entry) -> u32
    ensures unchanged { handle.new.seal.held ≡ handle.old.seal.held }
    ensures first { result ≡ DONE → (rest : Ranges)
        × (map_items handle.old.seal.held ≡ entry_item entry.new ∷ rest) }
    ensures none { result ≢ DONE → map_items handle.old.seal.held ≡ [] }
    ensures unwritten { result ≢ DONE → entry.new ≡ entry.old }
    ensures answer { IsAnswer HoldsMap handle.old result (DONE ∷ NONE ∷ []) }
{
    if !handle.is_open {
        return CLOSED;
    }
    match handle.seal.as_mut() {
        Collection::Unsigned(kept) => reads::first(kept.as_map(), entry),
        _ => OTHER_KIND,
    }
}

/// Writes the last stored range, with its value.
#[unsafe(no_mangle)]
pub extern "C" fn brm_map_u64_last(handle: &mut Handle, entry: &mut Entry) -> u32
    ensures unchanged { handle.new.seal.held ≡ handle.old.seal.held }
    ensures last { result ≡ DONE → (front : Ranges)
        × (map_items handle.old.seal.held ≡ front ++ entry_item entry.new ∷ []) }
    ensures none { result ≢ DONE → map_items handle.old.seal.held ≡ [] }
    ensures unwritten { result ≢ DONE → entry.new ≡ entry.old }
    ensures answer { IsAnswer HoldsMap handle.old result (DONE ∷ NONE ∷ []) }
{
    if !handle.is_open {
        return CLOSED;
    }
    match handle.seal.as_mut() {
        Collection::Unsigned(kept) => reads::last(kept.as_map(), entry),
        _ => OTHER_KIND,
    }
}

/// Writes the first stored range that ends at the key or after it, with its value.
///
/// It is the first of those that meet the keys from this one on; all before it end below the key.
/// Costs one search.
#[unsafe(no_mangle)]
pub extern "C" fn brm_map_u64_next(handle: &mut Handle, key: u64, entry: &mut Entry) -> u32
    ensures unchanged { handle.new.seal.held ≡ handle.old.seal.held }
    ensures next { result ≡ DONE → (rest : Ranges)
        × AreOverlapping u64_order (map_items handle.old.seal.held) (from_key key)
        (entry_item entry.new ∷ rest) }
    ensures none { result ≡ NONE
        → AreOverlapping u64_order (map_items handle.old.seal.held) (from_key key) [] }
    ensures unwritten { result ≢ DONE → entry.new ≡ entry.old }
    ensures answer { IsAnswer HoldsMap handle.old result (DONE ∷ NONE ∷ []) }
{
    if !handle.is_open {
        return CLOSED;
    }
    match handle.seal.as_mut() {
        Collection::Unsigned(kept) => reads::next(kept.as_map(), key, entry),
        _ => OTHER_KIND,
    }
}

/// Writes the last stored range that starts at the key or before it, with its value.
///
/// It is the last of those that meet the keys up to this one; all after it start past the key.
/// Costs two searches.
#[unsafe(no_mangle)]
pub extern "C" fn brm_map_u64_previous(handle: &mut Handle, key: u64, entry: &mut Entry) -> u32
    ensures unchanged { handle.new.seal.held ≡ handle.old.seal.held }
    ensures previous { result ≡ DONE → (front : Ranges)
        × AreOverlapping u64_order (map_items handle.old.seal.held) (upto_key key)
        (front ++ entry_item entry.new ∷ []) }
    ensures none { result ≡ NONE
        → AreOverlapping u64_order (map_items handle.old.seal.held) (upto_key key) [] }
    ensures unwritten { result ≢ DONE → entry.new ≡ entry.old }
    ensures answer { IsAnswer HoldsMap handle.old result (DONE ∷ NONE ∷ []) }
{
    if !handle.is_open {
        return CLOSED;
    }
    match handle.seal.as_mut() {
        Collection::Unsigned(kept) => reads::previous(kept.as_map(), key, entry),
        _ => OTHER_KIND,
    }
}

/// Takes the first stored range out, and writes it with its value. Allocates nothing.
#[unsafe(no_mangle)]
pub extern "C" fn brm_map_u64_pop_first(handle: &mut Handle, entry: &mut Entry) -> u32
    ensures first { result ≡ DONE → map_items handle.old.seal.held
        ≡ entry_item entry.new ∷ map_items handle.new.seal.held }
    ensures none { result ≢ DONE → map_items handle.old.seal.held ≡ [] }
    ensures kind { HoldsMap handle.old.seal.held → HoldsMap handle.new.seal.held }
    ensures unchanged { result ≢ DONE → handle.new.seal.held ≡ handle.old.seal.held }
    ensures unwritten { result ≢ DONE → entry.new ≡ entry.old }
    ensures answer { IsAnswer HoldsMap handle.old result (DONE ∷ NONE ∷ []) }
{
    if !handle.is_open {
        return CLOSED;
    }
    match handle.seal.as_mut() {
        Collection::Unsigned(kept) => kept.pop_first(entry),
        _ => OTHER_KIND,
    }
}

/// Takes the last stored range out, and writes it with its value. Allocates nothing.
#[unsafe(no_mangle)]
pub extern "C" fn brm_map_u64_pop_last(handle: &mut Handle, entry: &mut Entry) -> u32
    ensures last { result ≡ DONE → map_items handle.old.seal.held
        ≡ map_items handle.new.seal.held ++ entry_item entry.new ∷ [] }
    ensures none { result ≢ DONE → map_items handle.old.seal.held ≡ [] }
    ensures kind { HoldsMap handle.old.seal.held → HoldsMap handle.new.seal.held }
    ensures unchanged { result ≢ DONE → handle.new.seal.held ≡ handle.old.seal.held }
    ensures unwritten { result ≢ DONE → entry.new ≡ entry.old }
    ensures answer { IsAnswer HoldsMap handle.old result (DONE ∷ NONE ∷ []) }
{
    if !handle.is_open {
        return CLOSED;
    }
    match handle.seal.as_mut() {
        Collection::Unsigned(kept) => kept.pop_last(entry),
        _ => OTHER_KIND,
    }
}
