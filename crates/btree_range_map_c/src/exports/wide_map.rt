//! The calls on maps of keys of 128 bits to `u64` values.
ghost use Rattle.std.specs.Prelude.{map, length, ◌≡◌, ◌≢◌, ◌⊎◌, ◌↔◌, [], ◌∷◌, ◌++◌, Some, None, true, false, nat_eq};
ghost use Rattle.btree_range_map.specs.Bindings.{Binds, IsBound, IsItemFor, IsBoundAfter, IsUnboundAfter};
ghost use Rattle.btree_range_map.specs.Lookups.{BindsKeyOf, IsConnectedToSome, MeetsSome};
ghost use Rattle.address_keys.specs.Addresses.{ipv6_order};
ghost use Rattle.btree_range_map.specs.Range.{IsEmptyRange};
ghost use Rattle.btree_range_map.specs.Overlapping.{AreOverlapping};
ghost use Rattle.range_ffi.specs.Flags.{from_key, upto_key};
ghost use Rattle.range_ffi.specs.Wide.{wide_entry_item, wide_key, wide_range_of};
ghost use Rattle.range_handles.specs.Held.{HoldsWideMap, wide_items};
ghost use Rattle.range_handles.specs.Lists.{WideRanges};
ghost use Rattle.btree_range_map_c.specs.Statuses.{IsAnswer};

mod many;
mod tables;
mod together;

use range_ffi::status::{CLOSED, CONNECTED, DONE, NO_MEMORY, NONE, OCCUPIED, OPEN, OTHER_KIND};
use range_ffi::wide::{WideBounds, WideEntry, WideKey};
use range_handles::collection::Collection;
use range_handles::handle::Handle;
use range_handles::kept_map::KeptMap;
use range_handles::reads;
use std::alloc::Global;

/// Opens a closed handle, on an empty map. Allocates one block.
#[unsafe(no_mangle)]
pub extern "C" fn brm_map_u128_create(alloc: Global, handle: &mut Handle) -> u32
    ensures created { result ≡ DONE → (HoldsWideMap handle.new.seal.held)
        × (wide_items handle.new.seal.held ≡ []) }
    ensures refused { result ≢ DONE → handle.new.seal.held ≡ handle.old.seal.held }
    ensures open { handle.old.is_open ≡ true → result ≡ OPEN }
    ensures answer { handle.old.is_open ≡ false → (result ≡ DONE) ⊎ (result ≡ NO_MEMORY) }
{
    if handle.is_open {
        return OPEN;
    }
    handle.fill(alloc, Collection::Wide(KeptMap::new(alloc)))
}

/// Binds each key of the range to the value. An empty range changes nothing.
#[unsafe(no_mangle)]
pub extern "C" fn brm_map_u128_insert(handle: &mut Handle, range: &WideBounds, value: u64) -> u32
    ensures bound { result ≡ DONE
        → IsBoundAfter ipv6_order nat_eq (wide_items handle.old.seal.held)
        (wide_items handle.new.seal.held) (wide_range_of range.now) value }
    ensures empty { IsEmptyRange ipv6_order (wide_range_of range.now)
        → HoldsWideMap handle.old.seal.held → result ≡ DONE }
    ensures empty_unchanged { IsEmptyRange ipv6_order (wide_range_of range.now)
        → handle.new.seal.held ≡ handle.old.seal.held }
    ensures kind { HoldsWideMap handle.old.seal.held → HoldsWideMap handle.new.seal.held }
    ensures refused { result ≢ DONE → handle.new.seal.held ≡ handle.old.seal.held }
    ensures answer { IsAnswer HoldsWideMap handle.old result (DONE ∷ NO_MEMORY ∷ []) }
{
    if !handle.is_open {
        return CLOSED;
    }
    match handle.seal.as_mut() {
        Collection::Wide(kept) => kept.insert(range.range(), value),
        _ => OTHER_KIND,
    }
}

/// Binds each key of a range that neither meets nor touches a stored one.
#[unsafe(no_mangle)]
pub extern "C" fn brm_map_u128_insert_disconnected(
    handle: &mut Handle,
    range: &WideBounds,
    value: u64,
) -> u32
    ensures bound { result ≡ DONE
        → IsBoundAfter ipv6_order nat_eq (wide_items handle.old.seal.held)
        (wide_items handle.new.seal.held) (wide_range_of range.now) value }
    ensures connected { HoldsWideMap handle.old.seal.held → (result ≡ CONNECTED
        ↔ (¬ IsEmptyRange ipv6_order (wide_range_of range.now))
        × IsConnectedToSome ipv6_order (wide_items handle.old.seal.held)
        (wide_range_of range.now)) }
    ensures empty { IsEmptyRange ipv6_order (wide_range_of range.now)
        → HoldsWideMap handle.old.seal.held → result ≡ DONE }
    ensures empty_unchanged { IsEmptyRange ipv6_order (wide_range_of range.now)
        → handle.new.seal.held ≡ handle.old.seal.held }
    ensures kind { HoldsWideMap handle.old.seal.held → HoldsWideMap handle.new.seal.held }
    ensures refused { result ≢ DONE → handle.new.seal.held ≡ handle.old.seal.held }
    ensures answer { IsAnswer HoldsWideMap handle.old result (DONE ∷ NO_MEMORY ∷ CONNECTED ∷ []) }
{
    if !handle.is_open {
        return CLOSED;
    }
    match handle.seal.as_mut() {
        Collection::Wide(kept) => kept.insert_disconnected(range.range(), value),
        _ => OTHER_KIND,
    }
}

/// Binds each key of a range that meets no stored one. It may touch stored ranges.
#[unsafe(no_mangle)]
pub extern "C" fn brm_map_u128_try_insert(
    handle: &mut Handle,
    range: &WideBounds,
    value: u64,
) -> u32
    ensures bound { result ≡ DONE
        → IsBoundAfter ipv6_order nat_eq (wide_items handle.old.seal.held)
        (wide_items handle.new.seal.held) (wide_range_of range.now) value }
    ensures occupied { HoldsWideMap handle.old.seal.held → (result ≡ OCCUPIED
        ↔ (¬ IsEmptyRange ipv6_order (wide_range_of range.now))
        × MeetsSome ipv6_order (wide_items handle.old.seal.held) (wide_range_of range.now)) }
    ensures empty { IsEmptyRange ipv6_order (wide_range_of range.now)
        → HoldsWideMap handle.old.seal.held → result ≡ DONE }
    ensures empty_unchanged { IsEmptyRange ipv6_order (wide_range_of range.now)
        → handle.new.seal.held ≡ handle.old.seal.held }
    ensures kind { HoldsWideMap handle.old.seal.held → HoldsWideMap handle.new.seal.held }
    ensures refused { result ≢ DONE → handle.new.seal.held ≡ handle.old.seal.held }
    ensures answer { IsAnswer HoldsWideMap handle.old result (DONE ∷ NO_MEMORY ∷ OCCUPIED ∷ []) }
{
    if !handle.is_open {
        return CLOSED;
    }
    match handle.seal.as_mut() {
        Collection::Wide(kept) => kept.try_insert(range.range(), value),
        _ => OTHER_KIND,
    }
}

/// Binds no key of the range. An empty range changes nothing.
#[unsafe(no_mangle)]
pub extern "C" fn brm_map_u128_remove(handle: &mut Handle, range: &WideBounds) -> u32
    ensures unbound { result ≡ DONE
        → IsUnboundAfter ipv6_order nat_eq (wide_items handle.old.seal.held)
        (wide_items handle.new.seal.held) (wide_range_of range.now) }
    ensures empty { IsEmptyRange ipv6_order (wide_range_of range.now)
        → HoldsWideMap handle.old.seal.held → result ≡ DONE }
    ensures empty_unchanged { IsEmptyRange ipv6_order (wide_range_of range.now)
        → handle.new.seal.held ≡ handle.old.seal.held }
    ensures kind { HoldsWideMap handle.old.seal.held → HoldsWideMap handle.new.seal.held }
    ensures refused { result ≢ DONE → handle.new.seal.held ≡ handle.old.seal.held }
    ensures answer { IsAnswer HoldsWideMap handle.old result (DONE ∷ NO_MEMORY ∷ []) }
{
    if !handle.is_open {
        return CLOSED;
    }
    match handle.seal.as_mut() {
        Collection::Wide(kept) => kept.remove(range.range()),
        _ => OTHER_KIND,
    }
}

/// Writes the stored range that holds the key, with its value.
#[unsafe(no_mangle)]
pub extern "C" fn brm_map_u128_get(handle: &mut Handle, key: &WideKey, entry: &mut WideEntry) -> u32
    ensures unchanged { handle.new.seal.held ≡ handle.old.seal.held }
    ensures found { result ≡ DONE
        → IsItemFor ipv6_order (wide_items handle.old.seal.held) (wide_key key.now)
        (wide_entry_item entry.new) }
    ensures bound { result ≡ DONE
        → Binds ipv6_order nat_eq (wide_items handle.old.seal.held)
        (wide_key key.now) (Some entry.new.value) }
    ensures free { result ≢ DONE
        → Binds ipv6_order nat_eq (wide_items handle.old.seal.held) (wide_key key.now) None }
    ensures unwritten { result ≢ DONE → entry.new ≡ entry.old }
    ensures answer { IsAnswer HoldsWideMap handle.old result (DONE ∷ NONE ∷ []) }
{
    if !handle.is_open {
        return CLOSED;
    }
    match handle.seal.as_mut() {
        Collection::Wide(kept) => reads::get(kept.as_map(), key.key(), entry),
        _ => OTHER_KIND,
    }
}

/// Whether the key is bound: `DONE` where it is, `NONE` where it is not.
#[unsafe(no_mangle)]
pub extern "C" fn brm_map_u128_contains(handle: &mut Handle, key: &WideKey) -> u32
    ensures unchanged { handle.new.seal.held ≡ handle.old.seal.held }
    ensures yes { result ≡ DONE
        → IsBound ipv6_order (wide_items handle.old.seal.held) (wide_key key.now) }
    ensures no { result ≡ NONE
        → ¬ IsBound ipv6_order (wide_items handle.old.seal.held) (wide_key key.now) }
    ensures answer { IsAnswer HoldsWideMap handle.old result (DONE ∷ NONE ∷ []) }
{
    if !handle.is_open {
        return CLOSED;
    }
    match handle.seal.as_mut() {
        Collection::Wide(kept) => reads::contains(kept.as_map(), key.key()),
        _ => OTHER_KIND,
    }
}

/// Whether some key of the range is bound: `DONE` where one is, `NONE` where none is.
#[unsafe(no_mangle)]
pub extern "C" fn brm_map_u128_intersects(handle: &mut Handle, range: &WideBounds) -> u32
    ensures unchanged { handle.new.seal.held ≡ handle.old.seal.held }
    ensures yes { result ≡ DONE
        → BindsKeyOf ipv6_order (wide_items handle.old.seal.held) (wide_range_of range.now) }
    ensures no { result ≡ NONE
        → ¬ BindsKeyOf ipv6_order (wide_items handle.old.seal.held) (wide_range_of range.now) }
    ensures answer { IsAnswer HoldsWideMap handle.old result (DONE ∷ NONE ∷ []) }
{
    if !handle.is_open {
        return CLOSED;
    }
    match handle.seal.as_mut() {
        Collection::Wide(kept) => reads::intersects(kept.as_map(), range.range()),
        _ => OTHER_KIND,
    }
}

/// Writes the first stored range, with its value.
#[unsafe(no_mangle)]
pub extern "C" fn brm_map_u128_first(handle: &mut Handle, entry: &mut WideEntry) -> u32
    ensures unchanged { handle.new.seal.held ≡ handle.old.seal.held }
    ensures first { result ≡ DONE → (rest : WideRanges)
        × (wide_items handle.old.seal.held ≡ wide_entry_item entry.new ∷ rest) }
    ensures none { result ≢ DONE → wide_items handle.old.seal.held ≡ [] }
    ensures unwritten { result ≢ DONE → entry.new ≡ entry.old }
    ensures answer { IsAnswer HoldsWideMap handle.old result (DONE ∷ NONE ∷ []) }
{
    if !handle.is_open {
        return CLOSED;
    }
    match handle.seal.as_mut() {
        Collection::Wide(kept) => reads::first(kept.as_map(), entry),
        _ => OTHER_KIND,
    }
}

/// Writes the last stored range, with its value.
#[unsafe(no_mangle)]
pub extern "C" fn brm_map_u128_last(handle: &mut Handle, entry: &mut WideEntry) -> u32
    ensures unchanged { handle.new.seal.held ≡ handle.old.seal.held }
    ensures last { result ≡ DONE → (front : WideRanges)
        × (wide_items handle.old.seal.held ≡ front ++ wide_entry_item entry.new ∷ []) }
    ensures none { result ≢ DONE → wide_items handle.old.seal.held ≡ [] }
    ensures unwritten { result ≢ DONE → entry.new ≡ entry.old }
    ensures answer { IsAnswer HoldsWideMap handle.old result (DONE ∷ NONE ∷ []) }
{
    if !handle.is_open {
        return CLOSED;
    }
    match handle.seal.as_mut() {
        Collection::Wide(kept) => reads::last(kept.as_map(), entry),
        _ => OTHER_KIND,
    }
}

/// Writes the first stored range that ends at the key or after it, with its value.
///
/// It is the first of those that meet the keys from this one on; all before it end below the key.
/// Costs one search.
#[unsafe(no_mangle)]
pub extern "C" fn brm_map_u128_next(
    handle: &mut Handle,
    key: &WideKey,
    entry: &mut WideEntry,
) -> u32
    ensures unchanged { handle.new.seal.held ≡ handle.old.seal.held }
    ensures next { result ≡ DONE → (rest : WideRanges)
        × AreOverlapping ipv6_order (wide_items handle.old.seal.held) (from_key (wide_key key.now))
        (wide_entry_item entry.new ∷ rest) }
    ensures none { result ≡ NONE
        → AreOverlapping ipv6_order (wide_items handle.old.seal.held) (from_key
        (wide_key key.now)) [] }
    ensures unwritten { result ≢ DONE → entry.new ≡ entry.old }
    ensures answer { IsAnswer HoldsWideMap handle.old result (DONE ∷ NONE ∷ []) }
{
    if !handle.is_open {
        return CLOSED;
    }
    match handle.seal.as_mut() {
        Collection::Wide(kept) => reads::next(kept.as_map(), key.key(), entry),
        _ => OTHER_KIND,
    }
}

/// Writes the last stored range that starts at the key or before it, with its value.
///
/// It is the last of those that meet the keys up to this one; all after it start past the key.
/// Costs two searches.
#[unsafe(no_mangle)]
pub extern "C" fn brm_map_u128_previous(
    handle: &mut Handle,
    key: &WideKey,
    entry: &mut WideEntry,
) -> u32
    ensures unchanged { handle.new.seal.held ≡ handle.old.seal.held }
    ensures previous { result ≡ DONE → (front : WideRanges)
        × AreOverlapping ipv6_order (wide_items handle.old.seal.held) (upto_key (wide_key key.now))
        (front ++ wide_entry_item entry.new ∷ []) }
    ensures none { result ≡ NONE
        → AreOverlapping ipv6_order (wide_items handle.old.seal.held) (upto_key
        (wide_key key.now)) [] }
    ensures unwritten { result ≢ DONE → entry.new ≡ entry.old }
    ensures answer { IsAnswer HoldsWideMap handle.old result (DONE ∷ NONE ∷ []) }
{
    if !handle.is_open {
        return CLOSED;
    }
    match handle.seal.as_mut() {
        Collection::Wide(kept) => reads::previous(kept.as_map(), key.key(), entry),
        _ => OTHER_KIND,
    }
}

/// Takes the first stored range out, and writes it with its value. Allocates nothing.
#[unsafe(no_mangle)]
pub extern "C" fn brm_map_u128_pop_first(handle: &mut Handle, entry: &mut WideEntry) -> u32
    ensures first { result ≡ DONE → wide_items handle.old.seal.held
        ≡ wide_entry_item entry.new ∷ wide_items handle.new.seal.held }
    ensures none { result ≢ DONE → wide_items handle.old.seal.held ≡ [] }
    ensures kind { HoldsWideMap handle.old.seal.held → HoldsWideMap handle.new.seal.held }
    ensures unchanged { result ≢ DONE → handle.new.seal.held ≡ handle.old.seal.held }
    ensures unwritten { result ≢ DONE → entry.new ≡ entry.old }
    ensures answer { IsAnswer HoldsWideMap handle.old result (DONE ∷ NONE ∷ []) }
{
    if !handle.is_open {
        return CLOSED;
    }
    match handle.seal.as_mut() {
        Collection::Wide(kept) => kept.pop_first(entry),
        _ => OTHER_KIND,
    }
}

/// Takes the last stored range out, and writes it with its value. Allocates nothing.
#[unsafe(no_mangle)]
pub extern "C" fn brm_map_u128_pop_last(handle: &mut Handle, entry: &mut WideEntry) -> u32
    ensures last { result ≡ DONE → wide_items handle.old.seal.held
        ≡ wide_items handle.new.seal.held ++ wide_entry_item entry.new ∷ [] }
    ensures none { result ≢ DONE → wide_items handle.old.seal.held ≡ [] }
    ensures kind { HoldsWideMap handle.old.seal.held → HoldsWideMap handle.new.seal.held }
    ensures unchanged { result ≢ DONE → handle.new.seal.held ≡ handle.old.seal.held }
    ensures unwritten { result ≢ DONE → entry.new ≡ entry.old }
    ensures answer { IsAnswer HoldsWideMap handle.old result (DONE ∷ NONE ∷ []) }
{
    if !handle.is_open {
        return CLOSED;
    }
    match handle.seal.as_mut() {
        Collection::Wide(kept) => kept.pop_last(entry),
        _ => OTHER_KIND,
    }
}
