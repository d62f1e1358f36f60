//! The calls on sets of keys of 128 bits.
ghost use Rattle.std.specs.Prelude.{length, ◌≡◌, ◌≢◌, ◌⊎◌, ◌↔◌, [], ◌∷◌, ◌++◌, true, false};
ghost use Rattle.btree_range_map.specs.Bindings.{IsItemFor};
ghost use Rattle.btree_range_map.specs.FreeRanges.{item_ranges};
ghost use Rattle.btree_range_map.specs.KeySets.{HoldsKey, HoldsAlso, HoldsWithout};
ghost use Rattle.btree_range_map.specs.Lookups.{BindsKeyOf, MeetsSome};
ghost use Rattle.address_keys.specs.Addresses.{ipv6_order};
ghost use Rattle.btree_range_map.specs.Overlapping.{AreOverlapping};
ghost use Rattle.btree_range_map.specs.Range.{IsEmptyRange};
ghost use Rattle.range_ffi.specs.Flags.{from_key, upto_key};
ghost use Rattle.range_ffi.specs.Wide.{wide_bounds_item, wide_key, wide_range_of};
ghost use Rattle.range_handles.specs.Held.{HoldsWideSet, wide_set_items};
ghost use Rattle.range_handles.specs.Lists.{WideKeyRanges};
ghost use Rattle.btree_range_map_c.specs.Statuses.{IsAnswer};

mod many;

use range_ffi::status::{CLOSED, DONE, NO_MEMORY, NONE, OCCUPIED, OPEN, OTHER_KIND};
use range_ffi::wide::{WideBounds, WideKey};
use range_handles::collection::Collection;
use range_handles::handle::Handle;
use range_handles::kept_set::KeptSet;
use range_handles::reads;
use std::alloc::Global;

/// Opens a closed handle, on an empty set. Allocates one block.
#[unsafe(no_mangle)]
pub extern "C" fn brm_set_u128_create(alloc: Global, handle: &mut Handle) -> u32
    ensures created { result ≡ DONE → (HoldsWideSet handle.new.seal.held)
        × (wide_set_items handle.new.seal.held ≡ []) }
    ensures refused { result ≢ DONE → handle.new.seal.held ≡ handle.old.seal.held }
    ensures open { handle.old.is_open ≡ true → result ≡ OPEN }
    ensures answer { handle.old.is_open ≡ false → (result ≡ DONE) ⊎ (result ≡ NO_MEMORY) }
{
    if handle.is_open {
        return OPEN;
    }
    handle.fill(alloc, Collection::WideSet(KeptSet::new(alloc)))
}

/// Adds each key of the range. An empty range changes nothing.
#[unsafe(no_mangle)]
pub extern "C" fn brm_set_u128_insert(handle: &mut Handle, range: &WideBounds) -> u32
    ensures added { result ≡ DONE
        → HoldsAlso ipv6_order (wide_set_items handle.old.seal.held)
        (wide_set_items handle.new.seal.held) (wide_range_of range.now) }
    ensures empty { IsEmptyRange ipv6_order (wide_range_of range.now)
        → HoldsWideSet handle.old.seal.held → result ≡ DONE }
    ensures empty_unchanged { IsEmptyRange ipv6_order (wide_range_of range.now)
        → handle.new.seal.held ≡ handle.old.seal.held }
    ensures kind { HoldsWideSet handle.old.seal.held → HoldsWideSet handle.new.seal.held }
    ensures refused { result ≢ DONE → handle.new.seal.held ≡ handle.old.seal.held }
    ensures answer { IsAnswer HoldsWideSet handle.old result (DONE ∷ NO_MEMORY ∷ []) }
{
    if !handle.is_open {
        return CLOSED;
    }
    match handle.seal.as_mut() {
        Collection::WideSet(kept) => kept.insert(range.range()),
        _ => OTHER_KIND,
    }
}

/// Adds each key of a range that meets no stored one. It may touch stored ranges.
#[unsafe(no_mangle)]
pub extern "C" fn brm_set_u128_try_insert(handle: &mut Handle, range: &WideBounds) -> u32
    ensures added { result ≡ DONE
        → HoldsAlso ipv6_order (wide_set_items handle.old.seal.held)
        (wide_set_items handle.new.seal.held) (wide_range_of range.now) }
    ensures occupied { HoldsWideSet handle.old.seal.held → (result ≡ OCCUPIED
        ↔ (¬ IsEmptyRange ipv6_order (wide_range_of range.now))
        × MeetsSome ipv6_order (wide_set_items handle.old.seal.held) (wide_range_of range.now)) }
    ensures empty { IsEmptyRange ipv6_order (wide_range_of range.now)
        → HoldsWideSet handle.old.seal.held → result ≡ DONE }
    ensures empty_unchanged { IsEmptyRange ipv6_order (wide_range_of range.now)
        → handle.new.seal.held ≡ handle.old.seal.held }
    ensures kind { HoldsWideSet handle.old.seal.held → HoldsWideSet handle.new.seal.held }
    ensures refused { result ≢ DONE → handle.new.seal.held ≡ handle.old.seal.held }
    ensures answer { IsAnswer HoldsWideSet handle.old result (DONE ∷ NO_MEMORY ∷ OCCUPIED ∷ []) }
{
    if !handle.is_open {
        return CLOSED;
    }
    match handle.seal.as_mut() {
        Collection::WideSet(kept) => kept.try_insert(range.range()),
        _ => OTHER_KIND,
    }
}

/// Takes each key of the range away. An empty range changes nothing.
#[unsafe(no_mangle)]
pub extern "C" fn brm_set_u128_remove(handle: &mut Handle, range: &WideBounds) -> u32
    ensures removed { result ≡ DONE
        → HoldsWithout ipv6_order (wide_set_items handle.old.seal.held)
        (wide_set_items handle.new.seal.held) (wide_range_of range.now) }
    ensures empty { IsEmptyRange ipv6_order (wide_range_of range.now)
        → HoldsWideSet handle.old.seal.held → result ≡ DONE }
    ensures empty_unchanged { IsEmptyRange ipv6_order (wide_range_of range.now)
        → handle.new.seal.held ≡ handle.old.seal.held }
    ensures kind { HoldsWideSet handle.old.seal.held → HoldsWideSet handle.new.seal.held }
    ensures refused { result ≢ DONE → handle.new.seal.held ≡ handle.old.seal.held }
    ensures answer { IsAnswer HoldsWideSet handle.old result (DONE ∷ NO_MEMORY ∷ []) }
{
    if !handle.is_open {
        return CLOSED;
    }
    match handle.seal.as_mut() {
        Collection::WideSet(kept) => kept.remove(range.range()),
        _ => OTHER_KIND,
    }
}

/// Writes the stored range that holds the key.
#[unsafe(no_mangle)]
pub extern "C" fn brm_set_u128_get(
    handle: &mut Handle,
    key: &WideKey,
    entry: &mut WideBounds,
) -> u32
    ensures unchanged { handle.new.seal.held ≡ handle.old.seal.held }
    ensures found { result ≡ DONE
        → IsItemFor ipv6_order (wide_set_items handle.old.seal.held) (wide_key key.now)
        (wide_bounds_item entry.new) }
    ensures free { result ≢ DONE
        → ¬ HoldsKey ipv6_order (wide_set_items handle.old.seal.held) (wide_key key.now) }
    ensures unwritten { result ≢ DONE → entry.new ≡ entry.old }
    ensures answer { IsAnswer HoldsWideSet handle.old result (DONE ∷ NONE ∷ []) }
{
    if !handle.is_open {
        return CLOSED;
    }
    match handle.seal.as_mut() {
        Collection::WideSet(kept) => reads::get(kept.as_map(), key.key(), entry),
        _ => OTHER_KIND,
    }
}

/// Whether the key is in the set: `DONE` where it is, `NONE` where it is not.
#[unsafe(no_mangle)]
pub extern "C" fn brm_set_u128_contains(handle: &mut Handle, key: &WideKey) -> u32
    ensures unchanged { handle.new.seal.held ≡ handle.old.seal.held }
    ensures yes { result ≡ DONE
        → HoldsKey ipv6_order (wide_set_items handle.old.seal.held) (wide_key key.now) }
    ensures no { result ≡ NONE
        → ¬ HoldsKey ipv6_order (wide_set_items handle.old.seal.held) (wide_key key.now) }
    ensures answer { IsAnswer HoldsWideSet handle.old result (DONE ∷ NONE ∷ []) }
{
    if !handle.is_open {
        return CLOSED;
    }
    match handle.seal.as_mut() {
        Collection::WideSet(kept) => reads::contains(kept.as_map(), key.key()),
        _ => OTHER_KIND,
    }
}

/// Whether some key of the range is in the set: `DONE` where one is, `NONE` where none is.
#[unsafe(no_mangle)]
pub extern "C" fn brm_set_u128_intersects(handle: &mut Handle, range: &WideBounds) -> u32
    ensures unchanged { handle.new.seal.held ≡ handle.old.seal.held }
    ensures yes { result ≡ DONE
        → BindsKeyOf ipv6_order (wide_set_items handle.old.seal.held) (wide_range_of range.now) }
    ensures no { result ≡ NONE
        → ¬ BindsKeyOf ipv6_order (wide_set_items handle.old.seal.held) (wide_range_of range.now) }
    ensures answer { IsAnswer HoldsWideSet handle.old result (DONE ∷ NONE ∷ []) }
{
    if !handle.is_open {
        return CLOSED;
    }
    match handle.seal.as_mut() {
        Collection::WideSet(kept) => reads::intersects(kept.as_map(), range.range()),
        _ => OTHER_KIND,
    }
}

/// Writes the first stored range.
#[unsafe(no_mangle)]
pub extern "C" fn brm_set_u128_first(handle: &mut Handle, entry: &mut WideBounds) -> u32
    ensures unchanged { handle.new.seal.held ≡ handle.old.seal.held }
    ensures first { result ≡ DONE → (rest : WideKeyRanges)
        × (wide_set_items handle.old.seal.held ≡ wide_bounds_item entry.new ∷ rest) }
    ensures none { result ≢ DONE → wide_set_items handle.old.seal.held ≡ [] }
    ensures unwritten { result ≢ DONE → entry.new ≡ entry.old }
    ensures answer { IsAnswer HoldsWideSet handle.old result (DONE ∷ NONE ∷ []) }
{
    if !handle.is_open {
        return CLOSED;
    }
    match handle.seal.as_mut() {
        Collection::WideSet(kept) => reads::first(kept.as_map(), entry),
        _ => OTHER_KIND,
    }
}

/// Writes the last stored range.
#[unsafe(no_mangle)]
pub extern "C" fn brm_set_u128_last(handle: &mut Handle, entry: &mut WideBounds) -> u32
    ensures unchanged { handle.new.seal.held ≡ handle.old.seal.held }
    ensures last { result ≡ DONE → (front : WideKeyRanges)
        × (wide_set_items handle.old.seal.held ≡ front ++ wide_bounds_item entry.new ∷ []) }
    ensures none { result ≢ DONE → wide_set_items handle.old.seal.held ≡ [] }
    ensures unwritten { result ≢ DONE → entry.new ≡ entry.old }
    ensures answer { IsAnswer HoldsWideSet handle.old result (DONE ∷ NONE ∷ []) }
{
    if !handle.is_open {
        return CLOSED;
    }
    match handle.seal.as_mut() {
        Collection::WideSet(kept) => reads::last(kept.as_map(), entry),
        _ => OTHER_KIND,
    }
}

/// Writes the first stored range that ends at the key or after it.
///
/// It is the first of those that meet the keys from this one on; all before it end below the key.
/// Costs one search.
#[unsafe(no_mangle)]
pub extern "C" fn brm_set_u128_next(
    handle: &mut Handle,
    key: &WideKey,
    entry: &mut WideBounds,
) -> u32
    ensures unchanged { handle.new.seal.held ≡ handle.old.seal.held }
    ensures next { result ≡ DONE → (rest : WideKeyRanges)
        × AreOverlapping ipv6_order (wide_set_items handle.old.seal.held) (from_key
        (wide_key key.now))
        (wide_bounds_item entry.new ∷ rest) }
    ensures none { result ≡ NONE
        → AreOverlapping ipv6_order (wide_set_items handle.old.seal.held) (from_key
        (wide_key key.now)) [] }
    ensures unwritten { result ≢ DONE → entry.new ≡ entry.old }
    ensures answer { IsAnswer HoldsWideSet handle.old result (DONE ∷ NONE ∷ []) }
{
    if !handle.is_open {
        return CLOSED;
    }
    match handle.seal.as_mut() {
        Collection::WideSet(kept) => reads::next(kept.as_map(), key.key(), entry),
        _ => OTHER_KIND,
    }
}

/// Writes the last stored range that starts at the key or before it.
///
/// It is the last of those that meet the keys up to this one; all after it start past the key.
/// Costs two searches.
#[unsafe(no_mangle)]
pub extern "C" fn brm_set_u128_previous(
    handle: &mut Handle,
    key: &WideKey,
    entry: &mut WideBounds,
) -> u32
    ensures unchanged { handle.new.seal.held ≡ handle.old.seal.held }
    ensures previous { result ≡ DONE → (front : WideKeyRanges)
        × AreOverlapping ipv6_order (wide_set_items handle.old.seal.held) (upto_key
        (wide_key key.now))
        (front ++ wide_bounds_item entry.new ∷ []) }
    ensures none { result ≡ NONE
        → AreOverlapping ipv6_order (wide_set_items handle.old.seal.held) (upto_key
        (wide_key key.now)) [] }
    ensures unwritten { result ≢ DONE → entry.new ≡ entry.old }
    ensures answer { IsAnswer HoldsWideSet handle.old result (DONE ∷ NONE ∷ []) }
{
    if !handle.is_open {
        return CLOSED;
    }
    match handle.seal.as_mut() {
        Collection::WideSet(kept) => reads::previous(kept.as_map(), key.key(), entry),
        _ => OTHER_KIND,
    }
}

/// Takes the first stored range out, and writes it. Allocates nothing.
#[unsafe(no_mangle)]
pub extern "C" fn brm_set_u128_pop_first(handle: &mut Handle, entry: &mut WideBounds) -> u32
    ensures first { result ≡ DONE → item_ranges (wide_set_items handle.old.seal.held)
        ≡ wide_range_of entry.new ∷ item_ranges (wide_set_items handle.new.seal.held) }
    ensures none { result ≢ DONE → wide_set_items handle.old.seal.held ≡ [] }
    ensures kind { HoldsWideSet handle.old.seal.held → HoldsWideSet handle.new.seal.held }
    ensures unchanged { result ≢ DONE → handle.new.seal.held ≡ handle.old.seal.held }
    ensures unwritten { result ≢ DONE → entry.new ≡ entry.old }
    ensures answer { IsAnswer HoldsWideSet handle.old result (DONE ∷ NONE ∷ []) }
{
    if !handle.is_open {
        return CLOSED;
    }
    match handle.seal.as_mut() {
        Collection::WideSet(kept) => kept.pop_first(entry),
        _ => OTHER_KIND,
    }
}

/// Takes the last stored range out, and writes it. Allocates nothing.
#[unsafe(no_mangle)]
pub extern "C" fn brm_set_u128_pop_last(handle: &mut Handle, entry: &mut WideBounds) -> u32
    ensures last { result ≡ DONE → item_ranges (wide_set_items handle.old.seal.held)
        ≡ item_ranges (wide_set_items handle.new.seal.held) ++ wide_range_of entry.new ∷ [] }
    ensures none { result ≢ DONE → wide_set_items handle.old.seal.held ≡ [] }
    ensures kind { HoldsWideSet handle.old.seal.held → HoldsWideSet handle.new.seal.held }
    ensures unchanged { result ≢ DONE → handle.new.seal.held ≡ handle.old.seal.held }
    ensures unwritten { result ≢ DONE → entry.new ≡ entry.old }
    ensures answer { IsAnswer HoldsWideSet handle.old result (DONE ∷ NONE ∷ []) }
{
    if !handle.is_open {
        return CLOSED;
    }
    match handle.seal.as_mut() {
        Collection::WideSet(kept) => kept.pop_last(entry),
        _ => OTHER_KIND,
    }
}
