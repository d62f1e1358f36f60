//! The calls on maps of `i64` keys to `u64` values.
ghost use Rattle.std.specs.Prelude.{map, length, ◌≡◌, ◌≢◌, ◌⊎◌, ◌↔◌, [], ◌∷◌, ◌++◌, Some, None, true, false, nat_eq};
ghost use Rattle.btree_range_map.specs.Bindings.{Binds, IsBound, IsItemFor, IsBoundAfter, IsUnboundAfter};
ghost use Rattle.btree_range_map.specs.Lookups.{BindsKeyOf, IsConnectedToSome, MeetsSome};
ghost use Rattle.btree_range_map.specs.Names.{i64_order};
ghost use Rattle.btree_range_map.specs.Numbers.{IsNumberOfKeys};
ghost use Rattle.btree_range_map.specs.Range.{IsEmptyRange};
ghost use Rattle.btree_range_map.specs.Overlapping.{AreOverlapping};
ghost use Rattle.range_ffi.specs.Flags.{signed_range_of, signed_entry_item, number_of, from_key, upto_key};
ghost use Rattle.range_handles.specs.Held.{HoldsSignedMap, signed_items};
ghost use Rattle.range_handles.specs.Lists.{SignedRanges};
ghost use Rattle.btree_range_map_c.specs.Statuses.{IsAnswer};

mod many;
mod together;

use range_ffi::bounds::{Length, SignedBounds, SignedEntry};
use range_ffi::status::{CLOSED, CONNECTED, DONE, NO_MEMORY, NONE, OCCUPIED, OPEN, OTHER_KIND};
use range_handles::collection::Collection;
use range_handles::handle::Handle;
use range_handles::kept_map::KeptMap;
use range_handles::reads;
use std::alloc::Global;

/// Opens a closed handle, on an empty map. Allocates one block.
#[unsafe(no_mangle)]
pub extern "C" fn brm_map_i64_create(alloc: Global, handle: &mut Handle) -> u32
    ensures created { result ≡ DONE → (HoldsSignedMap handle.new.seal.held)
        × (signed_items handle.new.seal.held ≡ []) }
    ensures refused { result ≢ DONE → handle.new.seal.held ≡ handle.old.seal.held }
    ensures open { handle.old.is_open ≡ true → result ≡ OPEN }
    ensures answer { handle.old.is_open ≡ false → (result ≡ DONE) ⊎ (result ≡ NO_MEMORY) }
{
    if handle.is_open {
        return OPEN;
    }
    handle.fill(alloc, Collection::Signed(KeptMap::new(alloc)))
}

/// Binds each key of the range to the value. An empty range changes nothing.
#[unsafe(no_mangle)]
pub extern "C" fn brm_map_i64_insert(handle: &mut Handle, range: &SignedBounds, value: u64) -> u32
    ensures bound { result ≡ DONE
        → IsBoundAfter i64_order nat_eq (signed_items handle.old.seal.held)
        (signed_items handle.new.seal.held) (signed_range_of range.now) value }
    ensures empty { IsEmptyRange i64_order (signed_range_of range.now)
        → HoldsSignedMap handle.old.seal.held → result ≡ DONE }
    ensures empty_unchanged { IsEmptyRange i64_order (signed_range_of range.now)
        → handle.new.seal.held ≡ handle.old.seal.held }
    ensures kind { HoldsSignedMap handle.old.seal.held → HoldsSignedMap handle.new.seal.held }
    ensures refused { result ≢ DONE → handle.new.seal.held ≡ handle.old.seal.held }
    ensures answer { IsAnswer HoldsSignedMap handle.old result (DONE ∷ NO_MEMORY ∷ []) }
{
    if !handle.is_open {
        return CLOSED;
    }
    match handle.seal.as_mut() {
        Collection::Signed(kept) => kept.insert(range.range(), value),
        _ => OTHER_KIND,
    }
}

/// Binds each key of a range that neither meets nor touches a stored one.
#[unsafe(no_mangle)]
pub extern "C" fn brm_map_i64_insert_disconnected(
    handle: &mut Handle,
    range: &SignedBounds,
    value: u64,
) -> u32
    ensures bound { result ≡ DONE
        → IsBoundAfter i64_order nat_eq (signed_items handle.old.seal.held)
        (signed_items handle.new.seal.held) (signed_range_of range.now) value }
    ensures connected { HoldsSignedMap handle.old.seal.held → (result ≡ CONNECTED
        ↔ (¬ IsEmptyRange i64_order (signed_range_of range.now))
        × IsConnectedToSome i64_order (signed_items handle.old.seal.held)
        (signed_range_of range.now)) }
    ensures empty { IsEmptyRange i64_order (signed_range_of range.now)
        → HoldsSignedMap handle.old.seal.held → result ≡ DONE }
    ensures empty_unchanged { IsEmptyRange i64_order (signed_range_of range.now)
        → handle.new.seal.held ≡ handle.old.seal.held }
    ensures kind { HoldsSignedMap handle.old.seal.held → HoldsSignedMap handle.new.seal.held }
    ensures refused { result ≢ DONE → handle.new.seal.held ≡ handle.old.seal.held }
    ensures answer { IsAnswer HoldsSignedMap handle.old result (DONE ∷ NO_MEMORY ∷ CONNECTED ∷ []) }
{
    if !handle.is_open {
        return CLOSED;
    }
    match handle.seal.as_mut() {
        Collection::Signed(kept) => kept.insert_disconnected(range.range(), value),
        _ => OTHER_KIND,
    }
}

/// Binds each key of a range that meets no stored one. It may touch stored ranges.
#[unsafe(no_mangle)]
pub extern "C" fn brm_map_i64_try_insert(
    handle: &mut Handle,
    range: &SignedBounds,
    value: u64,
) -> u32
    ensures bound { result ≡ DONE
        → IsBoundAfter i64_order nat_eq (signed_items handle.old.seal.held)
        (signed_items handle.new.seal.held) (signed_range_of range.now) value }
    ensures occupied { HoldsSignedMap handle.old.seal.held → (result ≡ OCCUPIED
        ↔ (¬ IsEmptyRange i64_order (signed_range_of range.now))
        × MeetsSome i64_order (signed_items handle.old.seal.held) (signed_range_of range.now)) }
    ensures empty { IsEmptyRange i64_order (signed_range_of range.now)
        → HoldsSignedMap handle.old.seal.held → result ≡ DONE }
    ensures empty_unchanged { IsEmptyRange i64_order (signed_range_of range.now)
        → handle.new.seal.held ≡ handle.old.seal.held }
    ensures kind { HoldsSignedMap handle.old.seal.held → HoldsSignedMap handle.new.seal.held }
    ensures refused { result ≢ DONE → handle.new.seal.held ≡ handle.old.seal.held }
    ensures answer { IsAnswer HoldsSignedMap handle.old result (DONE ∷ NO_MEMORY ∷ OCCUPIED ∷ []) }
{
    if !handle.is_open {
        return CLOSED;
    }
    match handle.seal.as_mut() {
        Collection::Signed(kept) => kept.try_insert(range.range(), value),
        _ => OTHER_KIND,
    }
}

/// Binds no key of the range. An empty range changes nothing.
#[unsafe(no_mangle)]
pub extern "C" fn brm_map_i64_remove(handle: &mut Handle, range: &SignedBounds) -> u32
    ensures unbound { result ≡ DONE
        → IsUnboundAfter i64_order nat_eq (signed_items handle.old.seal.held)
        (signed_items handle.new.seal.held) (signed_range_of range.now) }
    ensures empty { IsEmptyRange i64_order (signed_range_of range.now)
        → HoldsSignedMap handle.old.seal.held → result ≡ DONE }
    ensures empty_unchanged { IsEmptyRange i64_order (signed_range_of range.now)
        → handle.new.seal.held ≡ handle.old.seal.held }
    ensures kind { HoldsSignedMap handle.old.seal.held → HoldsSignedMap handle.new.seal.held }
    ensures refused { result ≢ DONE → handle.new.seal.held ≡ handle.old.seal.held }
    ensures answer { IsAnswer HoldsSignedMap handle.old result (DONE ∷ NO_MEMORY ∷ []) }
{
    if !handle.is_open {
        return CLOSED;
    }
    match handle.seal.as_mut() {
        Collection::Signed(kept) => kept.remove(range.range()),
        _ => OTHER_KIND,
    }
}

/// Writes the stored range that holds the key, with its value.
#[unsafe(no_mangle)]
pub extern "C" fn brm_map_i64_get(handle: &mut Handle, key: i64, entry: &mut SignedEntry) -> u32
    ensures unchanged { handle.new.seal.held ≡ handle.old.seal.held }
    ensures found { result ≡ DONE
        → IsItemFor i64_order (signed_items handle.old.seal.held) key
        (signed_entry_item entry.new) }
    ensures bound { result ≡ DONE
        → Binds i64_order nat_eq (signed_items handle.old.seal.held) key (Some entry.new.value) }
    ensures free { result ≢ DONE
        → Binds i64_order nat_eq (signed_items handle.old.seal.held) key None }
    ensures unwritten { result ≢ DONE → entry.new ≡ entry.old }
    ensures answer { IsAnswer HoldsSignedMap handle.old result (DONE ∷ NONE ∷ []) }
{
    if !handle.is_open {
        return CLOSED;
    }
    match handle.seal.as_mut() {
        Collection::Signed(kept) => reads::get(kept.as_map(), key, entry),
        _ => OTHER_KIND,
    }
}

/// Whether the key is bound: `DONE` where it is, `NONE` where it is not.
#[unsafe(no_mangle)]
pub extern "C" fn brm_map_i64_contains(handle: &mut Handle, key: i64) -> u32
    ensures unchanged { handle.new.seal.held ≡ handle.old.seal.held }
    ensures yes { result ≡ DONE → IsBound i64_order (signed_items handle.old.seal.held) key }
    ensures no { result ≡ NONE → ¬ IsBound i64_order (signed_items handle.old.seal.held) key }
    ensures answer { IsAnswer HoldsSignedMap handle.old result (DONE ∷ NONE ∷ []) }
{
    if !handle.is_open {
        return CLOSED;
    }
    match handle.seal.as_mut() {
        Collection::Signed(kept) => reads::contains(kept.as_map(), key),
        _ => OTHER_KIND,
    }
}

/// Whether some key of the range is bound: `DONE` where one is, `NONE` where none is.
#[unsafe(no_mangle)]
pub extern "C" fn brm_map_i64_intersects(handle: &mut Handle, range: &SignedBounds) -> u32
    ensures unchanged { handle.new.seal.held ≡ handle.old.seal.held }
    ensures yes { result ≡ DONE
        → BindsKeyOf i64_order (signed_items handle.old.seal.held) (signed_range_of range.now) }
    ensures no { result ≡ NONE
        → ¬ BindsKeyOf i64_order (signed_items handle.old.seal.held) (signed_range_of range.now) }
    ensures answer { IsAnswer HoldsSignedMap handle.old result (DONE ∷ NONE ∷ []) }
{
    if !handle.is_open {
        return CLOSED;
    }
    match handle.seal.as_mut() {
        Collection::Signed(kept) => reads::intersects(kept.as_map(), range.range()),
        _ => OTHER_KIND,
    }
}

/// Writes how many keys are bound.
#[unsafe(no_mangle)]
pub extern "C" fn brm_map_i64_len(handle: &mut Handle, length: &mut Length) -> u32
    ensures unchanged { handle.new.seal.held ≡ handle.old.seal.held }
    ensures counted { result ≡ DONE → IsNumberOfKeys i64_order
        (IsBound i64_order (signed_items handle.old.seal.held)) (number_of length.new) }
    ensures unwritten { result ≢ DONE → length.new ≡ length.old }
    ensures answer { IsAnswer HoldsSignedMap handle.old result (DONE ∷ []) }
{
    if !handle.is_open {
        return CLOSED;
    }
    match handle.seal.as_mut() {
        Collection::Signed(kept) => reads::len(kept.as_map(), length),
        _ => OTHER_KIND,
    }
}

/// Writes the first stored range, with its value.
#[unsafe(no_mangle)]
pub extern "C" fn brm_map_i64_first(handle: &mut Handle, entry: &mut SignedEntry) -> u32
    ensures unchanged { handle.new.seal.held ≡ handle.old.seal.held }
    ensures first { result ≡ DONE → (rest : SignedRanges)
        × (signed_items handle.old.seal.held ≡ signed_entry_item entry.new ∷ rest) }
    ensures none { result ≢ DONE → signed_items handle.old.seal.held ≡ [] }
    ensures unwritten { result ≢ DONE → entry.new ≡ entry.old }
    ensures answer { IsAnswer HoldsSignedMap handle.old result (DONE ∷ NONE ∷ []) }
{
    if !handle.is_open {
        return CLOSED;
    }
    match handle.seal.as_mut() {
        Collection::Signed(kept) => reads::first(kept.as_map(), entry),
        _ => OTHER_KIND,
    }
}

/// Writes the last stored range, with its value.
#[unsafe(no_mangle)]
pub extern "C" fn brm_map_i64_last(handle: &mut Handle, entry: &mut SignedEntry) -> u32
    ensures unchanged { handle.new.seal.held ≡ handle.old.seal.held }
    ensures last { result ≡ DONE → (front : SignedRanges)
        × (signed_items handle.old.seal.held ≡ front ++ signed_entry_item entry.new ∷ []) }
    ensures none { result ≢ DONE → signed_items handle.old.seal.held ≡ [] }
    ensures unwritten { result ≢ DONE → entry.new ≡ entry.old }
    ensures answer { IsAnswer HoldsSignedMap handle.old result (DONE ∷ NONE ∷ []) }
{
    if !handle.is_open {
        return CLOSED;
    }
    match handle.seal.as_mut() {
        Collection::Signed(kept) => reads::last(kept.as_map(), entry),
        _ => OTHER_KIND,
    }
}

/// Writes the first stored range that ends at the key or after it, with its value.
///
/// It is the first of those that meet the keys from this one on; all before it end below the key.
/// Costs one search.
#[unsafe(no_mangle)]
pub extern "C" fn brm_map_i64_next(handle: &mut Handle, key: i64, entry: &mut SignedEntry) -> u32
    ensures unchanged { handle.new.seal.held ≡ handle.old.seal.held }
    ensures next { result ≡ DONE → (rest : SignedRanges)
        × AreOverlapping i64_order (signed_items handle.old.seal.held) (from_key key)
        (signed_entry_item entry.new ∷ rest) }
    ensures none { result ≡ NONE
        → AreOverlapping i64_order (signed_items handle.old.seal.held) (from_key key) [] }
    ensures unwritten { result ≢ DONE → entry.new ≡ entry.old }
    ensures answer { IsAnswer HoldsSignedMap handle.old result (DONE ∷ NONE ∷ []) }
{
    if !handle.is_open {
        return CLOSED;
    }
    match handle.seal.as_mut() {
        Collection::Signed(kept) => reads::next(kept.as_map(), key, entry),
        _ => OTHER_KIND,
    }
}

/// Writes the last stored range that starts at the key or before it, with its value.
///
/// It is the last of those that meet the keys up to this one; all after it start past the key.
/// Costs two searches.
#[unsafe(no_mangle)]
pub extern "C" fn brm_map_i64_previous(
    handle: &mut Handle,
    key: i64,
    entry: &mut SignedEntry,
) -> u32
    ensures unchanged { handle.new.seal.held ≡ handle.old.seal.held }
    ensures previous { result ≡ DONE → (front : SignedRanges)
        × AreOverlapping i64_order (signed_items handle.old.seal.held) (upto_key key)
        (front ++ signed_entry_item entry.new ∷ []) }
    ensures none { result ≡ NONE
        → AreOverlapping i64_order (signed_items handle.old.seal.held) (upto_key key) [] }
    ensures unwritten { result ≢ DONE → entry.new ≡ entry.old }
    ensures answer { IsAnswer HoldsSignedMap handle.old result (DONE ∷ NONE ∷ []) }
{
    if !handle.is_open {
        return CLOSED;
    }
    match handle.seal.as_mut() {
        Collection::Signed(kept) => reads::previous(kept.as_map(), key, entry),
        _ => OTHER_KIND,
    }
}

/// Takes the first stored range out, and writes it with its value. Allocates nothing.
#[unsafe(no_mangle)]
pub extern "C" fn brm_map_i64_pop_first(handle: &mut Handle, entry: &mut SignedEntry) -> u32
    ensures first { result ≡ DONE → signed_items handle.old.seal.held
        ≡ signed_entry_item entry.new ∷ signed_items handle.new.seal.held }
    ensures none { result ≢ DONE → signed_items handle.old.seal.held ≡ [] }
    ensures kind { HoldsSignedMap handle.old.seal.held → HoldsSignedMap handle.new.seal.held }
    ensures unchanged { result ≢ DONE → handle.new.seal.held ≡ handle.old.seal.held }
    ensures unwritten { result ≢ DONE → entry.new ≡ entry.old }
    ensures answer { IsAnswer HoldsSignedMap handle.old result (DONE ∷ NONE ∷ []) }
{
    if !handle.is_open {
        return CLOSED;
    }
    match handle.seal.as_mut() {
        Collection::Signed(kept) => kept.pop_first(entry),
        _ => OTHER_KIND,
    }
}

/// Takes the last stored range out, and writes it with its value. Allocates nothing.
#[unsafe(no_mangle)]
pub extern "C" fn brm_map_i64_pop_last(handle: &mut Handle, entry: &mut SignedEntry) -> u32
    ensures last { result ≡ DONE → signed_items handle.old.seal.held
        ≡ signed_items handle.new.seal.held ++ signed_entry_item entry.new ∷ [] }
    ensures none { result ≢ DONE → signed_items handle.old.seal.held ≡ [] }
    ensures kind { HoldsSignedMap handle.old.seal.held → HoldsSignedMap handle.new.seal.held }
    ensures unchanged { result ≢ DONE → handle.new.seal.held ≡ handle.old.seal.held }
    ensures unwritten { result ≢ DONE → entry.new ≡ entry.old }
    ensures answer { IsAnswer HoldsSignedMap handle.old result (DONE ∷ NONE ∷ []) }
{
    if !handle.is_open {
        return CLOSED;
    }
    match handle.seal.as_mut() {
        Collection::Signed(kept) => kept.pop_last(entry),
        _ => OTHER_KIND,
    }
}
