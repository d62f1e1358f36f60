//! The calls on sets of `i64` keys.
ghost use Rattle.std.specs.Prelude.{length, ◌≡◌, ◌≢◌, ◌⊎◌, ◌↔◌, [], ◌∷◌, ◌++◌, true, false};
ghost use Rattle.btree_range_map.specs.Bindings.{IsItemFor};
ghost use Rattle.btree_range_map.specs.FreeRanges.{item_ranges};
ghost use Rattle.btree_range_map.specs.KeySets.{HoldsKey, HoldsAlso, HoldsWithout};
ghost use Rattle.btree_range_map.specs.Lookups.{BindsKeyOf, MeetsSome};
ghost use Rattle.btree_range_map.specs.Names.{i64_order};
ghost use Rattle.btree_range_map.specs.Numbers.{IsNumberOfKeys};
ghost use Rattle.btree_range_map.specs.Overlapping.{AreOverlapping};
ghost use Rattle.btree_range_map.specs.Range.{IsEmptyRange};
ghost use Rattle.range_ffi.specs.Flags.{signed_range_of, signed_bounds_item, number_of, from_key, upto_key};
ghost use Rattle.range_handles.specs.Held.{HoldsSignedSet, signed_set_items};
ghost use Rattle.range_handles.specs.Lists.{SignedKeyRanges};
ghost use Rattle.btree_range_map_c.specs.Statuses.{IsAnswer};

mod many;

use range_ffi::bounds::{Length, SignedBounds};
use range_ffi::status::{CLOSED, DONE, NO_MEMORY, NONE, OCCUPIED, OPEN, OTHER_KIND};
use range_handles::collection::Collection;
use range_handles::handle::Handle;
use range_handles::kept_set::KeptSet;
use range_handles::reads;
use std::alloc::Global;

/// Opens a closed handle, on an empty set. Allocates one block.
#[unsafe(no_mangle)]
pub extern "C" fn brm_set_i64_create(alloc: Global, handle: &mut Handle) -> u32
    ensures created { result ≡ DONE → (HoldsSignedSet handle.new.seal.held)
        × (signed_set_items handle.new.seal.held ≡ []) }
    ensures refused { result ≢ DONE → handle.new.seal.held ≡ handle.old.seal.held }
    ensures open { handle.old.is_open ≡ true → result ≡ OPEN }
    ensures answer { handle.old.is_open ≡ false → (result ≡ DONE) ⊎ (result ≡ NO_MEMORY) }
{
    if handle.is_open {
        return OPEN;
    }
    handle.fill(alloc, Collection::SignedSet(KeptSet::new(alloc)))
}

/// Adds each key of the range. An empty range changes nothing.
#[unsafe(no_mangle)]
pub extern "C" fn brm_set_i64_insert(handle: &mut Handle, range: &SignedBounds) -> u32
    ensures added { result ≡ DONE
        → HoldsAlso i64_order (signed_set_items handle.old.seal.held)
        (signed_set_items handle.new.seal.held) (signed_range_of range.now) }
    ensures empty { IsEmptyRange i64_order (signed_range_of range.now)
        → HoldsSignedSet handle.old.seal.held → result ≡ DONE }
    ensures empty_unchanged { IsEmptyRange i64_order (signed_range_of range.now)
        → handle.new.seal.held ≡ handle.old.seal.held }
    ensures kind { HoldsSignedSet handle.old.seal.held → HoldsSignedSet handle.new.seal.held }
    ensures refused { result ≢ DONE → handle.new.seal.held ≡ handle.old.seal.held }
    ensures answer { IsAnswer HoldsSignedSet handle.old result (DONE ∷ NO_MEMORY ∷ []) }
{
    if !handle.is_open {
        return CLOSED;
    }
    match handle.seal.as_mut() {
        Collection::SignedSet(kept) => kept.insert(range.range()),
        _ => OTHER_KIND,
    }
}

/// Adds each key of a range that meets no stored one. It may touch stored ranges.
#[unsafe(no_mangle)]
pub extern "C" fn brm_set_i64_try_insert(handle: &mut Handle, range: &SignedBounds) -> u32
    ensures added { result ≡ DONE
        → HoldsAlso i64_order (signed_set_items handle.old.seal.held)
        (signed_set_items handle.new.seal.held) (signed_range_of range.now) }
    ensures occupied { HoldsSignedSet handle.old.seal.held → (result ≡ OCCUPIED
        ↔ (¬ IsEmptyRange i64_order (signed_range_of range.now))
        × MeetsSome i64_order (signed_set_items handle.old.seal.held) (signed_range_of range.now)) }
    ensures empty { IsEmptyRange i64_order (signed_range_of range.now)
        → HoldsSignedSet handle.old.seal.held → result ≡ DONE }
    ensures empty_unchanged { IsEmptyRange i64_order (signed_range_of range.now)
        → handle.new.seal.held ≡ handle.old.seal.held }
    ensures kind { HoldsSignedSet handle.old.seal.held → HoldsSignedSet handle.new.seal.held }
    ensures refused { result ≢ DONE → handle.new.seal.held ≡ handle.old.seal.held }
    ensures answer { IsAnswer HoldsSignedSet handle.old result (DONE ∷ NO_MEMORY ∷ OCCUPIED ∷ []) }
{
    if !handle.is_open {
        return CLOSED;
    }
    match handle.seal.as_mut() {
        Collection::SignedSet(kept) => kept.try_insert(range.range()),
        _ => OTHER_KIND,
    }
}

/// Takes each key of the range away. An empty range changes nothing.
#[unsafe(no_mangle)]
pub extern "C" fn brm_set_i64_remove(handle: &mut Handle, range: &SignedBounds) -> u32
    ensures removed { result ≡ DONE
        → HoldsWithout i64_order (signed_set_items handle.old.seal.held)
        (signed_set_items handle.new.seal.held) (signed_range_of range.now) }
    ensures empty { IsEmptyRange i64_order (signed_range_of range.now)
        → HoldsSignedSet handle.old.seal.held → result ≡ DONE }
    ensures empty_unchanged { IsEmptyRange i64_order (signed_range_of range.now)
        → handle.new.seal.held ≡ handle.old.seal.held }
    ensures kind { HoldsSignedSet handle.old.seal.held → HoldsSignedSet handle.new.seal.held }
    ensures refused { result ≢ DONE → handle.new.seal.held ≡ handle.old.seal.held }
    ensures answer { IsAnswer HoldsSignedSet handle.old result (DONE ∷ NO_MEMORY ∷ []) }
{
    if !handle.is_open {
        return CLOSED;
    }
    match handle.seal.as_mut() {
        Collection::SignedSet(kept) => kept.remove(range.range()),
        _ => OTHER_KIND,
    }
}

/// Writes the stored range that holds the key.
#[unsafe(no_mangle)]
pub extern "C" fn brm_set_i64_get(handle: &mut Handle, key: i64, entry: &mut SignedBounds) -> u32
    ensures unchanged { handle.new.seal.held ≡ handle.old.seal.held }
    ensures found { result ≡ DONE
        → IsItemFor i64_order (signed_set_items handle.old.seal.held) key
        (signed_bounds_item entry.new) }
    ensures free { result ≢ DONE
        → ¬ HoldsKey i64_order (signed_set_items handle.old.seal.held) key }
    ensures unwritten { result ≢ DONE → entry.new ≡ entry.old }
    ensures answer { IsAnswer HoldsSignedSet handle.old result (DONE ∷ NONE ∷ []) }
{
    if !handle.is_open {
        return CLOSED;
    }
    match handle.seal.as_mut() {
        Collection::SignedSet(kept) => reads::get(kept.as_map(), key, entry),
        _ => OTHER_KIND,
    }
}

/// Whether the key is in the set: `DONE` where it is, `NONE` where it is not.
#[unsafe(no_mangle)]
pub extern "C" fn brm_set_i64_contains(handle: &mut Handle, key: i64) -> u32
    ensures unchanged { handle.new.seal.held ≡ handle.old.seal.held }
    ensures yes { result ≡ DONE → HoldsKey i64_order (signed_set_items handle.old.seal.held) key }
    ensures no { result ≡ NONE
        → ¬ HoldsKey i64_order (signed_set_items handle.old.seal.held) key }
    ensures answer { IsAnswer HoldsSignedSet handle.old result (DONE ∷ NONE ∷ []) }
{
    if !handle.is_open {
        return CLOSED;
    }
    match handle.seal.as_mut() {
        Collection::SignedSet(kept) => reads::contains(kept.as_map(), key),
        _ => OTHER_KIND,
    }
}

/// Whether some key of the range is in the set: `DONE` where one is, `NONE` where none is.
#[unsafe(no_mangle)]
pub extern "C" fn brm_set_i64_intersects(handle: &mut Handle, range: &SignedBounds) -> u32
    ensures unchanged { handle.new.seal.held ≡ handle.old.seal.held }
    ensures yes { result ≡ DONE
        → BindsKeyOf i64_order (signed_set_items handle.old.seal.held)
        (signed_range_of range.now) }
    ensures no { result ≡ NONE
        → ¬ BindsKeyOf i64_order (signed_set_items handle.old.seal.held)
        (signed_range_of range.now) }
    ensures answer { IsAnswer HoldsSignedSet handle.old result (DONE ∷ NONE ∷ []) }
{
    if !handle.is_open {
        return CLOSED;
    }
    match handle.seal.as_mut() {
        Collection::SignedSet(kept) => reads::intersects(kept.as_map(), range.range()),
        _ => OTHER_KIND,
    }
}

/// Writes how many keys are in the set.
#[unsafe(no_mangle)]
pub extern "C" fn brm_set_i64_len(handle: &mut Handle, length: &mut Length) -> u32
    ensures unchanged { handle.new.seal.held ≡ handle.old.seal.held }
    ensures counted { result ≡ DONE → IsNumberOfKeys i64_order
        (HoldsKey i64_order (signed_set_items handle.old.seal.held)) (number_of length.new) }
    ensures unwritten { result ≢ DONE → length.new ≡ length.old }
    ensures answer { IsAnswer HoldsSignedSet handle.old result (DONE ∷ []) }
{
    if !handle.is_open {
        return CLOSED;
    }
    match handle.seal.as_mut() {
        Collection::SignedSet(kept) => reads::len(kept.as_map(), length),
        _ => OTHER_KIND,
    }
}

/// Writes the first stored range.
#[unsafe(no_mangle)]
pub extern "C" fn brm_set_i64_first(handle: &mut Handle, entry: &mut SignedBounds) -> u32
    ensures unchanged { handle.new.seal.held ≡ handle.old.seal.held }
    ensures first { result ≡ DONE → (rest : SignedKeyRanges)
        × (signed_set_items handle.old.seal.held ≡ signed_bounds_item entry.new ∷ rest) }
    ensures none { result ≢ DONE → signed_set_items handle.old.seal.held ≡ [] }
    ensures unwritten { result ≢ DONE → entry.new ≡ entry.old }
    ensures answer { IsAnswer HoldsSignedSet handle.old result (DONE ∷ NONE ∷ []) }
{
    if !handle.is_open {
        return CLOSED;
    }
    match handle.seal.as_mut() {
        Collection::SignedSet(kept) => reads::first(kept.as_map(), entry),
        _ => OTHER_KIND,
    }
}

/// Writes the last stored range.
#[unsafe(no_mangle)]
pub extern "C" fn brm_set_i64_last(handle: &mut Handle, entry: &mut SignedBounds) -> u32
    ensures unchanged { handle.new.seal.held ≡ handle.old.seal.held }
    ensures last { result ≡ DONE → (front : SignedKeyRanges)
        × (signed_set_items handle.old.seal.held ≡ front ++ signed_bounds_item entry.new ∷ []) }
    ensures none { result ≢ DONE → signed_set_items handle.old.seal.held ≡ [] }
    ensures unwritten { result ≢ DONE → entry.new ≡ entry.old }
    ensures answer { IsAnswer HoldsSignedSet handle.old result (DONE ∷ NONE ∷ []) }
{
    if !handle.is_open {
        return CLOSED;
    }
    match handle.seal.as_mut() {
        Collection::SignedSet(kept) => reads::last(kept.as_map(), entry),
        _ => OTHER_KIND,
    }
}

/// Writes the first stored range that ends at the key or after it.
///
/// It is the first of those that meet the keys from this one on; all before it end below the key.
/// Costs one search.
#[unsafe(no_mangle)]
pub extern "C" fn brm_set_i64_next(handle: &mut Handle, key: i64, entry: &mut SignedBounds) -> u32
    ensures unchanged { handle.new.seal.held ≡ handle.old.seal.held }
    ensures next { result ≡ DONE → (rest : SignedKeyRanges)
        × AreOverlapping i64_order (signed_set_items handle.old.seal.held) (from_key key)
        (signed_bounds_item entry.new ∷ rest) }
    ensures none { result ≡ NONE
        → AreOverlapping i64_order (signed_set_items handle.old.seal.held) (from_key key) [] }
    ensures unwritten { result ≢ DONE → entry.new ≡ entry.old }
    ensures answer { IsAnswer HoldsSignedSet handle.old result (DONE ∷ NONE ∷ []) }
{
    if !handle.is_open {
        return CLOSED;
    }
    match handle.seal.as_mut() {
        Collection::SignedSet(kept) => reads::next(kept.as_map(), key, entry),
        _ => OTHER_KIND,
    }
}

/// Writes the last stored range that starts at the key or before it.
///
/// It is the last of those that meet the keys up to this one; all after it start past the key.
/// Costs two searches.
#[unsafe(no_mangle)]
pub extern "C" fn brm_set_i64_previous(
    handle: &mut Handle,
    key: i64,
    entry: &mut SignedBounds,
) -> u32
    ensures unchanged { handle.new.seal.held ≡ handle.old.seal.held }
    ensures previous { result ≡ DONE → (front : SignedKeyRanges)
        × AreOverlapping i64_order (signed_set_items handle.old.seal.held) (upto_key key)
        (front ++ signed_bounds_item entry.new ∷ []) }
    ensures none { result ≡ NONE
        → AreOverlapping i64_order (signed_set_items handle.old.seal.held) (upto_key key) [] }
    ensures unwritten { result ≢ DONE → entry.new ≡ entry.old }
    ensures answer { IsAnswer HoldsSignedSet handle.old result (DONE ∷ NONE ∷ []) }
{
    if !handle.is_open {
        return CLOSED;
    }
    match handle.seal.as_mut() {
        Collection::SignedSet(kept) => reads::previous(kept.as_map(), key, entry),
        _ => OTHER_KIND,
    }
}

/// Takes the first stored range out, and writes it. Allocates nothing.
#[unsafe(no_mangle)]
pub extern "C" fn brm_set_i64_pop_first(handle: &mut Handle, entry: &mut SignedBounds) -> u32
    ensures first { result ≡ DONE → item_ranges (signed_set_items handle.old.seal.held)
        ≡ signed_range_of entry.new ∷ item_ranges (signed_set_items handle.new.seal.held) }
    ensures none { result ≢ DONE → signed_set_items handle.old.seal.held ≡ [] }
    ensures kind { HoldsSignedSet handle.old.seal.held → HoldsSignedSet handle.new.seal.held }
    ensures unchanged { result ≢ DONE → handle.new.seal.held ≡ handle.old.seal.held }
    ensures unwritten { result ≢ DONE → entry.new ≡ entry.old }
    ensures answer { IsAnswer HoldsSignedSet handle.old result (DONE ∷ NONE ∷ []) }
{
    if !handle.is_open {
        return CLOSED;
    }
    match handle.seal.as_mut() {
        Collection::SignedSet(kept) => kept.pop_first(entry),
        _ => OTHER_KIND,
    }
}

/// Takes the last stored range out, and writes it. Allocates nothing.
#[unsafe(no_mangle)]
pub extern "C" fn brm_set_i64_pop_last(handle: &mut Handle, entry: &mut SignedBounds) -> u32
    ensures last { result ≡ DONE → item_ranges (signed_set_items handle.old.seal.held)
        ≡ item_ranges (signed_set_items handle.new.seal.held) ++ signed_range_of entry.new ∷ [] }
    ensures none { result ≢ DONE → signed_set_items handle.old.seal.held ≡ [] }
    ensures kind { HoldsSignedSet handle.old.seal.held → HoldsSignedSet handle.new.seal.held }
    ensures unchanged { result ≢ DONE → handle.new.seal.held ≡ handle.old.seal.held }
    ensures unwritten { result ≢ DONE → entry.new ≡ entry.old }
    ensures answer { IsAnswer HoldsSignedSet handle.old result (DONE ∷ NONE ∷ []) }
{
    if !handle.is_open {
        return CLOSED;
    }
    match handle.seal.as_mut() {
        Collection::SignedSet(kept) => kept.pop_last(entry),
        _ => OTHER_KIND,
    }
}
