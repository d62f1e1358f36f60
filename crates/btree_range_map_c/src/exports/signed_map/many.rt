//! The calls on maps of `i64` keys to `u64` values that write to arrays, or read from them.
ghost use Rattle.std.specs.Prelude.{◌<◌, ◌≤◌, map, take, drop, reverse, length, ◌≡◌, ◌≢◌, [], ◌++◌, nat_eq, List, ℤ, ◌∷◌};
ghost use Rattle.std.specs.List.{AllZip};
ghost use Rattle.btree_range_map.specs.AnyRange.{AnyRange};
ghost use Rattle.btree_range_map.specs.Bindings.{Binds};
ghost use Rattle.btree_range_map.specs.MapExtending.{AreBoundAfter};
ghost use Rattle.btree_range_map.specs.Names.{i64_order};
ghost use Rattle.btree_range_map.specs.Range.{IsEmptyRange};
ghost use Rattle.btree_range_map.specs.Overlapping.{AreOverlapping};
ghost use Rattle.btree_range_map.specs.PieceLists.{AreGapsWithin};
ghost use Rattle.btree_range_map.specs.Pieces.{ArePieces};
ghost use Rattle.range_ffi.specs.Bindings.{binding_value, signed_piece_item};
ghost use Rattle.range_ffi.specs.Flags.{signed_range_of, signed_entry_item, from_key, upto_key};
ghost use Rattle.range_handles.specs.Held.{HoldsSignedMap, signed_items};
ghost use Rattle.range_handles.specs.Lists.{SignedRanges, SignedPieces};
ghost use Rattle.btree_range_map_c.specs.Statuses.{IsAnswer};

use range_ffi::bounds::{Binding, SignedBounds, SignedEntry, SignedPiece};
use range_ffi::status::{CLOSED, DONE, NO_MEMORY, NO_ROOM, OTHER_KIND};
use range_handles::collection::Collection;
use range_handles::handle::Handle;
use range_handles::reads;
use std::alloc::Global;

/// Writes the stored ranges from the first that ends at the key or after it on, in ascending
/// order, as many as the array takes, and how many.
///
/// Fewer than the array takes are written where there are no more. What lies behind them in the
/// array stays as it was. Costs one search, and a step for each range.
#[unsafe(no_mangle)]
pub extern "C" fn brm_map_i64_read(
    handle: &mut Handle,
    key: i64,
    entries: &mut [SignedEntry],
    count: &mut usize,
) -> u32
    ensures unchanged { handle.new.seal.held ≡ handle.old.seal.held }
    ensures read { result ≡ DONE → (rest : SignedRanges)
        × AreOverlapping i64_order (signed_items handle.old.seal.held) (from_key key)
        (map signed_entry_item (take count.new entries.new) ++ rest)
        × (count.new < length entries.old → rest ≡ []) }
    ensures within { result ≡ DONE → count.new ≤ length entries.old }
    ensures behind { result ≡ DONE → drop count.new entries.new ≡ drop count.new entries.old }
    ensures unwritten { result ≢ DONE
        → (entries.new ≡ entries.old) × (count.new ≡ count.old) }
    ensures answer { IsAnswer HoldsSignedMap handle.old result (DONE ∷ []) }
{
    if !handle.is_open {
        return CLOSED;
    }
    match handle.seal.as_mut() {
        Collection::Signed(kept) => reads::read(kept.as_map(), key, entries, count),
        _ => OTHER_KIND,
    }
}

/// Writes the stored ranges from the last that starts at the key or before it on, in descending
/// order, as many as the array takes, and how many.
///
/// Fewer than the array takes are written where there are no more. What lies behind them in the
/// array stays as it was. Costs two searches, and a step for each range.
#[unsafe(no_mangle)]
pub extern "C" fn brm_map_i64_read_back(
    handle: &mut Handle,
    key: i64,
    entries: &mut [SignedEntry],
    count: &mut usize,
) -> u32
    ensures unchanged { handle.new.seal.held ≡ handle.old.seal.held }
    ensures read { result ≡ DONE → (rest : SignedRanges)
        × AreOverlapping i64_order (signed_items handle.old.seal.held) (upto_key key)
        (rest ++ reverse (map signed_entry_item (take count.new entries.new)))
        × (count.new < length entries.old → rest ≡ []) }
    ensures within { result ≡ DONE → count.new ≤ length entries.old }
    ensures behind { result ≡ DONE → drop count.new entries.new ≡ drop count.new entries.old }
    ensures unwritten { result ≢ DONE
        → (entries.new ≡ entries.old) × (count.new ≡ count.old) }
    ensures answer { IsAnswer HoldsSignedMap handle.old result (DONE ∷ []) }
{
    if !handle.is_open {
        return CLOSED;
    }
    match handle.seal.as_mut() {
        Collection::Signed(kept) => reads::read_back(kept.as_map(), key, entries, count),
        _ => OTHER_KIND,
    }
}

/// Writes the stored ranges that meet the range, whole, in ascending order, as many as the array
/// takes, and how many.
///
/// Fewer than the array takes are written where there are no more. What lies behind them in the
/// array stays as it was. Costs two searches, and a step for each range.
#[unsafe(no_mangle)]
pub extern "C" fn brm_map_i64_overlapping(
    handle: &mut Handle,
    range: &SignedBounds,
    entries: &mut [SignedEntry],
    count: &mut usize,
) -> u32
    ensures unchanged { handle.new.seal.held ≡ handle.old.seal.held }
    ensures read { result ≡ DONE → ¬ IsEmptyRange i64_order (signed_range_of range.now)
        → (rest : SignedRanges)
        × AreOverlapping i64_order (signed_items handle.old.seal.held) (signed_range_of range.now)
        (map signed_entry_item (take count.new entries.new) ++ rest)
        × (count.new < length entries.old → rest ≡ []) }
    ensures empty { result ≡ DONE → IsEmptyRange i64_order (signed_range_of range.now)
        → count.new ≡ 0 }
    ensures within { result ≡ DONE → count.new ≤ length entries.old }
    ensures behind { result ≡ DONE → drop count.new entries.new ≡ drop count.new entries.old }
    ensures unwritten { result ≢ DONE
        → (entries.new ≡ entries.old) × (count.new ≡ count.old) }
    ensures answer { IsAnswer HoldsSignedMap handle.old result (DONE ∷ []) }
{
    if !handle.is_open {
        return CLOSED;
    }
    match handle.seal.as_mut() {
        Collection::Signed(kept) => reads::overlapping(
            kept.as_map(),
            range.range(),
            entries,
            count,
        ),
        _ => OTHER_KIND,
    }
}

/// Writes the parts of the range that hold no bound key, in ascending order, as many as the array
/// takes, and how many.
///
/// Fewer than the array takes are written where there are no more. What lies behind them in the
/// array stays as it was. Costs two searches, and a few steps for each stored range that meets the
/// range.
#[unsafe(no_mangle)]
pub extern "C" fn brm_map_i64_gaps(
    handle: &mut Handle,
    range: &SignedBounds,
    ranges: &mut [SignedBounds],
    count: &mut usize,
) -> u32
    ensures unchanged { handle.new.seal.held ≡ handle.old.seal.held }
    ensures gaps { result ≡ DONE → (rest : List (AnyRange ℤ))
        × AreGapsWithin i64_order (signed_items handle.old.seal.held) (signed_range_of range.now)
        (map signed_range_of (take count.new ranges.new) ++ rest)
        × (count.new < length ranges.old → rest ≡ []) }
    ensures within { result ≡ DONE → count.new ≤ length ranges.old }
    ensures behind { result ≡ DONE → drop count.new ranges.new ≡ drop count.new ranges.old }
    ensures unwritten { result ≢ DONE
        → (ranges.new ≡ ranges.old) × (count.new ≡ count.old) }
    ensures answer { IsAnswer HoldsSignedMap handle.old result (DONE ∷ []) }
{
    if !handle.is_open {
        return CLOSED;
    }
    match handle.seal.as_mut() {
        Collection::Signed(kept) => reads::gaps(kept.as_map(), range.range(), ranges, count),
        _ => OTHER_KIND,
    }
}

/// Writes the parts of the range, in ascending order, with what their keys are bound to, as many as
/// the array takes, and how many.
///
/// A part is what a stored range binds of the range, or what lies between two such parts, bound to
/// none. Fewer than the array takes are written where there are no more. What lies behind them in
/// the array stays as it was. Costs two searches, and a few steps for each part.
#[unsafe(no_mangle)]
pub extern "C" fn brm_map_i64_pieces(
    handle: &mut Handle,
    range: &SignedBounds,
    pieces: &mut [SignedPiece],
    count: &mut usize,
) -> u32
    ensures unchanged { handle.new.seal.held ≡ handle.old.seal.held }
    ensures pieces { result ≡ DONE → (rest : SignedPieces)
        × ArePieces i64_order (signed_items handle.old.seal.held) (signed_range_of range.now)
        (map signed_piece_item (take count.new pieces.new) ++ rest)
        × (count.new < length pieces.old → rest ≡ []) }
    ensures within { result ≡ DONE → count.new ≤ length pieces.old }
    ensures behind { result ≡ DONE → drop count.new pieces.new ≡ drop count.new pieces.old }
    ensures unwritten { result ≢ DONE
        → (pieces.new ≡ pieces.old) × (count.new ≡ count.old) }
    ensures answer { IsAnswer HoldsSignedMap handle.old result (DONE ∷ []) }
{
    if !handle.is_open {
        return CLOSED;
    }
    match handle.seal.as_mut() {
        Collection::Signed(kept) => reads::pieces(kept.as_map(), range.range(), pieces, count),
        _ => OTHER_KIND,
    }
}

/// Writes what each key is bound to, in its place in the other array. Answers `NO_ROOM` where that
/// is shorter than the array of keys.
///
/// What lies behind them in the array stays as it was. Costs a search for each key.
#[unsafe(no_mangle)]
pub extern "C" fn brm_raw_map_i64_get_many(
    handle: &mut Handle,
    keys: &[i64],
    bindings: &mut [Binding],
) -> u32
    ensures unchanged { handle.new.seal.held ≡ handle.old.seal.held }
    ensures bound { result ≡ DONE → AllZip
        (λ key b. Binds i64_order nat_eq (signed_items handle.old.seal.held) key (binding_value b))
        keys.now (take (length keys.now) bindings.new) }
    ensures room { result ≡ NO_ROOM → length bindings.old < length keys.now }
    ensures behind { drop (length keys.now) bindings.new ≡ drop (length keys.now) bindings.old }
    ensures unwritten { result ≢ DONE → bindings.new ≡ bindings.old }
    ensures answer { IsAnswer HoldsSignedMap handle.old result (DONE ∷ NO_ROOM ∷ []) }
{
    if !handle.is_open {
        return CLOSED;
    }
    match handle.seal.as_mut() {
        Collection::Signed(kept) => reads::get_many(kept.as_map(), keys, bindings),
        _ => OTHER_KIND,
    }
}

/// Binds the keys of each range to the value beside it, one range after the other, and tells of how
/// many: of all, or, with `NO_MEMORY`, of those before one for which there was not enough memory.
///
/// Where several ranges hold a key, the last one counts. Costs an insertion for each range, but no
/// search where the map is empty and the ranges are in order: then it allocates two lists of them.
#[unsafe(no_mangle)]
pub extern "C" fn brm_map_i64_insert_many(
    alloc: Global,
    handle: &mut Handle,
    entries: &[SignedEntry],
    count: &mut usize,
) -> u32
    ensures bound { HoldsSignedMap handle.old.seal.held
        → AreBoundAfter i64_order nat_eq (signed_items handle.old.seal.held)
        (signed_items handle.new.seal.held) (map signed_entry_item (take count.new entries.now)) }
    ensures kind { HoldsSignedMap handle.old.seal.held → HoldsSignedMap handle.new.seal.held }
    ensures all { result ≡ DONE → count.new ≡ length entries.now }
    ensures some { result ≡ NO_MEMORY → count.new < length entries.now }
    ensures refused { (¬ HoldsSignedMap handle.old.seal.held)
        → (handle.new.seal.held ≡ handle.old.seal.held) × (count.new ≡ count.old) }
    ensures answer { IsAnswer HoldsSignedMap handle.old result (DONE ∷ NO_MEMORY ∷ []) }
{
    if !handle.is_open {
        return CLOSED;
    }
    match handle.seal.as_mut() {
        Collection::Signed(kept) => kept.insert_many(alloc, entries, count),
        _ => OTHER_KIND,
    }
}
