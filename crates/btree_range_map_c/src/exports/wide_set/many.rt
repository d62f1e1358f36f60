//! The calls on sets of keys of 128 bits that write to arrays, or read from them.
ghost use Rattle.std.specs.Prelude.{◌<◌, ◌≤◌, map, take, drop, reverse, length, ◌≡◌, ◌≢◌, [], ◌++◌, List, ℕ, ◌∷◌};
ghost use Rattle.btree_range_map.specs.AnyRange.{AnyRange};
ghost use Rattle.btree_range_map.specs.KeySets.{HoldsAllAlso};
ghost use Rattle.address_keys.specs.Addresses.{ipv6_order};
ghost use Rattle.address_keys.specs.declared.ipv6.Ipv6.{Ipv6};
ghost use Rattle.btree_range_map.specs.Overlapping.{AreOverlapping};
ghost use Rattle.btree_range_map.specs.PieceLists.{AreGapsWithin};
ghost use Rattle.btree_range_map.specs.Range.{IsEmptyRange};
ghost use Rattle.range_ffi.specs.Flags.{from_key, upto_key};
ghost use Rattle.range_ffi.specs.Wide.{wide_bounds_item, wide_key, wide_range_of};
ghost use Rattle.range_handles.specs.Held.{HoldsWideSet, wide_set_items};
ghost use Rattle.range_handles.specs.Lists.{WideKeyRanges};
ghost use Rattle.btree_range_map_c.specs.Statuses.{IsAnswer};

use range_ffi::status::{CLOSED, DONE, NO_MEMORY, OTHER_KIND};
use range_ffi::wide::{WideBounds, WideKey};
use range_handles::collection::Collection;
use range_handles::handle::Handle;
use range_handles::reads;

/// Writes the stored ranges from the first that ends at the key or after it on, in ascending
/// order, as many as the array takes, and how many.
///
/// Fewer than the array takes are written where there are no more. What lies behind them in the
/// array stays as it was. Costs one search, and a step for each range.
#[unsafe(no_mangle)]
pub extern "C" fn brm_set_u128_read(
    handle: &mut Handle,
    key: &WideKey,
    entries: &mut [WideBounds],
    count: &mut usize,
) -> u32
    ensures unchanged { handle.new.seal.held ≡ handle.old.seal.held }
    ensures read { result ≡ DONE → (rest : WideKeyRanges)
        × AreOverlapping ipv6_order (wide_set_items handle.old.seal.held) (from_key
        (wide_key key.now))
        (map wide_bounds_item (take count.new entries.new) ++ rest)
        × (count.new < length entries.old → rest ≡ []) }
    ensures within { result ≡ DONE → count.new ≤ length entries.old }
    ensures behind { result ≡ DONE → drop count.new entries.new ≡ drop count.new entries.old }
    ensures unwritten { result ≢ DONE
        → (entries.new ≡ entries.old) × (count.new ≡ count.old) }
    ensures answer { IsAnswer HoldsWideSet handle.old result (DONE ∷ []) }
{
    if !handle.is_open {
        return CLOSED;
    }
    match handle.seal.as_mut() {
        Collection::WideSet(kept) => reads::read(kept.as_map(), key.key(), entries, count),
        _ => OTHER_KIND,
    }
}

/// Writes the stored ranges from the last that starts at the key or before it on, in descending
/// order, as many as the array takes, and how many.
///
/// Fewer than the array takes are written where there are no more. What lies behind them in the
/// array stays as it was. Costs two searches, and a step for each range.
#[unsafe(no_mangle)]
pub extern "C" fn brm_set_u128_read_back(
    handle: &mut Handle,
    key: &WideKey,
    entries: &mut [WideBounds],
    count: &mut usize,
) -> u32
    ensures unchanged { handle.new.seal.held ≡ handle.old.seal.held }
    ensures read { result ≡ DONE → (rest : WideKeyRanges)
        × AreOverlapping ipv6_order (wide_set_items handle.old.seal.held) (upto_key
        (wide_key key.now))
        (rest ++ reverse (map wide_bounds_item (take count.new entries.new)))
        × (count.new < length entries.old → rest ≡ []) }
    ensures within { result ≡ DONE → count.new ≤ length entries.old }
    ensures behind { result ≡ DONE → drop count.new entries.new ≡ drop count.new entries.old }
    ensures unwritten { result ≢ DONE
        → (entries.new ≡ entries.old) × (count.new ≡ count.old) }
    ensures answer { IsAnswer HoldsWideSet handle.old result (DONE ∷ []) }
{
    if !handle.is_open {
        return CLOSED;
    }
    match handle.seal.as_mut() {
        Collection::WideSet(kept) => reads::read_back(kept.as_map(), key.key(), entries, count),
        _ => OTHER_KIND,
    }
}

/// Writes the stored ranges that meet the range, whole, in ascending order, as many as the array
/// takes, and how many.
///
/// Fewer than the array takes are written where there are no more. What lies behind them in the
/// array stays as it was. Costs two searches, and a step for each range.
#[unsafe(no_mangle)]
pub extern "C" fn brm_set_u128_overlapping(
    handle: &mut Handle,
    range: &WideBounds,
    entries: &mut [WideBounds],
    count: &mut usize,
) -> u32
    ensures unchanged { handle.new.seal.held ≡ handle.old.seal.held }
    ensures read { result ≡ DONE → ¬ IsEmptyRange ipv6_order (wide_range_of range.now)
        → (rest : WideKeyRanges)
        × AreOverlapping ipv6_order (wide_set_items handle.old.seal.held) (wide_range_of range.now)
        (map wide_bounds_item (take count.new entries.new) ++ rest)
        × (count.new < length entries.old → rest ≡ []) }
    ensures empty { result ≡ DONE → IsEmptyRange ipv6_order (wide_range_of range.now)
        → count.new ≡ 0 }
    ensures within { result ≡ DONE → count.new ≤ length entries.old }
    ensures behind { result ≡ DONE → drop count.new entries.new ≡ drop count.new entries.old }
    ensures unwritten { result ≢ DONE
        → (entries.new ≡ entries.old) × (count.new ≡ count.old) }
    ensures answer { IsAnswer HoldsWideSet handle.old result (DONE ∷ []) }
{
    if !handle.is_open {
        return CLOSED;
    }
    match handle.seal.as_mut() {
        Collection::WideSet(kept) => reads::overlapping(
            kept.as_map(),
            range.range(),
            entries,
            count,
        ),
        _ => OTHER_KIND,
    }
}

/// Writes the parts of the range that hold no key of the set, in ascending order, as many as the
/// array takes, and how many.
///
/// Fewer than the array takes are written where there are no more. What lies behind them in the
/// array stays as it was. Costs two searches, and a few steps for each stored range that meets the
/// range.
#[unsafe(no_mangle)]
pub extern "C" fn brm_set_u128_gaps(
    handle: &mut Handle,
    range: &WideBounds,
    ranges: &mut [WideBounds],
    count: &mut usize,
) -> u32
    ensures unchanged { handle.new.seal.held ≡ handle.old.seal.held }
    ensures gaps { result ≡ DONE → (rest : List (AnyRange Ipv6))
        × AreGapsWithin ipv6_order (wide_set_items handle.old.seal.held) (wide_range_of range.now)
        (map wide_range_of (take count.new ranges.new) ++ rest)
        × (count.new < length ranges.old → rest ≡ []) }
    ensures within { result ≡ DONE → count.new ≤ length ranges.old }
    ensures behind { result ≡ DONE → drop count.new ranges.new ≡ drop count.new ranges.old }
    ensures unwritten { result ≢ DONE
        → (ranges.new ≡ ranges.old) × (count.new ≡ count.old) }
    ensures answer { IsAnswer HoldsWideSet handle.old result (DONE ∷ []) }
{
    if !handle.is_open {
        return CLOSED;
    }
    match handle.seal.as_mut() {
        Collection::WideSet(kept) => reads::gaps(kept.as_map(), range.range(), ranges, count),
        _ => OTHER_KIND,
    }
}

/// Adds the keys of each range, one range after the other, and tells of how many: of all, or, with
/// `NO_MEMORY`, of those before one for which there was not enough memory.
///
/// Costs an insertion for each range.
#[unsafe(no_mangle)]
pub extern "C" fn brm_set_u128_insert_many(
    handle: &mut Handle,
    ranges: &[WideBounds],
    count: &mut usize,
) -> u32
    ensures added { HoldsWideSet handle.old.seal.held
        → HoldsAllAlso ipv6_order (wide_set_items handle.old.seal.held)
        (wide_set_items handle.new.seal.held) (map wide_range_of (take count.new ranges.now)) }
    ensures kind { HoldsWideSet handle.old.seal.held → HoldsWideSet handle.new.seal.held }
    ensures all { result ≡ DONE → count.new ≡ length ranges.now }
    ensures some { result ≡ NO_MEMORY → count.new < length ranges.now }
    ensures refused { (¬ HoldsWideSet handle.old.seal.held)
        → (handle.new.seal.held ≡ handle.old.seal.held) × (count.new ≡ count.old) }
    ensures answer { IsAnswer HoldsWideSet handle.old result (DONE ∷ NO_MEMORY ∷ []) }
{
    if !handle.is_open {
        return CLOSED;
    }
    match handle.seal.as_mut() {
        Collection::WideSet(kept) => kept.insert_many(ranges, count),
        _ => OTHER_KIND,
    }
}
