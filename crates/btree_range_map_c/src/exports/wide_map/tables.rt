//! The calls on maps of keys of 128 bits as tables of addresses.
ghost use Rattle.std.specs.Prelude.{◌≡◌, ◌≢◌, ◌<◌, ◌⊎◌, List, ℕ, length, drop, map, take, true, false, ◌∷◌, []};
ghost use Rattle.address_keys.specs.declared.ipv6.Ipv6.{Ipv6};
ghost use Rattle.address_tables.specs.declared.entries.Entry.{Entry};
ghost use Rattle.range_handles.specs.Held.{HoldsWideMap, wide_items};
ghost use Rattle.table_handles.specs.Prefixes.{parts, told};
ghost use Rattle.table_handles.specs.Tables.{HasLongPrefix, IsMapOf, IsShortestTable};
ghost use Rattle.btree_range_map_c.specs.Statuses.{IsAnswer};

use range_ffi::status::{CLOSED, DONE, NO_MEMORY, NO_ROOM, OPEN, OTHER_KIND};
use range_handles::collection::Collection;
use range_handles::handle::Handle;
use std::alloc::Global;
use table_handles::longest::{LONG_PREFIX, open_of_prefixes};
use table_handles::prefix::WidePrefix;
use table_handles::shortest::shortest;

/// Writes the shortest table of prefixes of the map, and tells how many they are: the longest prefix
/// that holds a key has its value, and none holds a key without one. No such table is shorter.
///
/// An array that is too short stays as it was, and the number is told as well. Allocates the table
/// and what it is made of; these are freed again. Costs time for each bit of each range.
#[unsafe(no_mangle)]
pub extern "C" fn brm_map_u128_shortest(
    alloc: Global,
    handle: &mut Handle,
    prefixes: &mut [WidePrefix],
    count: &mut usize,
) -> u32
    ensures unchanged { handle.new.seal.held ≡ handle.old.seal.held }
    ensures shortest { result ≡ DONE → (table : List (Entry Ipv6 ℕ))
        × IsShortestTable (wide_items handle.old.seal.held) table × (count.new ≡ length table)
        × (map told (take count.new prefixes.new) ≡ map parts table) }
    ensures short { result ≡ NO_ROOM → (table : List (Entry Ipv6 ℕ))
        × IsShortestTable (wide_items handle.old.seal.held) table × (count.new ≡ length table)
        × (length prefixes.old < length table) }
    ensures behind { drop count.new prefixes.new ≡ drop count.new prefixes.old }
    ensures unwritten { result ≢ DONE → prefixes.new ≡ prefixes.old }
    ensures untold { result ≢ DONE → result ≢ NO_ROOM → count.new ≡ count.old }
    ensures answer { IsAnswer HoldsWideMap handle.old result (DONE ∷ NO_ROOM ∷ NO_MEMORY ∷ []) }
{
    if !handle.is_open {
        return CLOSED;
    }
    match handle.seal.as_mut() {
        Collection::Wide(kept) => shortest(alloc, kept, prefixes, count),
        _ => OTHER_KIND,
    }
}

/// Opens a closed handle on the map of some prefixes: each key is bound to the value of the longest
/// prefix that holds it, of equal prefixes the last.
///
/// Allocates its ranges and a list of the prefixes, and one block more. Goes over the prefixes once
/// for each length up to the longest, and costs an insertion for each prefix.
#[unsafe(no_mangle)]
pub extern "C" fn brm_map_u128_from_prefixes(
    alloc: Global,
    handle: &mut Handle,
    prefixes: &[WidePrefix],
) -> u32
    ensures made { result ≡ DONE → HoldsWideMap handle.new.seal.held
        × IsMapOf prefixes.now (wide_items handle.new.seal.held) }
    ensures long { result ≡ LONG_PREFIX → HasLongPrefix prefixes.now }
    ensures refused { result ≢ DONE → handle.new.seal.held ≡ handle.old.seal.held }
    ensures open { handle.old.is_open ≡ true → result ≡ OPEN }
    ensures answer { handle.old.is_open ≡ false
        → (result ≡ DONE) ⊎ ((result ≡ NO_MEMORY) ⊎ (result ≡ LONG_PREFIX)) }
{
    if handle.is_open {
        return OPEN;
    }
    open_of_prefixes(alloc, prefixes, handle)
}
