//! The shortest table of prefixes of a map.

ghost use Rattle.std.specs.Prelude.{◌≡◌, ◌≢◌, ◌<◌, ◌≤◌, ◌⊎◌, ◌++◌, ℕ, List, IfOk, length, drop, map, take};
ghost use Rattle.address_keys.specs.declared.ipv6.Ipv6.{Ipv6};
ghost use Rattle.address_tables.specs.declared.entries.Entry.{Entry};
ghost use Rattle.address_tables.specs.Tables.{shown};
ghost use Rattle.table_handles.specs.Prefixes.{parts, told};
ghost use Rattle.table_handles.specs.Tables.{IsShortestTable};

use crate::prefix::WidePrefix;
use address_tables::{Entry, Ipv6};
use range_ffi::status::{DONE, NO_MEMORY, NO_ROOM};
use range_handles::kept_map::KeptMap;
use std::alloc::{AllocError, Global};

/// What says the entries.
fn prefixes_of(alloc: Global, entries: &[Entry<Ipv6, &u64>]) -> Result<Vec<WidePrefix>, AllocError>
    ensures { IfOk result
        (λ prefixes. map told prefixes.items ≡ map parts (map shown entries.now)) }
{
    let mut prefixes = Vec::new(alloc);
    for entry in entries {
        prefixes.push(WidePrefix::of(entry))?;
    }
    Ok(prefixes)
}

/// What says the shortest table of the map.
fn shortest_of(alloc: Global, kept: &KeptMap<Ipv6>) -> Result<Vec<WidePrefix>, AllocError>
    ensures { IfOk result (λ prefixes. (table : List (Entry Ipv6 ℕ))
        × IsShortestTable kept.now table × (map told prefixes.items ≡ map parts table)) }
{
    let entries = address_tables::shortest(alloc, kept.as_map())?;
    prefixes_of(alloc, entries.as_slice())
}

/// Copies the prefixes to the front of the slots, and tells how many they are. Slots that are too
/// few for them stay as they were.
fn copy_prefixes(prefixes: &[WidePrefix], slots: &mut [WidePrefix], count: &mut usize) -> u32
    ensures copied { result ≡ DONE
        → slots.new ≡ prefixes.now ++ drop (length prefixes.now) slots.old }
    ensures short { result ≡ NO_ROOM
        → (length slots.old < length prefixes.now) × (slots.new ≡ slots.old) }
    ensures told { count.new ≡ length prefixes.now }
    ensures answer { (result ≡ DONE) ⊎ (result ≡ NO_ROOM) }
{
    *count = prefixes.len();
    if slots.len() < prefixes.len() {
        return NO_ROOM;
    }
    let (front, _) = slots.split_at_mut(prefixes.len());
    front.copy_from_slice(prefixes);
    DONE
}

/// Writes the shortest table of prefixes of the map to the front of the slots, and tells how many
/// they are: the longest prefix that holds a key has its value, and none holds a key without one.
///
/// Slots that are too few stay as they were, and the number is told as well. Allocates the table and
/// what it is made of; these are freed again.
pub fn shortest(
    alloc: Global,
    kept: &KeptMap<Ipv6>,
    slots: &mut [WidePrefix],
    count: &mut usize,
) -> u32
    ensures shortest { result ≡ DONE → (table : List (Entry Ipv6 ℕ))
        × IsShortestTable kept.now table × (count.new ≡ length table)
        × (map told (take count.new slots.new) ≡ map parts table) }
    ensures short { result ≡ NO_ROOM → (table : List (Entry Ipv6 ℕ))
        × IsShortestTable kept.now table × (count.new ≡ length table)
        × (length slots.old < length table) }
    ensures behind { drop count.new slots.new ≡ drop count.new slots.old }
    ensures unwritten { result ≢ DONE → slots.new ≡ slots.old }
    ensures untold { result ≢ DONE → result ≢ NO_ROOM → count.new ≡ count.old }
    ensures answer { (result ≡ DONE) ⊎ ((result ≡ NO_ROOM) ⊎ (result ≡ NO_MEMORY)) }
{
    match shortest_of(alloc, kept) {
        Ok(prefixes) => copy_prefixes(prefixes.as_slice(), slots, count),
        Err(_) => NO_MEMORY,
    }
}
