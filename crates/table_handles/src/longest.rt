//! The map of some prefixes, each key by the longest.

ghost use Rattle.std.specs.Prelude.{◌≡◌, ◌≢◌, ◌⊎◌, IfOk, IfErr};
ghost use Rattle.std.specs.List.{AllZip};
ghost use Rattle.range_handles.specs.Held.{HoldsWideMap, wide_items};
ghost use Rattle.table_handles.specs.Prefixes.{IsMeant};
ghost use Rattle.table_handles.specs.Tables.{HasLongPrefix, IsMapOf};

use crate::prefix::WidePrefix;
use address_tables::{Entry, Ipv6};
use range_ffi::status::{DONE, NO_MEMORY};
use range_handles::collection::Collection;
use range_handles::handle::Handle;
use range_handles::kept_map::KeptMap;
use std::alloc::Global;

/// A prefix has more bits than a key, and nothing was changed.
pub const LONG_PREFIX: u32 = 15;

/// The entries that the prefixes say, or the status that says why there are none.
fn entries_of(alloc: Global, prefixes: &[WidePrefix]) -> Result<Vec<Entry<Ipv6, u64>>, u32>
    ensures entries { IfOk result (λ entries. AllZip IsMeant prefixes.now entries.items) }
    ensures refused { IfErr result (λ status. (status ≡ NO_MEMORY)
        ⊎ ((status ≡ LONG_PREFIX) × HasLongPrefix prefixes.now)) }
{
    let mut entries = Vec::new(alloc);
    for prefix in prefixes {
        let Some(entry) = prefix.entry() else {
            return Err(LONG_PREFIX);
        };
        match entries.push(entry) {
            Ok(()) => {}
            Err(_) => return Err(NO_MEMORY),
        }
    }
    Ok(entries)
}

/// The map of the prefixes, or the status that says why there is none.
fn map_of(alloc: Global, prefixes: &[WidePrefix]) -> Result<KeptMap<Ipv6>, u32>
    ensures made { IfOk result (λ map. IsMapOf prefixes.now map) }
    ensures refused { IfErr result (λ status. (status ≡ NO_MEMORY)
        ⊎ ((status ≡ LONG_PREFIX) × HasLongPrefix prefixes.now)) }
{
    let entries = entries_of(alloc, prefixes)?;
    match address_tables::from_prefixes(alloc, entries.as_slice()) {
        Ok(map) => Ok(KeptMap::of(map)),
        Err(_) => Err(NO_MEMORY),
    }
}

/// Opens a closed handle on the map of the prefixes: each key is bound to the value of the longest
/// prefix that holds it, of equal prefixes the last.
///
/// Allocates its ranges and a list of the prefixes, and one block more. Goes over the prefixes once
/// for each length up to the longest, and costs an insertion for each prefix.
pub fn open_of_prefixes(alloc: Global, prefixes: &[WidePrefix], made: &mut Handle) -> u32
    ensures made { result ≡ DONE → HoldsWideMap made.new.seal.held
        × IsMapOf prefixes.now (wide_items made.new.seal.held) }
    ensures long { result ≡ LONG_PREFIX → HasLongPrefix prefixes.now }
    ensures refused { result ≢ DONE → made.new.seal.held ≡ made.old.seal.held }
    ensures answer { (result ≡ DONE) ⊎ ((result ≡ NO_MEMORY) ⊎ (result ≡ LONG_PREFIX)) }
{
    match map_of(alloc, prefixes) {
        Ok(map) => made.fill(alloc, Collection::Wide(map)),
        Err(status) => status,
    }
}
