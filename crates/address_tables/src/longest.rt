//! Tables made of prefixes: each address has the value of the longest prefix that holds it.

ghost use Rattle.std.specs.Prelude.{◌<◌, ◌∷◌, [], IfOk, OnOk, None};
ghost use Rattle.std.specs.List.{AllByRecursion};
ghost use Rattle.btree_range_map.specs.Holding.{box_items};
ghost use Rattle.btree_range_map.specs.Range.{ClonesAreEqual};
ghost use Rattle.address_tables.specs.Lengths.{IsBoundOver};
ghost use Rattle.address_tables.specs.Tables.{IsTableOf};

use crate::AddressTable;
use crate::entries::Entry;
use address_keys::Address;
use btree_range_map::MapError;
use std::alloc::Global;

/// A length that all the prefixes are shorter than: 0 where there are none.
fn past_lengths<A, V>(entries: &[Entry<A, V>]) -> u16
    ensures { AllByRecursion (λ e. e.prefix.length < result) entries.now }
{
    let mut past = 0;
    for entry in entries {
        past = past.max(u16::from(entry.prefix.length) + 1);
    }
    past
}

/// Binds the addresses of a prefix to its value, if it has this length.
fn bind_if_of_length<A: Address, V: Eq + Clone + Drop>(
    table: &mut AddressTable<A, V>,
    entry: &Entry<A, V>,
    length: u16,
) -> Result<(), MapError>
    requires keys { ClonesAreEqual A.is_clone A.eq }
    requires values { ClonesAreEqual V.is_clone V.eq }
    ensures { OnOk result (IsBoundOver A.order A.number V.eq length (entry.now ∷ [])
        (box_items table.old) (box_items table.new)) }
{
    if u16::from(entry.prefix.length) != length {
        return Ok(());
    }
    table.insert(entry.prefix, entry.value.clone()?)?;
    Ok(())
}

/// Binds the addresses of each prefix of this length to its value.
fn bind_of_length<A: Address, V: Eq + Clone + Drop>(
    table: &mut AddressTable<A, V>,
    entries: &[Entry<A, V>],
    length: u16,
) -> Result<(), MapError>
    requires keys { ClonesAreEqual A.is_clone A.eq }
    requires values { ClonesAreEqual V.is_clone V.eq }
    ensures { OnOk result (IsBoundOver A.order A.number V.eq length entries.now
        (box_items table.old) (box_items table.new)) }
{
    for entry in entries {
        bind_if_of_length(table, entry, length)?;
    }
    Ok(())
}

/// The table of prefixes with values: each address has the value of the longest prefix that holds
/// it, of equal prefixes the last, and an address that none holds has none.
///
/// Clones each value. Fails where an allocation or a clone does. Goes over the prefixes once for
/// each length up to the longest, and costs an insertion for each prefix.
///
/// ```
/// let entries = vec![in alloc; Entry { prefix, value: 1 }]?; // 10.0.0.0/8 with 1
/// let table: AddressTable<Ipv4, u32> = from_prefixes(alloc, entries.as_slice())?;
/// assert!(rt; table.get(Ipv4(0x0a000001)).copied() == Some(1));
/// ```
pub fn from_prefixes<A: Address, V: Eq + Clone + Drop>(
    alloc: Global,
    entries: &[Entry<A, V>],
) -> Result<AddressTable<A, V>, MapError>
    requires keys { ClonesAreEqual A.is_clone A.eq }
    requires values { ClonesAreEqual V.is_clone V.eq }
    ensures { IfOk result (λ table. IsTableOf A.order A.number V.eq None (box_items table)
        entries.now) }
{
    let mut table = AddressTable::new(alloc);
    for length in 0..past_lengths(entries) {
        bind_of_length(&mut table, entries, length)?;
    }
    Ok(table)
}
