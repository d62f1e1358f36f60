//! The shortest table of prefixes of a table.

ghost use Rattle.std.specs.Prelude.{◌≡◌, ◌<◌, ◌^◌, map, length, IfOk, None, Some};
ghost use Rattle.std.specs.List.{AllByRecursion};
ghost use Rattle.std.specs.Option.{option_copied};
ghost use Rattle.btree_range_map.specs.Holding.{box_items};
ghost use Rattle.address_tables.specs.Numbers.{AreNamed, IsNamed};
ghost use Rattle.address_tables.specs.Tables.{IsShortest, IsTableOf, ArePrefixes, shown};
ghost use Rattle.shortest_tables.specs.Entries.{IsBlock};

use crate::AddressTable;
use crate::entries::Entry;
use crate::spans::spans_of;
use crate::values::{other_place, values_of};
use address_keys::Address;
use address_prefixes::Prefix;
use address_prefixes::prefix::greatest_of;
use shortest_tables::{Entry as NumberedEntry, shortest_table};
use std::alloc::{AllocError, Global};

/// The entry that one by numbers stands for.
fn entry_of<'a, A: Address, V>(entry: NumberedEntry<u32>, values: &[&'a V]) -> Entry<A, &'a V>
    requires block { IsBlock A.WIDTH entry }
    requires value { entry.value < length values.now }
    ensures { IsNamed A.at A.WIDTH values.now entry result }
{
    let rest = greatest_of(A::WIDTH - entry.length);
    Entry {
        prefix: Prefix {
            network: A::at(entry.network),
            last: A::at(entry.network + rest),
            length: entry.length,
        },
        value: values[entry.value as usize],
    }
}

/// The entries that those by numbers stand for.
fn entries_of<'a, A: Address, V>(
    alloc: Global,
    numbered: &[NumberedEntry<u32>],
    values: &[&'a V],
) -> Result<Vec<Entry<A, &'a V>>, AllocError>
    requires blocks { AllByRecursion (IsBlock A.WIDTH) numbered.now }
    requires values { AllByRecursion (λ e. e.value < length values.now) numbered.now }
    ensures { IfOk result (λ entries. AreNamed A.at A.WIDTH values.now numbered.now
        entries.items) }
{
    let mut entries = Vec::new(alloc);
    for entry in numbered {
        entries.push(entry_of(*entry, values))?;
    }
    Ok(entries)
}

/// The shortest table of prefixes, with a value or none for addresses that have none.
fn shortest_or<'a, A: Address, V: Eq + Drop>(
    alloc: Global,
    table: &'a AddressTable<A, V>,
    otherwise: Option<&'a V>,
) -> Result<Vec<Entry<A, &'a V>>, AllocError>
    ensures prefixes { IfOk result
        (λ entries. ArePrefixes A.number A.WIDTH (map shown entries.items)) }
    ensures routes { IfOk result (λ entries. IsTableOf A.order A.number V.eq
        (option_copied otherwise.entry) (box_items table.now) (map shown entries.items)) }
    ensures shortest { IfOk result (λ entries. IsShortest A.order A.number V.eq
        (option_copied otherwise.entry) (box_items table.now) A.WIDTH (map shown entries.items)) }
{
    let values = values_of(alloc, table, otherwise)?;
    let Ok(count) = u32::try_from(values.len()) else {
        return Err(AllocError);
    };
    let _items = table.iter();
    let spans = spans_of(alloc, table, values.as_slice())?;
    let place = other_place(values.as_slice(), otherwise);
    let numbered = shortest_table(alloc, spans, place, count, A::WIDTH)?;
    let entries = entries_of(alloc, numbered.as_slice(), values.as_slice())?;
    Ok(entries)
}

/// The shortest table of prefixes that routes each address to its value, and an address that has
/// none nowhere.
///
/// A router looks for the longest prefix that holds an address. No table of prefixes that routes
/// alike is shorter. The entries ascend by network, and then by length. Allocates lists of the
/// ranges and of the different values, and numbers for each block that has different ones; fails
/// where an allocation does, and where there are 2^32 different values. Costs time for each bit of
/// each range, and a comparison of each value with each different one.
///
/// ```
/// // of a table that binds 10.0.0.0 to 10.0.0.255 to 1, but 10.0.0.7 to 2
/// let entries = shortest(alloc, &table)?; // 10.0.0.0/24 with 1, 10.0.0.7/32 with 2
/// assert!(rt; entries.len() == 2);
/// ```
pub fn shortest<A: Address, V: Eq + Drop>(
    alloc: Global,
    table: &AddressTable<A, V>,
) -> Result<Vec<Entry<A, &V>>, AllocError>
    ensures prefixes { IfOk result
        (λ entries. ArePrefixes A.number A.WIDTH (map shown entries.items)) }
    ensures routes { IfOk result (λ entries. IsTableOf A.order A.number V.eq None
        (box_items table.now) (map shown entries.items)) }
    ensures shortest { IfOk result (λ entries. IsShortest A.order A.number V.eq None
        (box_items table.now) A.WIDTH (map shown entries.items)) }
{
    shortest_or(alloc, table, None)
}

/// The shortest table of prefixes that routes each address to its value, and an address that has
/// none to the default.
///
/// No table of prefixes that routes alike is shorter. Has the order and the costs of `shortest`.
///
/// ```
/// // of a table that binds 10.0.0.7 to 2
/// let entries = shortest_with(alloc, &table, &1)?; // 0.0.0.0/0 with 1, 10.0.0.7/32 with 2
/// assert!(rt; entries.len() == 2);
/// ```
pub fn shortest_with<'a, A: Address, V: Eq + Drop>(
    alloc: Global,
    table: &'a AddressTable<A, V>,
    default: &'a V,
) -> Result<Vec<Entry<A, &'a V>>, AllocError>
    ensures prefixes { IfOk result
        (λ entries. ArePrefixes A.number A.WIDTH (map shown entries.items)) }
    ensures routes { IfOk result (λ entries. IsTableOf A.order A.number V.eq (Some default.now)
        (box_items table.now) (map shown entries.items)) }
    ensures shortest { IfOk result (λ entries. IsShortest A.order A.number V.eq
        (Some default.now) (box_items table.now) A.WIDTH (map shown entries.items)) }
{
    shortest_or(alloc, table, Some(default))
}
