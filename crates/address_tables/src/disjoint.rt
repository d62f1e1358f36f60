//! The prefixes of a table, none of which overlap.

ghost use Rattle.std.specs.Prelude.{◌≡◌, ◌+◌, ◌++◌, map, IfOk, OnOk, None};
ghost use Rattle.btree_range_map.specs.Holding.{box_items};
ghost use Rattle.address_prefixes.specs.Runs.{IsSpan};
ghost use Rattle.address_prefixes.specs.Tiles.{all_tiles};
ghost use Rattle.address_tables.specs.Tables.{AreAscending, ArePrefixes, IsShortestApart, IsTableOf, shown};
ghost use Rattle.address_tables.specs.Tiled.{valued};

use crate::AddressTable;
use crate::entries::Entry;
use address_keys::Address;
use address_prefixes::divide::divide;
use address_prefixes::span::span_of;
use std::alloc::{AllocError, Global};

/// Adds the prefixes of the addresses from the first to the last.
fn push_prefixes<'a, A: Address, V>(
    entries: &mut Vec<Entry<A, &'a V>>,
    span: (u128, u128),
    value: &'a V,
) -> Result<(), AllocError>
    requires { IsSpan A.WIDTH span }
    ensures { OnOk result (map shown entries.new.items ≡ map shown entries.old.items
        ++ valued value.now (all_tiles A.at A.WIDTH span.0 (span.1 + 1))) }
{
    let mut part = Some(span);
    while let Some((first, last)) = part {
        let (prefix, rest) = divide(first, last);
        entries.push(Entry { prefix, value })?;
        part = rest;
    }
    Ok(())
}

/// The prefixes with values that a table is: no two overlap, they ascend, and no such list is
/// shorter.
///
/// Allocates their list; fails where an allocation does. Costs some steps for each bit of each
/// prefix.
///
/// ```
/// // of a table that binds 10.0.0.0 to 10.0.0.5 to 1
/// let entries = disjoint_prefixes(alloc, &table)?; // 10.0.0.0/30 and 10.0.0.4/31 with 1
/// assert!(rt; entries.len() == 2);
/// ```
pub fn disjoint_prefixes<A: Address, V: Eq + Drop>(
    alloc: Global,
    table: &AddressTable<A, V>,
) -> Result<Vec<Entry<A, &V>>, AllocError>
    ensures prefixes { IfOk result
        (λ entries. ArePrefixes A.number A.WIDTH (map shown entries.items)) }
    ensures routes { IfOk result (λ entries. IsTableOf A.order A.number V.eq None
        (box_items table.now) (map shown entries.items)) }
    ensures ascending { IfOk result
        (λ entries. AreAscending A.number (map shown entries.items)) }
    ensures shortest { IfOk result (λ entries. IsShortestApart A.order A.number V.eq None
        (box_items table.now) A.WIDTH (map shown entries.items)) }
{
    let mut entries = Vec::new(alloc);
    let mut items = table.iter();
    while let Some((range, value)) = items.next() {
        push_prefixes(&mut entries, span_of(range), value)?;
    }
    Ok(entries)
}
