//! The values that addresses have.

ghost use Rattle.std.specs.Prelude.{◌≡◌, ◌++◌, ◌∷◌, ◌+◌, [], IfOk, OnOk, nat_eq};
ghost use Rattle.btree_range_map.specs.Bindings.{IsBoundAfter};
ghost use Rattle.btree_range_map.specs.Holding.{box_items};
ghost use Rattle.btree_range_map.specs.Names.{range_inclusive};
ghost use Rattle.btree_range_map.specs.Range.{ClonesAreEqual};
ghost use Rattle.address_prefixes.specs.Runs.{IsSpan};
ghost use Rattle.address_prefixes.specs.Tiles.{all_tiles};
ghost use Rattle.address_tables.specs.Tiled.{valued};
ghost use Rattle.address_table_lists.specs.Tables.{IsMade, IsMadeLast, IsMadeLongest, IsMadeOf, IsOfFamily, tiles_of};

use crate::rows::{Binding, Rows};
use address_keys::{Address, Ipv4, Ipv6};
use address_prefixes::divide::divide;
use address_tables::{AddressTable, Entry, from_prefixes};
use address_text::Family;
use btree_range_map::MapError;
use std::alloc::{AllocError, Global};

/// Which of the values that lines give to an address it has.
#[derive(Clone, Copy, PartialEq, Eq, Debug)]
pub enum Precedence {
    /// That of the last line.
    Last,
    /// That of the longest prefix, and of equal ones the last, as a routing table has it. Ranges are
    /// taken as the prefixes that they are.
    Longest,
}

/// The values of the addresses of both families, by their numbers.
#[derive(Drop)]
pub struct Table {
    /// Those of IPv4.
    pub v4: AddressTable<Ipv4, u32>,
    /// Those of IPv6.
    pub v6: AddressTable<Ipv6, u32>,
}

impl Table {
    /// The values of the addresses of one family alone, or of both. Allocates nothing.
    pub fn of_family(self, alloc: Global, family: Option<Family>) -> Table
        ensures { IsOfFamily family self result }
    {
        let Table { v4, v6 } = self;
        match family {
            None => Table { v4, v6 },
            Some(Family::V4) => Table {
                v4,
                v6: AddressTable::new(alloc),
            },
            Some(Family::V6) => Table {
                v4: AddressTable::new(alloc),
                v6,
            },
        }
    }
}

/// Binds the addresses from the first to the last to their value.
fn bind<A: Address>(table: &mut AddressTable<A, u32>, binding: &Binding<A>) -> Result<(), MapError>
    requires { ClonesAreEqual A.is_clone A.eq }
    ensures { OnOk result (IsBoundAfter A.order nat_eq (box_items table.old) (box_items table.new)
        (range_inclusive binding.now.first binding.now.last) binding.now.value) }
{
    table.insert(binding.first..=binding.last, binding.value)
}

/// Binds the addresses of each binding to its value, one after the other.
fn by_last<A: Address>(
    alloc: Global,
    bindings: &[Binding<A>],
) -> Result<AddressTable<A, u32>, MapError>
    requires { ClonesAreEqual A.is_clone A.eq }
    ensures { IfOk result
        (λ table. IsMadeLast A.order A.number (box_items table) bindings.now) }
{
    let mut table = AddressTable::new(alloc);
    for binding in bindings {
        bind(&mut table, binding)?;
    }
    Ok(table)
}

/// Adds the prefixes of the addresses from the first to the last.
fn push_prefixes<A: Address>(
    entries: &mut Vec<Entry<A, u32>>,
    span: (u128, u128),
    value: u32,
) -> Result<(), AllocError>
    requires { IsSpan A.WIDTH span }
    ensures { OnOk result (entries.new.items ≡ entries.old.items
        ++ valued value (all_tiles A.at A.WIDTH span.0 (span.1 + 1))) }
{
    let mut part = Some(span);
    while let Some((first, last)) = part {
        let (prefix, rest) = divide(first, last);
        entries.push(Entry { prefix, value })?;
        part = rest;
    }
    Ok(())
}

/// Adds the prefixes that a binding is.
fn push_binding<A: Address>(
    entries: &mut Vec<Entry<A, u32>>,
    binding: &Binding<A>,
) -> Result<(), AllocError>
    ensures { OnOk result (entries.new.items ≡ entries.old.items
        ++ tiles_of A.number A.at A.WIDTH (binding.now ∷ [])) }
{
    binding.first.known();
    binding.last.known();
    let span = (binding.first.number(), binding.last.number());
    if span.0 > span.1 {
        return Ok(());
    }
    push_prefixes(entries, span, binding.value)
}

/// The prefixes that the bindings are.
fn entries_of<A: Address>(
    alloc: Global,
    bindings: &[Binding<A>],
) -> Result<Vec<Entry<A, u32>>, AllocError>
    ensures { IfOk result
        (λ entries. entries.items ≡ tiles_of A.number A.at A.WIDTH bindings.now) }
{
    let mut entries = Vec::new(alloc);
    for binding in bindings {
        push_binding(&mut entries, binding)?;
    }
    Ok(entries)
}

/// Binds each address to the value of the longest prefix of a binding.
fn by_longest<A: Address>(
    alloc: Global,
    bindings: &[Binding<A>],
) -> Result<AddressTable<A, u32>, MapError>
    requires { ClonesAreEqual A.is_clone A.eq }
    ensures { IfOk result (λ table. IsMadeLongest A.order A.number A.at A.WIDTH (box_items table)
        bindings.now) }
{
    let entries = entries_of(alloc, bindings)?;
    from_prefixes(alloc, entries.as_slice())
}

/// The table of one family.
fn family_table<A: Address>(
    alloc: Global,
    precedence: Precedence,
    bindings: &[Binding<A>],
) -> Result<AddressTable<A, u32>, MapError>
    requires { ClonesAreEqual A.is_clone A.eq }
    ensures { IfOk result (λ table. IsMade precedence A.order A.number A.at A.WIDTH
        (box_items table) bindings.now) }
{
    match precedence {
        Precedence::Last => by_last(alloc, bindings),
        Precedence::Longest => by_longest(alloc, bindings),
    }
}

/// The table of what lines say: each address has the value of the last line that says it, or of the
/// longest prefix.
///
/// Fails where an allocation does. Costs an insertion for each row, or for each prefix.
pub fn table_of(alloc: Global, precedence: Precedence, rows: &Rows) -> Result<Table, MapError>
    ensures { IfOk result (λ table. IsMadeOf precedence rows.now table) }
{
    let v4 = family_table(alloc, precedence, rows.v4.as_slice())?;
    let v6 = family_table(alloc, precedence, rows.v6.as_slice())?;
    Ok(Table { v4, v6 })
}
