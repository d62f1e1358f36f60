//! A table and a list of addresses together.

ghost use Rattle.std.specs.Prelude.{IfOk, OnOk, nat_eq};
ghost use Rattle.address_prefixes.specs.Runs.{IsSpan};
ghost use Rattle.address_prefixes.specs.Spans.{HasSpan};
ghost use Rattle.btree_range_map.specs.Holding.{box_items};
ghost use Rattle.btree_range_map.specs.KeySets.{HoldsAlso};
ghost use Rattle.btree_range_map.specs.Names.{range_inclusive};
ghost use Rattle.btree_range_map.specs.Overlays.{IsRestricted, IsWithout};
ghost use Rattle.btree_range_map.specs.Range.{ClonesAreEqual};
ghost use Rattle.address_table_lists.specs.Parts.{AreAddedIf, AreAllBut, AreOnly, HaveValue, IsSelected, is_among};

use crate::table::Table;
use address_keys::Address;
use address_lists::{Addresses, empty_set};
use address_prefixes::span::span_of;
use address_sets::AddressSet;
use address_tables::AddressTable;
use btree_range_map::{AnyRange, MapError};
use std::alloc::Global;

/// Keeps the values of the addresses of a set alone.
fn keep<A: Address>(table: &mut AddressTable<A, u32>, set: &AddressSet<A>) -> Result<(), MapError>
    requires { ClonesAreEqual A.is_clone A.eq }
    ensures { OnOk result (IsRestricted A.order nat_eq (box_items table.old) (box_items set.now)
        (box_items table.new)) }
{
    table.retain_all(set.as_map())
}

/// Takes out the values of the addresses of a set.
fn take_away<A: Address>(
    table: &mut AddressTable<A, u32>,
    set: &AddressSet<A>,
) -> Result<(), MapError>
    requires { ClonesAreEqual A.is_clone A.eq }
    ensures { OnOk result (IsWithout A.order nat_eq (box_items table.old) (box_items set.now)
        (box_items table.new)) }
{
    table.remove_all(set.as_map())
}

impl Table {
    /// Keeps the values of the addresses that a list has.
    pub fn keep_only(&mut self, list: &Addresses) -> Result<(), MapError>
        ensures { OnOk result (AreOnly self.old list.now self.new) }
    {
        keep(&mut self.v4, &list.v4)?;
        keep(&mut self.v6, &list.v6)
    }

    /// Takes out the values of the addresses that a list has.
    pub fn take_out(&mut self, list: &Addresses) -> Result<(), MapError>
        ensures { OnOk result (AreAllBut self.old list.now self.new) }
    {
        take_away(&mut self.v4, &list.v4)?;
        take_away(&mut self.v6, &list.v6)
    }
}

/// Adds the addresses of the numbers from the first to the last.
fn add_span<A: Address>(set: &mut AddressSet<A>, span: (u128, u128)) -> Result<(), MapError>
    requires keys { ClonesAreEqual A.is_clone A.eq }
    requires span { IsSpan A.WIDTH span }
    ensures { OnOk result (HoldsAlso A.order (box_items set.old) (box_items set.new)
        (range_inclusive (A.at span.0) (A.at span.1))) }
{
    set.insert(A::at(span.0)..=A::at(span.1))
}

/// Adds the addresses of a range, where its value is among these.
fn add_if_among<A: Address>(
    set: &mut AddressSet<A>,
    range: &AnyRange<A>,
    value: u32,
    values: &[u32],
) -> Result<(), MapError>
    requires keys { ClonesAreEqual A.is_clone A.eq }
    requires span { HasSpan A.number A.WIDTH range.now }
    ensures { OnOk result (AreAddedIf A.order (is_among values.now value) range.now
        (box_items set.old) (box_items set.new)) }
{
    if values.contains(&value) {
        return add_span(set, span_of(range));
    }
    Ok(())
}

/// The addresses of one family that have one of the values.
fn select_family<A: Address>(
    alloc: Global,
    table: &AddressTable<A, u32>,
    values: &[u32],
) -> Result<AddressSet<A>, MapError>
    requires { ClonesAreEqual A.is_clone A.eq }
    ensures { IfOk result
        (λ set. HaveValue A.order (box_items table.now) values.now (box_items set)) }
{
    let mut set = empty_set(alloc);
    let mut items = table.iter();
    while let Some((range, value)) = items.next() {
        add_if_among(&mut set, range, *value, values)?;
    }
    Ok(set)
}

/// The addresses that have one of the values of these numbers.
///
/// Allocates their list; fails where an allocation does. Goes once over the table.
pub fn select(alloc: Global, table: &Table, values: &[u32]) -> Result<Addresses, MapError>
    ensures { IfOk result (IsSelected table.now values.now) }
{
    let v4 = select_family(alloc, &table.v4, values)?;
    let v6 = select_family(alloc, &table.v6, values)?;
    Ok(Addresses { v4, v6 })
}
