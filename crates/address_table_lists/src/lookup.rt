//! The values of addresses.

ghost use Rattle.std.specs.Prelude.{◌≡◌, ◌↔◌, ◌^◌, ◌<◌, IfOk, IsTrue, OnOk, get_or, is_some, map};
ghost use Rattle.std.specs.Io.KnownBytes.{Appends};
ghost use Rattle.std.specs.List.{AllByRecursion};
ghost use Rattle.btree_range_map.specs.Holding.{box_items};
ghost use Rattle.line_program.specs.Listing.{SpellsEach, Writes};
ghost use Rattle.address_lists.specs.Lookups.{ip_family};
ghost use Rattle.address_table_lists.specs.Lookups.{FitIn, HasValue, IsFoundIn, IsStoredAround, IsValueLine, value_line};

use crate::print::text_of;
use crate::table::Table;
use address_keys::{Address, Ipv4, Ipv6};
use address_prefixes::span::span_of;
use address_rows::forms::Form;
use address_rows::write::{Block, write_line};
use address_tables::AddressTable;
use address_text::Family;
use std::io::{self, Write};
use std::net::IpAddr;

/// A range that holds an address, by the numbers of its ends, and the number of its value.
#[derive(Clone, Copy)]
pub struct Stored {
    pub first: u128,
    pub last: u128,
    pub value: u32,
}

fn stored_around<A: Address>(table: &AddressTable<A, u32>, address: A) -> Option<Stored>
    ensures { IsStoredAround A.order A.number A.WIDTH (box_items table.now) address result }
{
    address.known();
    let _items = table.iter();
    match table.get_key_value(address) {
        Some((range, value)) => {
            let (first, last) = span_of(range);
            let value = *value;
            Some(Stored { first, last, value })
        }
        None => None,
    }
}

/// The range of a table that holds an address, with its value.
fn stored_in(table: &Table, address: IpAddr) -> Option<Stored>
    ensures { IsFoundIn table.now address result }
{
    match address {
        IpAddr::V4(address) => stored_around(&table.v4, Ipv4(address.to_bits())),
        IpAddr::V6(address) => stored_around(&table.v6, Ipv6(address.to_bits())),
    }
}

fn family_of(address: IpAddr) -> Family
    ensures { result ≡ ip_family address }
{
    match address {
        IpAddr::V4(_) => Family::V4,
        IpAddr::V6(_) => Family::V6,
    }
}

fn write_stored<W: Write>(
    values: &[Vec<u8>],
    address: IpAddr,
    stored: Option<Stored>,
    out: &mut W,
) -> io::Result<()>
    requires { FitIn (ip_family address) stored }
    ensures { OnOk result (Appends (W.contents out.old) (W.contents out.new)
        (value_line (map (λ v. v.items) values.now) address stored)) }
{
    match stored {
        Some(Stored { first, last, value }) => {
            let text = text_of(values, value);
            write!(out, "{address} ")?;
            write_line(
                Form::Lines,
                family_of(address),
                Block::Range(first, last),
                text,
                out,
            )
        }
        None => writeln!(out, "{address} -"),
    }
}

fn write_value<W: Write>(
    values: &[Vec<u8>],
    table: &Table,
    address: IpAddr,
    out: &mut W,
) -> io::Result<bool>
    ensures told { IfOk result (λ has. IsTrue has ↔ HasValue table.now address) }
    ensures written { OnOk result (Writes (W.contents out.old) (W.contents out.new)
        (IsValueLine (map (λ v. v.items) values.now) table.now address)) }
{
    let stored = stored_in(table, address);
    write_stored(values, address, stored, out)?;
    Ok(stored.is_some())
}

/// Writes the values of some addresses, a line each, and returns whether each has one.
///
/// A line is the address, the range of the table that holds it, as wide as it goes, and the value,
/// as `10.1.2.3 10.0.0.0-10.255.255.255 US`. It is `10.1.2.3 -` where the address has none.
/// `values` are the texts of the values, by their numbers. Allocates nothing. Costs a search for
/// each address.
pub fn write_values<W: Write>(
    values: &[Vec<u8>],
    table: &Table,
    addresses: &[IpAddr],
    out: &mut W,
) -> io::Result<bool>
    ensures told { IfOk result
        (λ all. IsTrue all ↔ AllByRecursion (HasValue table.now) addresses.now) }
    ensures written { OnOk result (Writes (W.contents out.old) (W.contents out.new)
        (SpellsEach (IsValueLine (map (λ v. v.items) values.now) table.now) addresses.now)) }
{
    let mut has_all = true;
    for address in addresses {
        let has = write_value(values, table, *address, out)?;
        has_all &= has;
    }
    Ok(has_all)
}
