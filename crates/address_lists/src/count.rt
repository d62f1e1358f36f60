//! How many addresses a list has, as it is printed.

ghost use Rattle.std.specs.Prelude.{◌^◌, OnOk};
ghost use Rattle.std.specs.Io.KnownBytes.{Appends};
ghost use Rattle.btree_range_map.specs.Holding.{box_items};
ghost use Rattle.line_program.specs.Listing.{Writes};
ghost use Rattle.address_lists.specs.Counted.{IsCountLine, IsCounted, count_line};

use crate::addresses::Addresses;
use address_sets::{Address, AddressSet, address_count};
use std::io::{self, Write};

fn write_number<W: Write>(before: &str, family: &str, count: u128, out: &mut W) -> io::Result<()>
    ensures { OnOk result (Appends (W.contents out.old) (W.contents out.new)
        (count_line before.now family.now count)) }
{
    writeln!(out, "{before}{family} {count}")
}

/// Writes the line of all addresses of IPv6, which are one too many for a `u128`.
fn write_all<W: Write>(before: &str, family: &str, out: &mut W) -> io::Result<()>
    ensures { OnOk result (Appends (W.contents out.old) (W.contents out.new)
        (count_line before.now family.now (2 ^ 128))) }
{
    writeln!(
        out,
        "{before}{family} 340282366920938463463374607431768211456"
    )
}

fn write_count<A: Address, W: Write>(
    before: &str,
    family: &str,
    set: &AddressSet<A>,
    out: &mut W,
) -> io::Result<()>
    ensures { OnOk result (Writes (W.contents out.old) (W.contents out.new)
        (IsCountLine before.now family.now A.order (box_items set.now))) }
{
    match address_count(set) {
        Some(count) => write_number(before, family, count, out),
        None => write_all(before, family, out),
    }
}

/// Writes how many addresses of each family the list has, IPv4 first, each on a line.
///
/// A line is the text `before`, the family and the number, as `IPv4 256`. Allocates nothing.
pub fn write_counts<W: Write>(before: &str, list: &Addresses, out: &mut W) -> io::Result<()>
    ensures { OnOk result (Writes (W.contents out.old) (W.contents out.new)
        (IsCounted before.now list.now)) }
{
    write_count(before, "IPv4", &list.v4, out)?;
    write_count(before, "IPv6", &list.v6, out)
}
