//! The ranges of a list, each on a line, and its addresses one by one.

ghost use Rattle.std.specs.Prelude.{◌≡◌, ◌+◌, ◌-◌, ◌≤◌, ◌<◌, ◌^◌, ℕ, OnOk};
ghost use Rattle.std.specs.List.{AllByRecursion};
ghost use Rattle.line_program.specs.Listing.{SpellsEach, Writes};
ghost use Rattle.address_text.specs.Texts.{address_line, width};
ghost use Rattle.address_lists.specs.Ranges.{IsPrintedAs, IsRangeText};
ghost use Rattle.address_lists.specs.Series.{series};
ghost use Rattle.address_lists.specs.declared.ranges.Spelling.TheVariants.{Ends, Singles};

use crate::addresses::Addresses;
use address_sets::{Address, Runs, runs_of};
use address_text::Family;
use address_text::write::{Around, write_address_line, write_span_line};
use std::io::{self, Write};

/// How the addresses of a range are printed.
#[derive(Clone, Copy, PartialEq, Eq, Debug)]
pub enum Spelling {
    /// The first and the last on a line, or one where it has no other.
    Ends,
    /// Each on a line.
    Singles,
}

/// Writes all addresses from the first to the last, each on a line.
fn write_each<W: Write>(
    around: Around<'_>,
    family: Family,
    first: u128,
    last: u128,
    out: &mut W,
) -> io::Result<()>
    requires ordered { first ≤ last }
    requires fits { last < 2 ^ width family }
    ensures { OnOk result (Writes (W.contents out.old) (W.contents out.new)
        (λ text. text ≡ series
        (address_line around.entry.before.now around.entry.after.now family) 1
        (last + 1 - first) first)) }
{
    let mut number = first;
    while number < last {
        write_address_line(around, family, number, out)?;
        number += 1;
    }
    write_address_line(around, family, number, out)
}

fn write_range<W: Write>(
    spelling: Spelling,
    around: Around<'_>,
    family: Family,
    range: (u128, u128),
    out: &mut W,
) -> io::Result<()>
    requires { (range.0 ≤ range.1) × (range.1 < 2 ^ width family) }
    ensures { OnOk result (Writes (W.contents out.old) (W.contents out.new)
        (IsRangeText around.entry.before.now around.entry.after.now spelling family range)) }
{
    let (first, last) = range;
    match spelling {
        Spelling::Ends => write_span_line(around, family, first, last, out),
        Spelling::Singles => write_each(around, family, first, last, out),
    }
}

fn write_all<'a, A: Address + 'a, W: Write>(
    spelling: Spelling,
    around: Around<'_>,
    family: Family,
    mut ranges: Runs<'a, A>,
    out: &mut W,
) -> io::Result<()>
    requires { AllByRecursion (λ (range : ℕ × ℕ). (range.0 ≤ range.1)
        × (range.1 < 2 ^ width family)) ranges }
    ensures { OnOk result (Writes (W.contents out.old) (W.contents out.new)
        (SpellsEach (IsRangeText around.entry.before.now around.entry.after.now spelling family)
        ranges.entry)) }
{
    while let Some(range) = ranges.next() {
        write_range(spelling, around, family, range, out)?;
    }
    Ok(())
}

fn write_list<W: Write>(
    spelling: Spelling,
    list: &Addresses,
    around: Around<'_>,
    out: &mut W,
) -> io::Result<()>
    ensures { OnOk result (Writes (W.contents out.old) (W.contents out.new)
        (IsPrintedAs around.entry.before.now around.entry.after.now spelling list.now)) }
{
    write_all(spelling, around, Family::V4, runs_of(&list.v4), out)?;
    write_all(spelling, around, Family::V6, runs_of(&list.v6), out)
}

/// Writes the ranges of a list, those of IPv4 first, each on a line, as `10.0.0.0-10.0.0.5`.
///
/// They are as wide as they go, ascending. One of a single address is written as this address.
/// Allocates nothing.
pub fn write_ranges<W: Write>(list: &Addresses, around: Around<'_>, out: &mut W) -> io::Result<()>
    ensures { OnOk result (Writes (W.contents out.old) (W.contents out.new)
        (IsPrintedAs around.entry.before.now around.entry.after.now Ends list.now)) }
{
    write_list(Spelling::Ends, list, around, out)
}

/// Writes the addresses of a list, those of IPv4 first, each on a line, ascending.
///
/// Allocates nothing, however many lines are written.
pub fn write_singles<W: Write>(list: &Addresses, around: Around<'_>, out: &mut W) -> io::Result<()>
    ensures { OnOk result (Writes (W.contents out.old) (W.contents out.new)
        (IsPrintedAs around.entry.before.now around.entry.after.now Singles list.now)) }
{
    write_list(Spelling::Singles, list, around, out)
}
