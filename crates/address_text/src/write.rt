//! Addresses as they are printed, each on a line, with a text before it and one behind.

ghost use Rattle.std.specs.Prelude.{◌≤◌, ◌<◌, ◌^◌, OnOk};
ghost use Rattle.std.specs.Io.KnownBytes.{Appends};
ghost use Rattle.address_text.specs.Texts.{address_line, prefix_line, range_line, span_line, width};

use crate::family::Family;
use std::io::{self, Write};

/// The texts that stand before and behind what is printed on a line.
#[derive(Clone, Copy)]
pub struct Around<'a> {
    pub before: &'a str,
    pub after: &'a str,
}

impl Around<'static> {
    /// No texts.
    pub const NONE: Around<'static> = Around {
        before: "",
        after: "",
    };
}

/// Writes the line of a prefix, such as `10.0.0.0/8`, by the bits of its first address.
pub fn write_prefix_line<W: Write>(
    around: Around<'_>,
    family: Family,
    network: u128,
    length: u8,
    out: &mut W,
) -> io::Result<()>
    requires { network < 2 ^ width family }
    ensures { OnOk result (Appends (W.contents out.old) (W.contents out.new)
        (prefix_line around.entry.before.now around.entry.after.now family network length)) }
{
    let Around { before, after } = around;
    let network = family.address(network);
    writeln!(out, "{before}{network}/{length}{after}")
}

/// Writes the line of a range, such as `10.0.0.0-10.0.0.5`, by the bits of its ends.
pub fn write_range_line<W: Write>(
    around: Around<'_>,
    family: Family,
    first: u128,
    last: u128,
    out: &mut W,
) -> io::Result<()>
    requires first { first < 2 ^ width family }
    requires last { last < 2 ^ width family }
    ensures { OnOk result (Appends (W.contents out.old) (W.contents out.new)
        (range_line around.entry.before.now around.entry.after.now family first last)) }
{
    let Around { before, after } = around;
    let first = family.address(first);
    let last = family.address(last);
    writeln!(out, "{before}{first}-{last}{after}")
}

/// Writes the line of an address, such as `10.0.0.1`, by its bits.
pub fn write_address_line<W: Write>(
    around: Around<'_>,
    family: Family,
    bits: u128,
    out: &mut W,
) -> io::Result<()>
    requires { bits < 2 ^ width family }
    ensures { OnOk result (Appends (W.contents out.old) (W.contents out.new)
        (address_line around.entry.before.now around.entry.after.now family bits)) }
{
    let Around { before, after } = around;
    let address = family.address(bits);
    writeln!(out, "{before}{address}{after}")
}

/// Writes the line of a range, or of an address where it has no other.
pub fn write_span_line<W: Write>(
    around: Around<'_>,
    family: Family,
    first: u128,
    last: u128,
    out: &mut W,
) -> io::Result<()>
    requires first { first < 2 ^ width family }
    requires last { last < 2 ^ width family }
    ensures { OnOk result (Appends (W.contents out.old) (W.contents out.new)
        (span_line around.entry.before.now around.entry.after.now family first last)) }
{
    if first == last {
        write_address_line(around, family, first, out)
    } else {
        write_range_line(around, family, first, last, out)
    }
}
