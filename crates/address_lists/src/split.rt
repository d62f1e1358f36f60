//! The prefixes of a list, the short ones split into longer ones.

ghost use Rattle.std.specs.Prelude.{◌≡◌, ◌+◌, ◌-◌, ◌≤◌, ◌<◌, ◌^◌, ℕ, List, [], ◌∷◌, ◌++◌, OnOk};
ghost use Rattle.std.specs.List.{AllByRecursion};
ghost use Rattle.btree_range_map.specs.FreeRanges.{item_ranges};
ghost use Rattle.btree_range_map.specs.Holding.{box_items};
ghost use Rattle.line_program.specs.Listing.{SpellsEach, Writes};
ghost use Rattle.address_prefixes.specs.Prefixes.{IsPrefix};
ghost use Rattle.address_text.specs.Texts.{width};
ghost use Rattle.address_lists.specs.Split.{AreSplit, IsFamilySplit, IsPrintedSplit, IsLeastServing, IsSplit, IsSplitLength, IsSplitText, part_lines};

use crate::addresses::Addresses;
use crate::print::FamilyAddress;
use address_prefixes::prefix::greatest_of;
use address_sets::{AddressSet, Prefix, PrefixSet, Prefixes};
use address_text::Family;
use address_text::write::{Around, write_prefix_line};
use std::io::{self, Write};

/// Writes the prefixes of a length that have the addresses of a shorter one.
fn write_parts<W: Write>(
    around: Around<'_>,
    family: Family,
    shorter: u8,
    ends: (u128, u128),
    length: u8,
    out: &mut W,
) -> io::Result<()>
    requires whole { ends.1 + 1 ≡ ends.0 + 2 ^ (width family - shorter) }
    requires fits { ends.1 < 2 ^ width family }
    requires longer { shorter < length }
    requires short { length ≤ width family }
    ensures { OnOk result (Writes (W.contents out.old) (W.contents out.new)
        (λ text. text ≡ part_lines around.entry.before.now around.entry.after.now family
        length (2 ^ (length - shorter)) ends.0)) }
{
    let (first, last) = ends;
    let others = greatest_of(family.width() - length);
    let mut network = first;
    while others < last - network {
        write_prefix_line(around, family, network, length, out)?;
        network += others + 1;
    }
    write_prefix_line(around, family, network, length, out)
}

/// Writes the prefixes of a length that have the addresses of another prefix, or this one where it
/// is not shorter.
fn write_split<W: Write>(
    around: Around<'_>,
    family: Family,
    prefix_length: u8,
    ends: (u128, u128),
    length: u8,
    out: &mut W,
) -> io::Result<()>
    requires whole { ends.1 + 1 ≡ ends.0 + 2 ^ (width family - prefix_length) }
    requires fits { ends.1 < 2 ^ width family }
    ensures { OnOk result (Writes (W.contents out.old) (W.contents out.new)
        (IsSplitText around.entry.before.now around.entry.after.now family length
        prefix_length ends.0)) }
{
    if prefix_length < length && length <= family.width() {
        write_parts(around, family, prefix_length, ends, length, out)
    } else {
        write_prefix_line(around, family, ends.0, prefix_length, out)
    }
}

/// The least length that serves, after one more is looked at.
fn lesser(least: Option<u8>, length: u8, family: Family, prefix_length: u8) -> Option<u8>
    ensures { (lengths : List ℕ) → IsLeastServing lengths family prefix_length least
        → IsLeastServing (lengths ++ length ∷ []) family prefix_length result }
{
    if length < prefix_length || family.width() < length {
        return least;
    }
    match least {
        Some(found) if found <= length => least,
        _ => Some(length),
    }
}

/// The least of the lengths that serves a prefix of a length, where there is one.
fn least_serving(lengths: &[u8], family: Family, prefix_length: u8) -> Option<u8>
    ensures { IsLeastServing lengths.now family prefix_length result }
{
    let mut least = None;
    for length in lengths {
        least = lesser(least, *length, family, prefix_length);
    }
    least
}

/// The length at which a prefix of a length is divided: its own where it stays whole.
fn split_length(lengths: &[u8], family: Family, prefix_length: u8) -> u8
    ensures { IsSplitLength lengths.now family prefix_length result }
{
    match least_serving(lengths, family, prefix_length) {
        Some(length) => length,
        None => prefix_length,
    }
}

fn write_split_prefix<A: FamilyAddress, W: Write>(
    around: Around<'_>,
    prefix: Prefix<A>,
    lengths: &[u8],
    out: &mut W,
) -> io::Result<()>
    requires { IsPrefix A.number A.WIDTH prefix }
    ensures { OnOk result (Writes (W.contents out.old) (W.contents out.new)
        (IsSplit around.entry.before.now around.entry.after.now A.its_family A.number
        lengths.now prefix)) }
{
    prefix.network.known();
    prefix.last.known();
    let ends = (prefix.network.number(), prefix.last.number());
    let length = split_length(lengths, A::family(), prefix.length);
    write_split(around, A::family(), prefix.length, ends, length, out)
}

fn write_all<'a, A: FamilyAddress + 'a, W: Write>(
    around: Around<'_>,
    mut prefixes: Prefixes<'a, A>,
    lengths: &[u8],
    out: &mut W,
) -> io::Result<()>
    requires { AllByRecursion (IsPrefix A.number A.WIDTH) prefixes }
    ensures { OnOk result (Writes (W.contents out.old) (W.contents out.new)
        (SpellsEach (IsSplit around.entry.before.now around.entry.after.now A.its_family
        A.number lengths.now) prefixes.entry)) }
{
    while let Some(prefix) = prefixes.next() {
        write_split_prefix(around, prefix, lengths, out)?;
    }
    Ok(())
}

fn write_set<A: FamilyAddress, W: Write>(
    set: &AddressSet<A>,
    lengths: &[u8],
    around: Around<'_>,
    out: &mut W,
) -> io::Result<()>
    ensures { OnOk result (Writes (W.contents out.old) (W.contents out.new)
        (AreSplit around.entry.before.now around.entry.after.now A.its_family A.number
        lengths.now A.order A.WIDTH (item_ranges (box_items set.now)))) }
{
    write_all(around, set.prefixes(), lengths, out)
}

/// Writes the prefixes of one family of a list, each on a line, and divides each at the least of
/// the lengths that is not below its own. Allocates nothing.
pub fn write_family_prefixes<W: Write>(
    list: &Addresses,
    family: Family,
    lengths: &[u8],
    around: Around<'_>,
    out: &mut W,
) -> io::Result<()>
    ensures { OnOk result (Writes (W.contents out.old) (W.contents out.new)
        (IsFamilySplit around.entry.before.now around.entry.after.now family lengths.now
        list.now)) }
{
    match family {
        Family::V4 => write_set(&list.v4, lengths, around, out),
        Family::V6 => write_set(&list.v6, lengths, around, out),
    }
}

/// Writes the prefixes of a list, those of IPv4 first, each on a line, and divides each at the
/// least of the lengths that is not below its own.
///
/// Before they are divided they are as few as can be. One that is longer than all lengths stays
/// whole, and no length above the bits of an address counts. Allocates nothing, however many lines
/// are written.
pub fn write_split_prefixes<W: Write>(
    list: &Addresses,
    lengths: &[u8],
    around: Around<'_>,
    out: &mut W,
) -> io::Result<()>
    ensures { OnOk result (Writes (W.contents out.old) (W.contents out.new)
        (IsPrintedSplit around.entry.before.now around.entry.after.now lengths.now list.now)) }
{
    write_set(&list.v4, lengths, around, out)?;
    write_set(&list.v6, lengths, around, out)
}
