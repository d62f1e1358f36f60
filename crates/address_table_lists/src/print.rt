//! A table as it is printed.

ghost use Rattle.std.specs.Prelude.{◌≡◌, [], Err, IfErr, IfOk, OnOk, get_or, map};
ghost use Rattle.std.specs.Io.KnownBytes.{Appends};
ghost use Rattle.address_prefixes.specs.Spans.{HasSpan};
ghost use Rattle.btree_range_map.specs.Holding.{box_items};
ghost use Rattle.line_program.specs.Listing.{SpellsEach, Writes};
ghost use Rattle.address_tables.specs.Tables.{shown};
ghost use Rattle.address_rows.specs.Forms.{block_line};
ghost use Rattle.address_table_lists.specs.Blocks.{range_block};
ghost use Rattle.address_table_lists.specs.Printed.{AreDisjoint, ArePrefixLines, AreShortest, IsDisjointTable, IsEntryLine, IsItemLine, IsPrintedDisjoint, IsPrintedShortest, IsPrintedTable, IsShortestTable, IsShown};
ghost use Rattle.address_table_lists.specs.Framed.{IsFramed};
ghost use Rattle.address_table_lists.specs.declared.print.PrintError.TheVariants.{Memory, Unwritable};

use crate::table::Table;
use address_keys::{Address, Ipv4, Ipv6};
use address_lists::print::FamilyAddress;
use address_prefixes::span::span_of;
use address_rows::forms::{Form, values_in};
use address_rows::texts::Texts;
use address_rows::write::{Block, family_closing, family_opening, write_line};
use address_tables::{AddressTable, Entry, disjoint_prefixes, shortest, shortest_with};
use btree_range_map::AnyRange;
use std::alloc::{AllocError, Global};
use std::io::{self, Write};

/// The text of a value by its number; of one that has none, no text.
pub(crate) fn text_of<'a>(values: &'a [Vec<u8>], number: u32) -> &'a [u8]
    ensures { result.now ≡ get_or (map (λ v. v.items) values.now) number [] }
{
    match values.get(number as usize) {
        Some(text) => text.as_slice(),
        None => b"",
    }
}

/// Writes the line of a range and its value.
fn write_item<A: FamilyAddress, W: Write>(
    form: Form,
    values: &[Vec<u8>],
    range: &AnyRange<A>,
    value: u32,
    out: &mut W,
) -> io::Result<()>
    requires { HasSpan A.number A.WIDTH range.now }
    ensures { OnOk result (Appends (W.contents out.old) (W.contents out.new)
        (block_line form A.its_family (range_block A.number A.WIDTH range.now)
        (get_or (map (λ v. v.items) values.now) value []))) }
{
    let (first, last) = span_of(range);
    write_line(
        form,
        A::family(),
        Block::Range(first, last),
        text_of(values, value),
        out,
    )
}

/// Writes the ranges of a table of one family, each on a line.
fn write_ranges<A: FamilyAddress, W: Write>(
    form: Form,
    values: &[Vec<u8>],
    table: &AddressTable<A, u32>,
    out: &mut W,
) -> io::Result<()>
    ensures { OnOk result (Writes (W.contents out.old) (W.contents out.new)
        (SpellsEach (IsItemLine form A.its_family A.number A.WIDTH (map (λ v. v.items) values.now))
        (box_items table.now))) }
{
    let mut items = table.iter();
    while let Some((range, value)) = items.next() {
        write_item(form, values, range, *value, out)?;
    }
    Ok(())
}

/// Writes the ranges of a table of one family, with what stands around them.
fn write_framed_ranges<A: FamilyAddress, W: Write>(
    form: Form,
    values: &[Vec<u8>],
    table: &AddressTable<A, u32>,
    out: &mut W,
) -> io::Result<()>
    ensures { OnOk result (Writes (W.contents out.old) (W.contents out.new)
        (IsFramed form A.its_family (IsItemLine form A.its_family A.number A.WIDTH
        (map (λ v. v.items) values.now)) (box_items table.now))) }
{
    if table.is_empty() {
        return Ok(());
    }
    out.write_all(family_opening(form, A::family()))?;
    write_ranges(form, values, table, out)?;
    out.write_all(family_closing(form))
}

/// Writes the ranges of a table with their values, those of IPv4 first, each on a line, ascending.
///
/// They are as wide as they go. `values` are the texts of the values in this form, by their
/// numbers.
fn write_table<W: Write>(
    form: Form,
    values: &[Vec<u8>],
    table: &Table,
    out: &mut W,
) -> io::Result<()>
    ensures { OnOk result (Writes (W.contents out.old) (W.contents out.new)
        (IsPrintedTable form (map (λ v. v.items) values.now) table.now)) }
{
    let _v4 = table.v4.iter();
    let _v6 = table.v6.iter();
    write_framed_ranges(form, values, &table.v4, out)?;
    write_framed_ranges(form, values, &table.v6, out)
}

fn write_entry<A: FamilyAddress, W: Write>(
    form: Form,
    values: &[Vec<u8>],
    entry: &Entry<A, &u32>,
    out: &mut W,
) -> io::Result<()>
    ensures { OnOk result (Writes (W.contents out.old) (W.contents out.new)
        (IsEntryLine form A.its_family A.number (map (λ v. v.items) values.now)
        (shown entry.now))) }
{
    entry.prefix.network.known();
    entry.prefix.last.known();
    let network = entry.prefix.network.number();
    let last = entry.prefix.last.number();
    let block = Block::Prefix(network, last, entry.prefix.length);
    write_line(form, A::family(), block, text_of(values, *entry.value), out)
}

fn write_entries<A: FamilyAddress, W: Write>(
    form: Form,
    values: &[Vec<u8>],
    entries: &[Entry<A, &u32>],
    out: &mut W,
) -> io::Result<()>
    ensures { OnOk result (Writes (W.contents out.old) (W.contents out.new)
        (SpellsEach (IsEntryLine form A.its_family A.number (map (λ v. v.items) values.now))
        (map shown entries.now))) }
{
    for entry in entries {
        write_entry(form, values, entry, out)?;
    }
    Ok(())
}

/// Writes prefixes of one family with what stands around them.
fn write_framed_entries<A: FamilyAddress, W: Write>(
    form: Form,
    values: &[Vec<u8>],
    entries: &[Entry<A, &u32>],
    out: &mut W,
) -> io::Result<()>
    ensures { OnOk result (Writes (W.contents out.old) (W.contents out.new)
        (IsFramed form A.its_family (IsEntryLine form A.its_family A.number
        (map (λ v. v.items) values.now)) (map shown entries.now))) }
{
    if entries.is_empty() {
        return Ok(());
    }
    out.write_all(family_opening(form, A::family()))?;
    write_entries(form, values, entries, out)?;
    out.write_all(family_closing(form))
}

/// The prefixes that a table is.
#[derive(Drop)]
struct Prefixes<'a> {
    v4: Vec<Entry<Ipv4, &'a u32>>,
    v6: Vec<Entry<Ipv6, &'a u32>>,
}

/// Why nothing more is printed.
#[derive(Clone, Copy, PartialEq, Eq, Debug)]
pub enum PrintError {
    /// An allocation failed.
    Memory,
    /// The text cannot be written.
    Unwritable,
}

/// Writes the prefixes of both families.
fn write_families<W: Write>(
    form: Form,
    values: &[Vec<u8>],
    prefixes: &Prefixes<'_>,
    out: &mut W,
) -> io::Result<()>
    ensures { OnOk result (Writes (W.contents out.old) (W.contents out.new)
        (ArePrefixLines form (map (λ v. v.items) values.now) (map shown prefixes.now.v4.items)
        (map shown prefixes.now.v6.items))) }
{
    write_framed_entries(form, values, prefixes.v4.as_slice(), out)?;
    write_framed_entries(form, values, prefixes.v6.as_slice(), out)
}

fn write_prefixes<W: Write>(
    form: Form,
    values: &[Vec<u8>],
    prefixes: &Prefixes<'_>,
    out: &mut W,
) -> Result<(), PrintError>
    ensures written { OnOk result (Writes (W.contents out.old) (W.contents out.new)
        (ArePrefixLines form (map (λ v. v.items) values.now) (map shown prefixes.now.v4.items)
        (map shown prefixes.now.v6.items))) }
    ensures failed { IfErr result (λ error. error ≡ Unwritable) }
{
    match write_families(form, values, prefixes, out) {
        Ok(()) => Ok(()),
        Err(_) => Err(PrintError::Unwritable),
    }
}

/// The disjoint prefixes of one family.
fn disjoint_entries<A: Address>(
    alloc: Global,
    table: &AddressTable<A, u32>,
) -> Result<Vec<Entry<A, &u32>>, AllocError>
    ensures { IfOk result (λ entries. IsDisjointTable A.order A.number A.WIDTH
        (box_items table.now) (map shown entries.items)) }
{
    disjoint_prefixes(alloc, table)
}

fn disjoint_of(alloc: Global, table: &Table) -> Result<Prefixes<'_>, AllocError>
    ensures { IfOk result (λ prefixes. AreDisjoint table.now (map shown prefixes.v4.items)
        (map shown prefixes.v6.items)) }
{
    let v4 = disjoint_entries(alloc, &table.v4)?;
    let v6 = disjoint_entries(alloc, &table.v6)?;
    Ok(Prefixes { v4, v6 })
}

/// The numbers of the values of addresses that have none, in either family.
#[derive(Clone, Copy)]
pub struct Defaults {
    pub v4: Option<u32>,
    pub v6: Option<u32>,
}

impl Defaults {
    /// No values.
    pub const NONE: Defaults = Defaults { v4: None, v6: None };
}

/// The shortest table of one family.
fn shortest_or<'a, A: Address>(
    alloc: Global,
    table: &'a AddressTable<A, u32>,
    default: &'a Option<u32>,
) -> Result<Vec<Entry<A, &'a u32>>, AllocError>
    ensures { IfOk result (λ entries. IsShortestTable A.order A.number A.WIDTH
        (box_items table.now) default.now (map shown entries.items)) }
{
    match default {
        Some(value) => shortest_with(alloc, table, value),
        None => shortest(alloc, table),
    }
}

fn shortest_of<'a>(
    alloc: Global,
    table: &'a Table,
    defaults: &'a Defaults,
) -> Result<Prefixes<'a>, AllocError>
    ensures { IfOk result (λ prefixes. AreShortest defaults.now table.now
        (map shown prefixes.v4.items) (map shown prefixes.v6.items)) }
{
    let v4 = shortest_or(alloc, &table.v4, &defaults.v4)?;
    let v6 = shortest_or(alloc, &table.v6, &defaults.v6)?;
    Ok(Prefixes { v4, v6 })
}

/// Writes the prefixes with values that a table is, those of IPv4 first, each on a line, ascending.
///
/// No two overlap, and no such list is shorter.
fn write_disjoint<W: Write>(
    alloc: Global,
    form: Form,
    values: &[Vec<u8>],
    table: &Table,
    out: &mut W,
) -> Result<(), PrintError>
    ensures written { OnOk result (Writes (W.contents out.old) (W.contents out.new)
        (IsPrintedDisjoint form (map (λ v. v.items) values.now) table.now)) }
    ensures silent { result ≡ Err Memory → out.new ≡ out.old }
{
    match disjoint_of(alloc, table) {
        Ok(prefixes) => write_prefixes(form, values, &prefixes, out),
        Err(_) => Err(PrintError::Memory),
    }
}

/// Writes the shortest table of prefixes that routes each address to its value by the longest
/// prefix, those of IPv4 first, each on a line. An address that has no value is routed to the
/// default, where there is one, and else not at all.
///
/// No table of prefixes that routes alike is shorter.
fn write_shortest<W: Write>(
    alloc: Global,
    form: Form,
    values: &[Vec<u8>],
    table: &Table,
    defaults: &Defaults,
    out: &mut W,
) -> Result<(), PrintError>
    ensures written { OnOk result (Writes (W.contents out.old) (W.contents out.new)
        (IsPrintedShortest form (map (λ v. v.items) values.now) defaults.now table.now)) }
    ensures silent { result ≡ Err Memory → out.new ≡ out.old }
{
    match shortest_of(alloc, table, defaults) {
        Ok(prefixes) => write_prefixes(form, values, &prefixes, out),
        Err(_) => Err(PrintError::Memory),
    }
}

/// How a table is printed.
#[derive(Clone, Copy)]
pub enum Shape {
    /// By its ranges, each as wide as it goes.
    Ranges,
    /// By prefixes of which no two overlap. No such list is shorter.
    Disjoint,
    /// By prefixes that route each address to its value by the longest one, and an address that has
    /// none to the default, where there is one. No table of prefixes that routes alike is shorter.
    Shortest(Defaults),
}

/// Prints a table in a form, those of IPv4 first, each range or prefix on a line, ascending.
///
/// Allocates the texts of the values in this form, and a list of the prefixes. Where that fails,
/// nothing is written.
pub fn print_table<W: Write>(
    alloc: Global,
    shape: Shape,
    form: Form,
    texts: &Texts,
    table: &Table,
    out: &mut W,
) -> Result<(), PrintError>
    ensures printed { OnOk result (Writes (W.contents out.old) (W.contents out.new)
        (IsShown shape form texts.now table.now)) }
    ensures silent { result ≡ Err Memory → out.new ≡ out.old }
{
    let Ok(values) = values_in(alloc, form, texts) else {
        return Err(PrintError::Memory);
    };
    let values = values.as_slice();
    match shape {
        Shape::Ranges => match write_table(form, values, table, out) {
            Ok(()) => Ok(()),
            Err(_) => Err(PrintError::Unwritable),
        },
        Shape::Disjoint => write_disjoint(alloc, form, values, table, out),
        Shape::Shortest(defaults) => write_shortest(alloc, form, values, table, &defaults, out),
    }
}
