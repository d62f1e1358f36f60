//! The values of addresses, and how many addresses each value has.

ghost use Rattle.std.specs.Prelude.{◌≡◌, ◌≢◌, ◌⊎◌, ◌↔◌, ◌++◌, ℕ, List, Err, IfErr, IfOk, IsTrue, OnErr, OnOk, map};
ghost use Rattle.std.specs.Io.KnownBytes.{Appends};
ghost use Rattle.std.specs.List.{AllByRecursion};
ghost use Rattle.address_rows.specs.Forms.{value_text};
ghost use Rattle.address_rows.specs.Rows.{Row};
ghost use Rattle.address_rows.specs.declared.forms.Form.TheVariants.{Lines};
ghost use Rattle.address_table_lists.specs.Counts.{AreCounted};
ghost use Rattle.address_table_lists.specs.Lookups.{HasValue, IsValueLine};
ghost use Rattle.line_program.specs.Listing.{SpellsEach, Writes};
ghost use Rattle.address_table_commands.specs.Files.{AreKnown, AreTables, IsReadFailure, IsStop, left_out_of, rows_of};
ghost use Rattle.address_table_commands.specs.Values.{AreCountsOf, AreTold};
ghost use Rattle.address_table_commands.specs.declared.source.Stop.TheVariants.{Memory, Unwritable};

use crate::source::{Source, Stop};
use crate::table::{Asked, Named, read_named};
use address_table_lists::{Form, Table, values_in, write_value_counts, write_values};
use line_program::read::LineRead;
use std::alloc::{AllocError, Global};
use std::io::{self, Write};
use std::net::IpAddr;

/// Writes the values of some addresses out, and returns whether each has one.
fn tell<W: Write>(
    values: &[Vec<u8>],
    table: &Table,
    addresses: &[IpAddr],
    out: &mut W,
) -> Result<bool, Stop>
    ensures told { IfOk result
        (λ all. IsTrue all ↔ AllByRecursion (HasValue table.now) addresses.now) }
    ensures printed { OnOk result (Writes (W.contents out.old) (W.contents out.new)
        (SpellsEach (IsValueLine (map (λ v. v.items) values.now) table.now) addresses.now)) }
    ensures failed { IfErr result (λ stop. stop ≡ Unwritable) }
{
    let has_all = match write_values(values, table, addresses, out) {
        Ok(has_all) => has_all,
        Err(_) => return Err(Stop::Unwritable),
    };
    match out.flush() {
        Ok(()) => Ok(has_all),
        Err(_) => Err(Stop::Unwritable),
    }
}

/// Prints the values of some addresses, and returns whether each has one. Where an allocation
/// fails, nothing is written.
fn print_told<W: Write>(
    alloc: Global,
    named: &Named,
    addresses: &[IpAddr],
    out: &mut W,
) -> Result<bool, Stop>
    ensures told { IfOk result
        (λ all. IsTrue all ↔ AllByRecursion (HasValue named.now.table) addresses.now) }
    ensures printed { OnOk result (Writes (W.contents out.old) (W.contents out.new)
        (SpellsEach (IsValueLine (map (value_text Lines) named.now.texts) named.now.table)
        addresses.now)) }
    ensures silent { result ≢ Err Unwritable → OnErr result (out.new ≡ out.old) }
    ensures failed { IfErr result (λ stop. (stop ≡ Memory) ⊎ (stop ≡ Unwritable)) }
{
    let Ok(values) = values_in(alloc, Form::Lines, &named.texts) else {
        return Err(Stop::Memory);
    };
    tell(values.as_slice(), &named.table, addresses, out)
}

/// Reads tables, prints the values that they give to some addresses, a line each, and returns
/// whether each has one.
///
/// A line is as [`write_values`] writes it; `out` is flushed. Nothing is printed where a table
/// cannot be read or an allocation fails. Adds to `left_out` how many bad lines are left out of
/// each table.
pub fn print_values<R: LineRead + Drop, W: Write>(
    alloc: Global,
    tables: Vec<Source<R>>,
    addresses: &[IpAddr],
    asked: Asked<'_>,
    left_out: &mut Vec<u64>,
    out: &mut W,
) -> Result<bool, Stop>
    ensures printed { IfOk result (λ all. (files : List (List ℕ))
        → AreKnown (map (λ s. R.remaining s.reader) tables.items) files
        → (said : List (List Row × ℕ))
        × AreTables asked.entry.reading asked.entry.header.now files said
        × (left_out.new.items ≡ left_out.old.items ++ left_out_of said)
        × AreTold asked.entry (rows_of said) addresses.now all (W.contents out.old)
        (W.contents out.new)) }
    ensures silent { result ≢ Err Unwritable → OnErr result (out.new ≡ out.old) }
    ensures bad { IfErr result (λ stop. (files : List (List ℕ))
        → AreKnown (map (λ s. R.remaining s.reader) tables.items) files
        → IsStop asked.entry.reading asked.entry.header.now (map (λ s. s.name) tables.items) files
        stop) }
    ensures unread { IfErr result (λ stop. IsReadFailure stop → R.fails) }
{
    let named = read_named(alloc, tables, asked, left_out)?;
    print_told(alloc, &named, addresses, out)
}

/// The lines that say how many addresses each value has.
fn counts_of(alloc: Global, named: &Named) -> Result<Vec<u8>, AllocError>
    ensures { IfOk result
        (λ text. AreCounted named.now.table 0 named.now.texts text.items) }
{
    let mut text = Vec::new(alloc);
    match write_value_counts(alloc, &named.texts, &named.table, &mut text) {
        Ok(()) => Ok(text),
        Err(_) => Err(AllocError),
    }
}

fn write_text<W: Write>(text: &[u8], out: &mut W) -> io::Result<()>
    ensures { OnOk result (Appends (W.contents out.old) (W.contents out.new) text.now) }
{
    out.write_all(text)?;
    out.flush()
}

/// Prints how many addresses each value has. Where an allocation fails, nothing is written.
fn print_counts<W: Write>(alloc: Global, named: &Named, out: &mut W) -> Result<(), Stop>
    ensures printed { OnOk result (Writes (W.contents out.old) (W.contents out.new)
        (AreCounted named.now.table 0 named.now.texts)) }
    ensures silent { result ≢ Err Unwritable → OnErr result (out.new ≡ out.old) }
    ensures failed { IfErr result (λ stop. (stop ≡ Memory) ⊎ (stop ≡ Unwritable)) }
{
    let Ok(text) = counts_of(alloc, named) else {
        return Err(Stop::Memory);
    };
    match write_text(text.as_slice(), out) {
        Ok(()) => Ok(()),
        Err(_) => Err(Stop::Unwritable),
    }
}

/// Reads tables, and prints how many addresses of each family have each value, in the order in
/// which the values came.
///
/// There are two lines for each, as `US IPv4 256` and `US IPv6 0`; `out` is flushed. Nothing is
/// printed where a table cannot be read or an allocation fails. Adds to `left_out` how many bad
/// lines are left out of each table. Goes over the table once for each value.
pub fn print_value_counts<R: LineRead + Drop, W: Write>(
    alloc: Global,
    tables: Vec<Source<R>>,
    asked: Asked<'_>,
    left_out: &mut Vec<u64>,
    out: &mut W,
) -> Result<(), Stop>
    ensures printed { OnOk result ((files : List (List ℕ))
        → AreKnown (map (λ s. R.remaining s.reader) tables.items) files
        → (said : List (List Row × ℕ))
        × AreTables asked.entry.reading asked.entry.header.now files said
        × (left_out.new.items ≡ left_out.old.items ++ left_out_of said)
        × Writes (W.contents out.old) (W.contents out.new)
        (AreCountsOf asked.entry (rows_of said))) }
    ensures silent { result ≢ Err Unwritable → OnErr result (out.new ≡ out.old) }
    ensures bad { IfErr result (λ stop. (files : List (List ℕ))
        → AreKnown (map (λ s. R.remaining s.reader) tables.items) files
        → IsStop asked.entry.reading asked.entry.header.now (map (λ s. s.name) tables.items) files
        stop) }
    ensures unread { IfErr result (λ stop. IsReadFailure stop → R.fails) }
{
    let named = read_named(alloc, tables, asked, left_out)?;
    print_counts(alloc, &named, out)
}
