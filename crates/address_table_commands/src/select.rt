//! The addresses of some values.

ghost use Rattle.std.specs.Prelude.{◌≡◌, ◌++◌, ◌<◌, ◌≤◌, ℕ, List, IfErr, IfOk, OnOk, map};
ghost use Rattle.address_rows.specs.Rows.{Row};
ghost use Rattle.address_table_commands.specs.Files.{AreKnown, AreTables, IsReadFailure, IsStop, left_out_of, rows_of};
ghost use Rattle.address_table_commands.specs.Results.{AreMoreTexts, AreNumbers, IsSelectedIn, IsSelectedOf};
ghost use Rattle.address_table_commands.specs.declared.source.Stop.TheVariants.{Memory};

use crate::source::{Source, Stop};
use crate::table::{Asked, Named, read_named};
use address_lists::Addresses;
use address_table_lists::Texts;
use address_table_lists::parts::select;
use line_program::read::LineRead;
use std::alloc::{AllocError, Global};

/// The numbers of the values that are these texts. One that no line has gets a number of its own.
fn numbers_of(alloc: Global, texts: &mut Texts, values: &[&str]) -> Result<Vec<u32>, AllocError>
    ensures more { OnOk result (AreMoreTexts texts.old texts.new) }
    ensures numbers { IfOk result
        (λ numbers. AreNumbers texts.new (map (λ v. v.now) values.now) numbers.items) }
{
    let mut numbers = Vec::new(alloc);
    for value in values {
        numbers.push(texts.number_of(value)?)?;
    }
    Ok(numbers)
}

/// The addresses of a table that have one of these values.
fn select_values(alloc: Global, named: Named, values: &[&str]) -> Result<Addresses, Stop>
    ensures selected { IfOk result
        (IsSelectedIn named.texts named.table (map (λ v. v.now) values.now)) }
    ensures memory { IfErr result (λ stop. stop ≡ Memory) }
{
    let Named { mut texts, table } = named;
    let Ok(numbers) = numbers_of(alloc, &mut texts, values) else {
        return Err(Stop::Memory);
    };
    match select(alloc, &table, numbers.as_slice()) {
        Ok(list) => Ok(list),
        Err(_) => Err(Stop::Memory),
    }
}

/// Reads tables, and returns the addresses that have one of these values.
///
/// Fails where a table cannot be read or an allocation fails. Adds to `left_out` how many bad lines
/// are left out of each table. Costs a comparison with each value for each range of the table.
pub fn selected<R: LineRead + Drop>(
    alloc: Global,
    tables: Vec<Source<R>>,
    values: &[&str],
    asked: Asked<'_>,
    left_out: &mut Vec<u64>,
) -> Result<Addresses, Stop>
    ensures selected { IfOk result (λ list. (files : List (List ℕ))
        → AreKnown (map (λ s. R.remaining s.reader) tables.items) files
        → (said : List (List Row × ℕ))
        × AreTables asked.entry.reading asked.entry.header.now files said
        × (left_out.new.items ≡ left_out.old.items ++ left_out_of said)
        × IsSelectedOf asked.entry (map (λ v. v.now) values.now) (rows_of said) list) }
    ensures bad { IfErr result (λ stop. (files : List (List ℕ))
        → AreKnown (map (λ s. R.remaining s.reader) tables.items) files
        → IsStop asked.entry.reading asked.entry.header.now (map (λ s. s.name) tables.items) files
        stop) }
    ensures unread { IfErr result (λ stop. IsReadFailure stop → R.fails) }
{
    let named = read_named(alloc, tables, asked, left_out)?;
    select_values(alloc, named, values)
}
