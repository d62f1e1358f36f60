//! The table of what files say.

ghost use Rattle.std.specs.Prelude.{◌≡◌, ◌++◌, ℕ, List, IfErr, IfOk, map};
ghost use Rattle.address_rows.specs.Rows.{Row};
ghost use Rattle.address_table_commands.specs.Files.{AreKnown, AreTables, IsReadFailure, IsStop, left_out_of, rows_of};
ghost use Rattle.address_table_commands.specs.Results.{IsMadeFrom, IsTableOf};
ghost use Rattle.address_table_commands.specs.declared.source.Stop.TheVariants.{Memory};

use crate::source::{Source, Stop, read_tables};
use address_table_lists::read::Reading;
use address_table_lists::{Precedence, Rows, Table, Texts, table_of};
use address_text::Family;
use line_program::read::LineRead;
use std::alloc::Global;

/// How tables are read and put together.
#[derive(Clone, Copy)]
pub struct Asked<'a> {
    /// How their lines are read.
    pub reading: Reading,
    /// The name of a column: lines with this first field are left alone. Empty where there is none.
    pub header: &'a str,
    /// Which of the values that lines give to an address it has.
    pub precedence: Precedence,
    /// The family whose addresses alone are taken; `None` for both.
    pub only: Option<Family>,
}

/// A table, and the texts of its values by their numbers.
#[derive(Drop)]
pub(crate) struct Named {
    pub texts: Texts,
    pub table: Table,
}

/// The table of rows, of one family or both.
fn made(
    alloc: Global,
    rows: Rows,
    precedence: Precedence,
    only: Option<Family>,
) -> Result<Named, Stop>
    ensures made { IfOk result
        (λ named. IsMadeFrom precedence only rows named.texts named.table) }
    ensures memory { IfErr result (λ stop. stop ≡ Memory) }
{
    match table_of(alloc, precedence, &rows) {
        Ok(table) => {
            let table = table.of_family(alloc, only);
            let Rows { texts, .. } = rows;
            Ok(Named { texts, table })
        }
        Err(_) => Err(Stop::Memory),
    }
}

/// Reads tables, and puts them together. Adds how many bad lines are left out of each.
pub(crate) fn read_named<R: LineRead + Drop>(
    alloc: Global,
    tables: Vec<Source<R>>,
    asked: Asked<'_>,
    left_out: &mut Vec<u64>,
) -> Result<Named, Stop>
    ensures read { IfOk result (λ named. (files : List (List ℕ))
        → AreKnown (map (λ s. R.remaining s.reader) tables.items) files
        → (said : List (List Row × ℕ)) × AreTables asked.entry.reading asked.entry.header.now files said
        × (left_out.new.items ≡ left_out.old.items ++ left_out_of said)
        × IsTableOf asked.entry (rows_of said) named.texts named.table) }
    ensures bad { IfErr result (λ stop. (files : List (List ℕ))
        → AreKnown (map (λ s. R.remaining s.reader) tables.items) files
        → IsStop asked.entry.reading asked.entry.header.now (map (λ s. s.name) tables.items) files
        stop) }
    ensures unread { IfErr result (λ stop. IsReadFailure stop → R.fails) }
{
    let Asked {
        reading,
        header,
        precedence,
        only,
    } = asked;
    let rows = read_tables(alloc, tables.into_iter(), reading, header, left_out)?;
    made(alloc, rows, precedence, only)
}
