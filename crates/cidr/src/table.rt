//! The commands over tables: addresses with values.

ghost use Rattle.std.specs.Prelude.{◌≡◌, ◌≢◌, ◌++◌, ℕ, List, Err, IfErr, OnErr, OnOk, map};
ghost use Rattle.address_lists.specs.declared.addresses.Addresses.{Addresses};
ghost use Rattle.address_rows.specs.Rows.{Row};
ghost use Rattle.address_table_commands.specs.Files.{AreKnown, AreTables, IsReadFailure, IsStop, left_out_of, rows_of};
ghost use Rattle.address_table_commands.specs.Results.{IsSelectedOf};
ghost use Rattle.address_table_commands.specs.declared.source.Stop.TheVariants.{Unwritable};
ghost use Rattle.line_program.specs.Listing.{Writes};
ghost use Rattle.cidr.specs.Shown.{IsShown};

use crate::inputs::ToldInput;
use crate::serve::{Reading as ListReading, Source as ListSource, Stop as ListStop, print};
use crate::source;
use crate::unanswered::Unanswered;
use address_lines::read_line_addresses;
use address_table_commands::{
    Asked, Extent, Keeping, Outline, Output as TableOutput, Source, Stop, print_differences,
    print_part, print_tables, print_value_counts, print_values, selected,
};
use address_table_lists::Precedence;
use address_table_lists::read::Reading;
use cidr_arguments::{Output, Sought, TableRequest, TableShape, TableTask};
use line_program::read::LineRead;
use std::alloc::Global;
use std::io::{BufReader, Write};

/// How tables are read.
fn asked_of<'a>(request: &TableRequest<'a>, lists: ListReading) -> Asked<'a> {
    Asked {
        reading: Reading {
            layout: request.layout,
            strict: lists.strict,
            bad_lines: lists.bad_lines,
        },
        header: request.header,
        precedence: if request.is_by_longest {
            Precedence::Longest
        } else {
            Precedence::Last
        },
        only: request.only,
    }
}

/// How they are printed.
fn output_of<'a>(request: &TableRequest<'a>) -> TableOutput<'a> {
    TableOutput {
        outline: match request.shape {
            TableShape::Ranges => Outline::Ranges,
            TableShape::Disjoint => Outline::Disjoint,
            TableShape::Shortest(default) => Outline::Shortest(default),
        },
        form: request.form,
    }
}

/// A table or a list that is read from a file, or from standard input.
type Table<'a> = Source<BufReader<ToldInput<'a>>>;

/// The table or list of this name; `-` is standard input.
fn table<'a>(rt: &'a HostRuntime, name: &'a str) -> anyhow::Result<Table<'a>> {
    let ListSource { name, reader } = source(rt, name)?;
    Ok(Source { name, reader })
}

fn tables<'a>(rt: &'a HostRuntime, names: &[&'a str]) -> anyhow::Result<Vec<Table<'a>>> {
    let mut tables = Vec::new(rt.alloc());
    for name in names {
        tables.push(table(rt, name)?)?;
    }
    Ok(tables)
}

/// Reads tables, and prints the addresses that have one of these values, as a list.
///
/// `out` is flushed. Nothing is printed where a table cannot be read or an allocation fails. Adds
/// to `left_out` how many bad lines are left out of each table.
fn print_selected<R: LineRead + Drop, W: Write>(
    alloc: Global,
    tables: Vec<Source<R>>,
    values: &[&str],
    asked: Asked<'_>,
    output: &Output<'_>,
    left_out: &mut Vec<u64>,
    out: &mut W,
) -> Result<(), Stop>
    ensures printed { OnOk result ((files : List (List ℕ))
        → AreKnown (map (λ s. R.remaining s.reader) tables.items) files
        → (said : List (List Row × ℕ)) × (list : Addresses)
        × AreTables asked.entry.reading asked.entry.header.now files said
        × (left_out.new.items ≡ left_out.old.items ++ left_out_of said)
        × IsSelectedOf asked.entry (map (λ v. v.now) values.now) (rows_of said) list
        × Writes (W.contents out.old) (W.contents out.new)
        (IsShown output.now.form output.now.only list)) }
    ensures silent { result ≢ Err Unwritable → OnErr result (out.new ≡ out.old) }
    ensures bad { IfErr result (λ stop. (files : List (List ℕ))
        → AreKnown (map (λ s. R.remaining s.reader) tables.items) files
        → IsStop asked.entry.reading asked.entry.header.now (map (λ s. s.name) tables.items) files
        stop) }
    ensures unread { IfErr result (λ stop. IsReadFailure stop → R.fails) }
{
    let list = selected(alloc, tables, values, asked, left_out)?;
    match print(alloc, output, &list, out) {
        Ok(()) => Ok(()),
        Err(ListStop::Unwritable) => Err(Stop::Unwritable),
        Err(ListStop::Memory) => Err(Stop::Memory),
        // No list is read here, so that none is bad.
        Err(ListStop::Bad(_, _)) => Err(Stop::Memory),
    }
}

/// Prints the values of the addresses of the arguments, or of the lines of standard input.
fn get<W: Write>(
    rt: &HostRuntime,
    tables: Vec<Table<'_>>,
    sought: &Sought,
    asked: Asked<'_>,
    left_out: &mut Vec<u64>,
    out: &mut W,
) -> Result<bool, Unanswered> {
    let alloc = rt.alloc();
    let Source { name, mut reader } = match sought {
        Sought::These(addresses) => {
            let addresses = addresses.as_slice();
            return Ok(print_values(alloc, tables, addresses, asked, left_out, out)?);
        }
        Sought::Lines => table(rt, "-")?,
    };
    match read_line_addresses(alloc, &mut reader) {
        Ok(addresses) => {
            let addresses = addresses.as_slice();
            Ok(print_values(alloc, tables, addresses, asked, left_out, out)?)
        }
        Err(error) => Err(Unanswered::Stopped(ListStop::Bad(name, error))),
    }
}

/// Prints where the last table differs from the others, and returns whether they are alike.
fn compare<W: Write>(
    alloc: Global,
    mut tables: Vec<Table<'_>>,
    extent: Extent,
    asked: Asked<'_>,
    left_out: &mut Vec<u64>,
    out: &mut W,
) -> Result<bool, Stop> {
    let mut after = Vec::new(alloc);
    if let Some(last) = tables.pop() {
        if after.push(last).is_err() {
            return Err(Stop::Memory);
        }
    }
    print_differences(alloc, tables, after, extent, asked, left_out, out)
}

/// Does what is asked of tables, and returns whether each address that is looked up has a value, or
/// two tables are alike. Adds how many bad lines are left out of each file.
pub fn answer_tables<W: Write>(
    rt: &HostRuntime,
    request: &TableRequest<'_>,
    lists: ListReading,
    left_out: &mut Vec<u64>,
    out: &mut W,
) -> Result<bool, Unanswered> {
    let alloc = rt.alloc();
    let asked = asked_of(request, lists);
    let output = output_of(request);
    let tables = tables(rt, request.tables.as_slice())?;
    match &request.task {
        TableTask::Print => print_tables(alloc, tables, asked, output, left_out, out)?,
        TableTask::Only(list) => {
            let list = table(rt, list)?;
            print_part(
                alloc,
                tables,
                Keeping::Only,
                list,
                asked,
                output,
                left_out,
                out,
            )?
        }
        TableTask::Without(list) => {
            let list = table(rt, list)?;
            print_part(
                alloc,
                tables,
                Keeping::Without,
                list,
                asked,
                output,
                left_out,
                out,
            )?
        }
        TableTask::Select(values, output) => print_selected(
            alloc,
            tables,
            values.as_slice(),
            asked,
            output,
            left_out,
            out,
        )?,
        TableTask::Values => print_value_counts(alloc, tables, asked, left_out, out)?,
        TableTask::Check => {
            return Ok(compare(alloc, tables, Extent::First, asked, left_out, out)?);
        }
        TableTask::Diff => {
            return Ok(compare(alloc, tables, Extent::All, asked, left_out, out)?);
        }
        TableTask::Get(sought) => return get(rt, tables, sought, asked, left_out, out),
    }
    Ok(true)
}
