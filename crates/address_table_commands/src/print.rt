//! Tables put together and printed.

ghost use Rattle.std.specs.Prelude.{◌≡◌, ◌≢◌, ◌⊎◌, ◌++◌, ◌∷◌, ℕ, List, [], Err, IfErr, IfOk, OnErr, OnOk, map};
ghost use Rattle.address_lists.specs.Files.{IsFile};
ghost use Rattle.address_lists.specs.declared.addresses.Addresses.{Addresses};
ghost use Rattle.address_rows.specs.Rows.{Row};
ghost use Rattle.line_program.specs.Listing.{Writes};
ghost use Rattle.address_table_commands.specs.Files.{AreKnown, AreTables, IsPartStop, IsReadFailure, IsStop, left_out_of, rows_of};
ghost use Rattle.address_table_commands.specs.Results.{ArePrinted, IsPart, IsPartPrinted, IsShapeOf, IsTextOf, defaults_of};
ghost use Rattle.address_table_commands.specs.declared.source.Stop.TheVariants.{Memory, Unwritable};

use crate::source::{Source, Stop, read_list};
use crate::table::{Asked, Named, read_named};
use address_lists::Addresses;
use address_table_lists::{Defaults, Form, PrintError, Shape, Table, Texts, print_table};
use address_text::Family;
use line_program::read::LineRead;
use std::alloc::{AllocError, Global};
use std::io::Write;

/// By what a table is printed.
#[derive(Clone, Copy)]
pub enum Outline<'a> {
    /// By its ranges, each as wide as it goes.
    Ranges,
    /// By prefixes of which no two overlap. No such list is shorter.
    Disjoint,
    /// By prefixes that route each address to its value by the longest one, and an address that has
    /// none to this value, where there is one. No table of prefixes that routes alike is shorter.
    Shortest(Option<&'a str>),
}

/// How a table is printed.
#[derive(Clone, Copy)]
pub struct Output<'a> {
    pub outline: Outline<'a>,
    pub form: Form,
}

/// Which addresses of a table are kept.
#[derive(Clone, Copy, PartialEq, Eq, Debug)]
pub enum Keeping {
    /// Those of the list.
    Only,
    /// Those that the list does not have.
    Without,
}

/// The value of all other addresses, of one family or both.
fn defaults_of(value: u32, only: Option<Family>) -> Defaults
    ensures { result ≡ defaults_of value only }
{
    match only {
        None => Defaults {
            v4: Some(value),
            v6: Some(value),
        },
        Some(Family::V4) => Defaults {
            v4: Some(value),
            v6: None,
        },
        Some(Family::V6) => Defaults {
            v4: None,
            v6: Some(value),
        },
    }
}

/// The shape of this outline. A value that no line has gets a number of its own.
fn shape_of(
    outline: Outline<'_>,
    only: Option<Family>,
    texts: &mut Texts,
) -> Result<Shape, AllocError>
    ensures { IfOk result (IsShapeOf outline.entry only texts.old texts.new) }
{
    match outline {
        Outline::Ranges => Ok(Shape::Ranges),
        Outline::Disjoint => Ok(Shape::Disjoint),
        Outline::Shortest(None) => Ok(Shape::Shortest(Defaults::NONE)),
        Outline::Shortest(Some(value)) => {
            let number = texts.number_of(value)?;
            Ok(Shape::Shortest(defaults_of(number, only)))
        }
    }
}

/// Prints a table. Where an allocation fails, nothing is written.
fn print<W: Write>(
    alloc: Global,
    output: Output<'_>,
    only: Option<Family>,
    texts: &mut Texts,
    table: &Table,
    out: &mut W,
) -> Result<(), Stop>
    ensures printed { OnOk result (Writes (W.contents out.old) (W.contents out.new)
        (IsTextOf output.entry only texts.old table.now)) }
    ensures silent { result ≢ Err Unwritable → OnErr result (out.new ≡ out.old) }
    ensures failed { IfErr result (λ stop. (stop ≡ Memory) ⊎ (stop ≡ Unwritable)) }
{
    let Ok(shape) = shape_of(output.outline, only, texts) else {
        return Err(Stop::Memory);
    };
    match print_table(alloc, shape, output.form, texts, table, out) {
        Ok(()) => {}
        Err(PrintError::Memory) => return Err(Stop::Memory),
        Err(PrintError::Unwritable) => return Err(Stop::Unwritable),
    }
    match out.flush() {
        Ok(()) => Ok(()),
        Err(_) => Err(Stop::Unwritable),
    }
}

/// Reads tables, and prints them as one.
///
/// Those of IPv4 come first, each range or prefix on a line, ascending; `out` is flushed. Nothing
/// is printed where a table cannot be read or an allocation fails. Adds to `left_out` how many bad
/// lines are left out of each table. All lines are held until the table is made, in 12 bytes each
/// for IPv4 and 48 for IPv6.
pub fn print_tables<R: LineRead + Drop, W: Write>(
    alloc: Global,
    tables: Vec<Source<R>>,
    asked: Asked<'_>,
    output: Output<'_>,
    left_out: &mut Vec<u64>,
    out: &mut W,
) -> Result<(), Stop>
    ensures printed { OnOk result ((files : List (List ℕ))
        → AreKnown (map (λ s. R.remaining s.reader) tables.items) files
        → (said : List (List Row × ℕ))
        × AreTables asked.entry.reading asked.entry.header.now files said
        × (left_out.new.items ≡ left_out.old.items ++ left_out_of said)
        × Writes (W.contents out.old) (W.contents out.new)
        (ArePrinted asked.entry output.entry (rows_of said))) }
    ensures silent { result ≢ Err Unwritable → OnErr result (out.new ≡ out.old) }
    ensures bad { IfErr result (λ stop. (files : List (List ℕ))
        → AreKnown (map (λ s. R.remaining s.reader) tables.items) files
        → IsStop asked.entry.reading asked.entry.header.now (map (λ s. s.name) tables.items) files
        stop) }
    ensures unread { IfErr result (λ stop. IsReadFailure stop → R.fails) }
{
    let named = read_named(alloc, tables, asked, left_out)?;
    let Named { mut texts, table } = named;
    print(alloc, output, asked.only, &mut texts, &table, out)
}

/// Keeps what a table says of the addresses of a list, or of all others.
fn keep(keeping: Keeping, table: &mut Table, list: &Addresses) -> Result<(), Stop>
    ensures kept { OnOk result (IsPart keeping table.old list.now table.new) }
    ensures memory { IfErr result (λ stop. stop ≡ Memory) }
{
    let kept = match keeping {
        Keeping::Only => table.keep_only(list),
        Keeping::Without => table.take_out(list),
    };
    match kept {
        Ok(()) => Ok(()),
        Err(_) => Err(Stop::Memory),
    }
}

/// Reads tables and a list, and prints what the tables say of its addresses, or of all others.
///
/// It is printed as by [`print_tables`]. Nothing is printed where a file cannot be read or an
/// allocation fails. Adds to `left_out` how many bad lines are left out of each table, and then of
/// the list.
pub fn print_part<R: LineRead + Drop, W: Write>(
    alloc: Global,
    tables: Vec<Source<R>>,
    keeping: Keeping,
    list: Source<R>,
    asked: Asked<'_>,
    output: Output<'_>,
    left_out: &mut Vec<u64>,
    out: &mut W,
) -> Result<(), Stop>
    ensures printed { OnOk result ((files : List (List ℕ)) → (bytes : List ℕ)
        → AreKnown (map (λ s. R.remaining s.reader) tables.items) files
        → R.remaining list.reader ≡ Some bytes
        → (said : List (List Row × ℕ)) × (kept : Addresses × ℕ)
        × AreTables asked.entry.reading asked.entry.header.now files said
        × IsFile asked.entry.reading.strict asked.entry.reading.bad_lines bytes kept.0 kept.1
        × (left_out.new.items ≡ left_out.old.items ++ left_out_of said ++ kept.1 ∷ [])
        × Writes (W.contents out.old) (W.contents out.new)
        (IsPartPrinted asked.entry output.entry keeping (rows_of said) kept.0)) }
    ensures silent { result ≢ Err Unwritable → OnErr result (out.new ≡ out.old) }
    ensures bad { IfErr result (λ stop. (files : List (List ℕ)) → (bytes : List ℕ)
        → AreKnown (map (λ s. R.remaining s.reader) tables.items) files
        → R.remaining list.reader ≡ Some bytes
        → IsPartStop asked.entry.reading asked.entry.header.now (map (λ s. s.name) tables.items)
        files list.name bytes stop) }
    ensures unread { IfErr result (λ stop. IsReadFailure stop → R.fails) }
{
    let named = read_named(alloc, tables, asked, left_out)?;
    let kept = read_list(alloc, list, asked.reading, left_out)?;
    let Named {
        mut texts,
        mut table,
    } = named;
    keep(keeping, &mut table, &kept)?;
    print(alloc, output, asked.only, &mut texts, &table, out)
}
