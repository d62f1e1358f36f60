//! Reading a table.

ghost use Rattle.std.specs.Prelude.{◌≡◌, ◌≢◌, ◌⊎◌, ℕ, List, [], Err, Ok, IfErr, IfOk, IfSome, OnOk, option_map};
ghost use Rattle.address_text.specs.Lines.{AreAddresses, trimmed};
ghost use Rattle.address_text.specs.declared.line.Line.{Line};
ghost use Rattle.address_lists.specs.declared.read.BadLines.TheVariants.{Refused, Skipped};
ghost use Rattle.address_rows.specs.Lines.{IsDecimalRow, IsRow, IsSkipped, SaysFields, SaysRecord, SaysRow};
ghost use Rattle.address_table_lists.specs.Reading.{AreRead, HasRowFault, IsAddedIf, IsBadOf, IsBadRow, IsFound, SaysIn};
ghost use Rattle.address_rows.specs.Rows.{Row};
ghost use Rattle.address_table_lists.specs.Rows.{HoldMore};
ghost use Rattle.address_table_lists.specs.declared.read.Found.TheVariants.{Other};
ghost use Rattle.address_table_lists.specs.declared.read.TableError.TheVariants.{Memory, Unread};

use crate::rows::Rows;
use address_lists::BadLines;
use address_rows::line::{
    Layout, RowFault, Wrong, decimal_row_of, is_skipped, pair_of, record_of, row_of_parts,
    split_word, trimmed_of, wrong_of,
};
use address_text::{Excerpt, Line, content_of, excerpt_at};
use line_program::read::{LineRead, ReadError};
use std::alloc::{AllocError, Global};
use std::fmt;

/// Why a table was not read.
#[derive(Debug, Drop)]
pub enum TableError {
    /// A line says nothing that is known.
    BadLine {
        /// The number of the line, from 1.
        line: u64,
        /// The number of the byte where the part begins that is wrong, from 1.
        column: usize,
        /// What was expected there.
        expected: RowFault,
        /// What stands there.
        found: Excerpt,
    },
    /// The input cannot be read.
    Unread,
    /// An allocation failed, or there are more lines than a `u64` counts.
    Memory,
}

impl From<ReadError> for TableError {
    ghost from_gives = { λ _ error. (error ≡ Unread) ⊎ (error ≡ Memory) };

    fn from(error: ReadError) -> TableError {
        match error {
            ReadError::Unread => TableError::Unread,
            ReadError::Memory => TableError::Memory,
        }
    }
}

impl fmt::Display for TableError {
    fn fmt<W: fmt::Write>(&self, f: &mut fmt::Formatter<W>) -> fmt::Result {
        match self {
            TableError::BadLine {
                line,
                column,
                expected,
                found,
            } => write!(
                f,
                "line {line}, column {column}: expected {expected}, found {found}"
            ),
            TableError::Unread => write!(f, "read error"),
            TableError::Memory => write!(f, "out of memory"),
        }
    }
}

/// How the lines of a table are read.
#[derive(Clone, Copy)]
pub struct Reading {
    pub layout: Layout,
    /// Whether a prefix whose address has bits of 1 after its length is bad.
    pub strict: bool,
    pub bad_lines: BadLines,
}

/// Adds what two parts of a line say, the addresses and their value. Returns whether they do.
fn add_parts(
    rows: &mut Rows,
    addresses: &[u8],
    value: &[u8],
    strict: bool,
) -> Result<bool, AllocError>
    ensures { IfOk result (IsAddedIf (IsRow strict addresses.now value.now) rows.old rows.new) }
{
    match row_of_parts(addresses, value, strict) {
        Some((line, text)) => {
            rows.add(line, text)?;
            Ok(true)
        }
        None => Ok(false),
    }
}

/// Adds what a text with quotes says. Returns whether it says a row.
fn add_record(alloc: Global, rows: &mut Rows, text: &[u8], strict: bool) -> Result<bool, AllocError>
    ensures { IfOk result (IsAddedIf (SaysRecord strict text.now) rows.old rows.new) }
{
    let Some(record) = record_of(alloc, text)? else {
        return Ok(false);
    };
    match pair_of(&record) {
        Some((addresses, value)) => add_parts(rows, addresses, value, strict),
        None => Ok(false),
    }
}

/// Adds what a text with two fields says. Returns whether it says a row.
fn add_fields(alloc: Global, rows: &mut Rows, text: &str, strict: bool) -> Result<bool, AllocError>
    ensures { IfOk result (IsAddedIf (SaysFields strict text.now) rows.old rows.new) }
{
    if text.split_once('"').is_some() {
        return add_record(alloc, rows, text.as_bytes(), strict);
    }
    match text.split_once(',') {
        Some((addresses, value)) if value.split_once(',').is_none() => {
            add_parts(rows, addresses.as_bytes(), value.as_bytes(), strict)
        }
        _ => Ok(false),
    }
}

/// Adds what a text with two addresses and a value says. Returns whether it says a row.
fn add_decimal(rows: &mut Rows, text: &str) -> Result<bool, AllocError>
    ensures { IfOk result (IsAddedIf (IsDecimalRow text.now) rows.old rows.new) }
{
    match decimal_row_of(text) {
        Some((line, value)) => {
            rows.add(line, value)?;
            Ok(true)
        }
        None => Ok(false),
    }
}

/// Adds what a line says in a layout. Returns whether it says a row.
fn add_line(
    alloc: Global,
    rows: &mut Rows,
    line: &[u8],
    layout: Layout,
    strict: bool,
) -> Result<bool, AllocError>
    ensures { IfOk result (IsAddedIf (SaysRow layout strict line.now) rows.old rows.new) }
{
    match layout {
        Layout::Lines => {
            let (word, rest) = split_word(content_of(line));
            add_parts(rows, word, rest, strict)
        }
        Layout::Csv => match str::from_utf8(trimmed_of(line)) {
            Ok(text) => add_fields(alloc, rows, text, strict),
            Err(_) => Ok(false),
        },
        Layout::Decimal => match str::from_utf8(trimmed_of(line)) {
            Ok(text) => add_decimal(rows, text),
            Err(_) => Ok(false),
        },
    }
}

/// What is read of a table next.
#[derive(Clone, Copy)]
enum Found {
    /// A row, which is added.
    Said,
    /// A line that is left alone.
    Nothing,
    /// A line that says nothing that is known.
    Other,
    End,
}

/// Why a line of this number is bad.
fn bad_line(line: &[u8], number: u64, layout: Layout, strict: bool) -> TableError
    ensures { IsBadOf number result }
{
    let Wrong { column, expected } = wrong_of(line, layout, strict);
    let column = column.clamp(1, line.len() + 1);
    TableError::BadLine {
        line: number,
        column,
        expected,
        found: excerpt_at(line, column),
    }
}

/// Reads the next line, of this number, and adds what it says.
fn read_row<R: LineRead>(
    alloc: Global,
    buffer: &mut Vec<u8>,
    rows: &mut Rows,
    input: &mut R,
    number: u64,
    reading: Reading,
    header: &str,
) -> Result<Found, TableError>
    ensures found { IfOk result (IsFound (SaysIn reading) (IsSkipped header.now)
        (R.remaining input.old) (R.remaining input.new) rows.old rows.new) }
    ensures refused { reading.bad_lines ≡ Refused → result ≢ Ok Other }
    ensures bad { IfErr result (λ error. IfSome (R.remaining input.old)
        (λ bytes. IsBadRow (SaysIn reading) (IsSkipped header.now) bytes number error)) }
    ensures skipped { reading.bad_lines ≡ Skipped
        → IfErr result (λ error. (error ≡ Unread) ⊎ (error ≡ Memory)) }
    ensures unread { result ≡ Err Unread → R.fails }
{
    match input.next_line(buffer) {
        Ok(true) => {}
        Ok(false) => return Ok(Found::End),
        Err(error) => return Err(TableError::from(error)),
    }
    let line = buffer.as_slice();
    if is_skipped(line, header) {
        return Ok(Found::Nothing);
    }
    match (
        add_line(alloc, rows, line, reading.layout, reading.strict),
        reading.bad_lines,
    ) {
        (Ok(true), _) => Ok(Found::Said),
        (Ok(false), BadLines::Skipped) => Ok(Found::Other),
        (Ok(false), BadLines::Refused) => {
            Err(bad_line(line, number, reading.layout, reading.strict))
        }
        (Err(_), _) => Err(TableError::Memory),
    }
}

/// Adds what the lines of a table say, which is read to its end. Returns how many bad lines were
/// left out.
///
/// A line is left alone that is blank, a comment, or one whose first field is the name of a column. Another bad line says nothing that is known: it is left out, or ends the reading.
/// After an error some rows are added. `Unread` is answered where a read of the input failed, and
/// nowhere else. One buffer holds a line, and each value that is new is copied.
pub fn read_rows<R: LineRead>(
    alloc: Global,
    rows: &mut Rows,
    input: &mut R,
    reading: Reading,
    header: &str,
) -> Result<u64, TableError>
    ensures read { IfOk result (λ others. IfSome (R.remaining input.old) (λ bytes.
        (said : List Row) × (skipped : ℕ)
        × AreRead (SaysIn reading) (IsSkipped header.now) bytes said skipped others []
        × HoldMore rows.old rows.new said)) }
    ensures all { reading.bad_lines ≡ Refused → IfOk result (λ others. others ≡ 0) }
    ensures bad { IfErr result (λ error. IfSome (R.remaining input.old)
        (λ bytes. HasRowFault (SaysIn reading) (IsSkipped header.now) bytes error)) }
    ensures skipped { reading.bad_lines ≡ Skipped
        → IfErr result (λ error. (error ≡ Unread) ⊎ (error ≡ Memory)) }
    ensures unread { result ≡ Err Unread → R.fails }
{
    let mut buffer = Vec::new(alloc);
    let mut others = 0;
    for number in 1..u64::MAX {
        match read_row(alloc, &mut buffer, rows, input, number, reading, header)? {
            Found::Said => {}
            Found::Nothing => {}
            Found::Other => others += 1,
            Found::End => return Ok(others),
        }
    }
    Err(TableError::Memory)
}
