//! Reading a list.

ghost use Rattle.std.specs.Prelude.{◌⊎◌, ◌≡◌, ◌≢◌, ◌++◌, ◌+◌, ◌≤◌, ◌<◌, ◌^◌, List, [], None, Err, Ok, IfErr, IfOk, IfSome, IsOk, OnOk, Some, false, true};
ghost use Rattle.std.specs.Io.{StartsWith};
ghost use Rattle.address_text.specs.declared.line.Line.{Line};
ghost use Rattle.address_lists.specs.Lists.{AreAdded, AreGood, Has, HasJust, IsListed};
ghost use Rattle.address_lists.specs.Waiting.{HasSoFar};
ghost use Rattle.address_lists.specs.Reading.{HasFault, HasFaultFrom, IsBad, IsBadLine, IsFound, IsNextShown, IsSaid, ShowsEach};
ghost use Rattle.address_lists.specs.declared.read.BadLines.TheVariants.{Refused, Skipped};
ghost use Rattle.address_lists.specs.declared.read.Found.TheVariants.{Other};
ghost use Rattle.address_lists.specs.declared.read.ListError.TheVariants.{Memory, Unread};

use crate::addresses::Addresses;
use crate::json::JsonFault;
use crate::spans::Waiting;
use address_text::fault::fault_of;
use address_text::{
    Excerpt, Expected, Line, START_BYTES, commented_start, excerpt_at, is_bad_start, line_of,
};
use line_program::read::{LineRead, ReadError};
use std::alloc::Global;
use std::fmt;

/// Why a list was not read.
#[derive(Debug, Drop)]
pub enum ListError {
    /// A line says nothing that is known.
    BadLine {
        /// The number of the line, from 1.
        line: u64,
        /// The number of the byte where the part begins that is wrong, from 1.
        column: usize,
        /// What was expected there.
        expected: Expected,
        /// What stands there.
        found: Excerpt,
    },
    /// The input cannot be read.
    Unread,
    /// An allocation failed, or there are more lines than a `u64` counts.
    Memory,
    /// The list is JSON, and has this fault.
    Json(JsonFault),
}

impl fmt::Display for ListError {
    fn fmt<W: fmt::Write>(&self, f: &mut fmt::Formatter<W>) -> fmt::Result {
        match self {
            ListError::BadLine {
                line,
                column,
                expected,
                found,
            } => write!(
                f,
                "line {line}, column {column}: expected {expected}, found {found}"
            ),
            ListError::Unread => write!(f, "read error"),
            ListError::Memory => write!(f, "out of memory"),
            ListError::Json(fault) => write!(f, "{fault}"),
        }
    }
}

impl From<ReadError> for ListError {
    ghost from_gives = { λ _ error. (error ≡ Unread) ⊎ (error ≡ Memory) };

    fn from(error: ReadError) -> ListError {
        match error {
            ReadError::Unread => ListError::Unread,
            ReadError::Memory => ListError::Memory,
        }
    }
}

/// What becomes of bad lines, which say nothing that is known.
#[derive(Clone, Copy, PartialEq, Eq, Debug)]
pub enum BadLines {
    /// The first one ends the reading.
    Refused,
    /// They are left out, and counted.
    Skipped,
}

/// What is read of a list next.
#[derive(Clone, Copy)]
enum Found {
    Good(Line),
    Other,
    End,
}

/// What a line of this number says; `None` where that is nothing known, and it is left out.
pub(crate) fn said_by(
    line: &[u8],
    number: u64,
    strict: bool,
    bad_lines: BadLines,
) -> Result<Option<Line>, ListError>
    ensures said { IfOk result (IsSaid strict line.now) }
    ensures refused { bad_lines ≡ Refused → result ≢ Ok None }
    ensures bad { IfErr result (IsBadLine strict line.now number) }
    ensures skipped { bad_lines ≡ Skipped → IsOk result }
{
    if let Some(said) = line_of(line, strict) {
        return Ok(Some(said));
    }
    match bad_lines {
        BadLines::Refused => {
            let fault = fault_of(line);
            Err(ListError::BadLine {
                line: number,
                column: fault.column,
                expected: fault.expected,
                found: excerpt_at(line, fault.column),
            })
        }
        BadLines::Skipped => Ok(None),
    }
}

/// Appends a text.
pub(crate) fn keep(kept: &mut Vec<u8>, text: &[u8]) -> Result<(), ListError>
    ensures kept { OnOk result (kept.new.items ≡ kept.old.items ++ text.now) }
    ensures memory { IfErr result (λ error. error ≡ Memory) }
{
    match kept.extend_from_slice(text) {
        Ok(()) => Ok(()),
        Err(_) => Err(ListError::Memory),
    }
}

/// What tells enough of a line that begins so, whatever comes next: the start of one that is bad,
/// or has its comment sign there. `None` where the whole line is needed.
fn shown_of(start: &[u8]) -> Option<&[u8]>
    ensures first { IfSome result (λ text. StartsWith start.now text.now) }
    ensures shown { IfSome result (λ text. ShowsEach text.now) }
{
    if is_bad_start(start) {
        return Some(start);
    }
    commented_start(start)
}

/// Reads the next line, of one with a long comment, or that is bad whatever comes next, the start
/// alone. Returns whether there was one.
pub(crate) fn next_line<R: LineRead>(line: &mut Vec<u8>, input: &mut R) -> Result<bool, ListError>
    ensures ended { result ≡ Ok false → IfSome (R.remaining input.old)
        (λ bytes. (bytes ≡ []) × (R.remaining input.new ≡ Some [])) }
    ensures read { result ≡ Ok true → IfSome (R.remaining input.old)
        (λ bytes. IsNextShown bytes (R.remaining input.new) line.new.items) }
    ensures reason { IfErr result (λ error. (error ≡ Unread) ⊎ (error ≡ Memory)) }
    ensures unread { result ≡ Err Unread → R.fails }
{
    let mut start = [0; START_BYTES];
    if input.next_bytes(&mut start)?
        && let Some(shown) = shown_of(&start)
    {
        input.skip_line()?;
        line.clear();
        keep(line, shown)?;
        return Ok(true);
    }
    Ok(input.next_line(line)?)
}

/// Reads the next line, of this number.
fn read_line<R: LineRead>(
    buffer: &mut Vec<u8>,
    input: &mut R,
    number: u64,
    strict: bool,
    bad_lines: BadLines,
) -> Result<Found, ListError>
    ensures found { IfOk result (IsFound strict (R.remaining input.old) (R.remaining input.new)) }
    ensures refused { bad_lines ≡ Refused → result ≢ Ok Other }
    ensures bad { IfErr result
        (λ error. IfSome (R.remaining input.old) (λ bytes. IsBad strict bytes number error)) }
    ensures skipped { bad_lines ≡ Skipped
        → IfErr result (λ error. (error ≡ Unread) ⊎ (error ≡ Memory)) }
    ensures unread { result ≡ Err Unread → R.fails }
{
    if !next_line(buffer, input)? {
        return Ok(Found::End);
    }
    match said_by(buffer.as_slice(), number, strict, bad_lines)? {
        Some(line) => Ok(Found::Good(line)),
        None => Ok(Found::Other),
    }
}

/// Reads the lines that are left, of which the first has this number: what they say is added, or
/// waits. Returns how many lines were left out.
pub(crate) fn read_all<R: LineRead>(
    alloc: Global,
    waiting: &mut Waiting,
    list: &mut Addresses,
    input: &mut R,
    first: u64,
    strict: bool,
    bad_lines: BadLines,
) -> Result<u64, ListError>
    requires { 1 ≤ first }
    ensures read { IfOk result (λ others. IfSome (R.remaining input.old) (λ bytes.
        (lines : List Line) × AreGood strict bytes lines others []
        × AreAdded (HasSoFar list.old waiting.old) (HasSoFar list.new waiting.new)
        (λ family n. IsListed family n lines))) }
    ensures all { bad_lines ≡ Refused → IfOk result (λ others. others ≡ 0) }
    ensures few { IfOk result (λ others. others + 1 < 2 ^ 64) }
    ensures bad { IfErr result (λ error. IfSome (R.remaining input.old)
        (λ bytes. HasFaultFrom strict first bytes error)) }
    ensures skipped { bad_lines ≡ Skipped
        → IfErr result (λ error. (error ≡ Unread) ⊎ (error ≡ Memory)) }
    ensures unread { result ≡ Err Unread → R.fails }
{
    let mut buffer = Vec::new(alloc);
    let mut others = 0;
    for number in first..u64::MAX {
        match read_line(&mut buffer, input, number, strict, bad_lines)? {
            Found::Good(line) => waiting.take(list, line)?,
            Found::Other => others += 1,
            Found::End => return Ok(others),
        }
    }
    Err(ListError::Memory)
}

/// Adds the addresses of a list, which is read to its end. Returns how many lines were left out.
///
/// Each line is blank, an address, a prefix `address/length` or a range `first-last`, of either
/// family, with a comment after `#` or without. Where `strict` is set, a prefix whose address has
/// more bits than its length is bad; else these bits are taken for 0. Another bad line says nothing
/// that is known: it is left out, or ends the reading. After an error some addresses are added.
/// `Unread` is answered where a read of the input failed, and nowhere else.
///
/// One buffer holds a line. Of one that begins with more bytes than an address has, and of one whose
/// comment begins within so many, it holds the start alone. Ranges that do not follow each other
/// are sorted before they are added, up to 8 MiB of either family at a time.
///
/// ```
/// let mut list = Addresses::new(rt.alloc());
/// let mut input = "10.0.0.0/8\n".as_bytes();
/// read_list(rt.alloc(), &mut list, &mut input, false, BadLines::Refused)?;
/// ```
pub fn read_list<R: LineRead>(
    alloc: Global,
    list: &mut Addresses,
    input: &mut R,
    strict: bool,
    bad_lines: BadLines,
) -> Result<u64, ListError>
    ensures read { IfOk result (λ others. IfSome (R.remaining input.old) (λ bytes.
        (lines : List Line) × AreGood strict bytes lines others []
        × HasJust list.new (λ family n. Has list.old family n ⊎ IsListed family n lines))) }
    ensures all { bad_lines ≡ Refused → IfOk result (λ others. others ≡ 0) }
    ensures bad { IfErr result
        (λ error. IfSome (R.remaining input.old) (λ bytes. HasFault strict bytes error)) }
    ensures skipped { bad_lines ≡ Skipped
        → IfErr result (λ error. (error ≡ Unread) ⊎ (error ≡ Memory)) }
    ensures unread { result ≡ Err Unread → R.fails }
{
    let mut waiting = Waiting::new(alloc);
    let others = read_all(alloc, &mut waiting, list, input, 1, strict, bad_lines)?;
    waiting.add_all(list)?;
    Ok(others)
}
