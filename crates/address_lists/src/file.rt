//! Reading a list of either form: lines, or JSON.

ghost use Rattle.std.specs.Prelude.{◌≡◌, ◌⊎◌, ◌++◌, ◌+◌, ◌≤◌, ◌<◌, ◌^◌, ℕ, List, Err, IfErr, IfOk, IfSome, OnOk, false};
ghost use Rattle.address_lists.specs.Files.{IsAdded, IsAddedAs, IsFile, IsFileReason, IsFirstLine, IsReadAs, IsStart, mark};
ghost use Rattle.address_lists.specs.Json.{IsDocument, IsJsonReason};
ghost use Rattle.address_lists.specs.Lists.{Has, HasJust};
ghost use Rattle.address_lists.specs.Reading.{HasFaultFrom, IsBadLine, IsTakenIn};
ghost use Rattle.address_lists.specs.Waiting.{HasSoFar};
ghost use Rattle.address_lists.specs.declared.addresses.Addresses.{Addresses};
ghost use Rattle.address_lists.specs.declared.read.BadLines.TheVariants.{Refused, Skipped};
ghost use Rattle.address_lists.specs.declared.read.ListError.TheVariants.{Memory, Unread};

use crate::addresses::Addresses;
use crate::json::read_json_after;
use crate::read::{BadLines, ListError, keep, next_line, read_all, said_by};
use crate::spans::Waiting;
use line_program::read::LineRead;
use std::alloc::Global;

/// How a list begins that is not blank throughout.
#[derive(Drop)]
struct Start {
    /// The blank lines at its start.
    blanks: Vec<u8>,
    /// The first line that is not blank.
    line: Vec<u8>,
    /// The number of that line, from 1.
    number: u64,
    /// Its first byte that JSON does not take for white space.
    mark: u8,
}

/// The first byte that JSON does not take for white space.
fn mark_of(text: &[u8]) -> Option<u8>
    ensures { result ≡ mark text.now }
{
    text.iter()
        .copied()
        .find(|byte| !matches!(byte, b' ' | b'\t' | b'\n' | b'\r'))
}

/// Reads up to the first line that is not blank. `None` where there is none.
fn start_of<R: LineRead>(alloc: Global, input: &mut R) -> Result<Option<Start>, ListError>
    ensures found { IfOk result (λ start. IfSome (R.remaining input.old)
        (λ bytes. IsStart bytes start (R.remaining input.new))) }
    ensures few { IfOk result (λ start. IfSome start (λ it. it.number + 1 < 2 ^ 64)) }
    ensures reason { IfErr result (λ error. (error ≡ Unread) ⊎ (error ≡ Memory)) }
    ensures unread { result ≡ Err Unread → R.fails }
{
    let mut blanks = Vec::new(alloc);
    let mut line = Vec::new(alloc);
    for number in 1..u64::MAX {
        if !next_line(&mut line, input)? {
            return Ok(None);
        }
        if let Some(mark) = mark_of(line.as_slice()) {
            return Ok(Some(Start {
                blanks,
                line,
                number,
                mark,
            }));
        }
        keep(&mut blanks, line.as_slice())?;
    }
    Err(ListError::Memory)
}

/// The text of a list as far as it is read.
fn text_of(start: Start) -> Result<Vec<u8>, ListError>
    ensures text { IfOk result (λ text. text.items ≡ start.blanks.items ++ start.line.items) }
    ensures memory { IfErr result (λ error. error ≡ Memory) }
{
    let Start {
        mut blanks,
        line,
        ..
    } = start;
    if blanks.is_empty() {
        return Ok(line);
    }
    keep(&mut blanks, line.as_slice())?;
    Ok(blanks)
}

/// Takes in the first line. Returns how many lines were left out.
fn take_first(
    waiting: &mut Waiting,
    list: &mut Addresses,
    line: &[u8],
    number: u64,
    strict: bool,
    bad_lines: BadLines,
) -> Result<u64, ListError>
    ensures taken { IfOk result (IsTakenIn strict line.now (HasSoFar list.old waiting.old)
        (HasSoFar list.new waiting.new)) }
    ensures few { IfOk result (λ others. others ≤ 1) }
    ensures all { bad_lines ≡ Refused → IfOk result (λ others. others ≡ 0) }
    ensures bad { IfErr result
        (λ error. (error ≡ Memory) ⊎ IsBadLine strict line.now number error) }
    ensures skipped { bad_lines ≡ Skipped → IfErr result (λ error. error ≡ Memory) }
{
    match said_by(line, number, strict, bad_lines)? {
        Some(said) => {
            waiting.take(list, said)?;
            Ok(0)
        }
        None => Ok(1),
    }
}

/// Reads a list of lines that begins so: what they say is added, or waits. Returns how many lines
/// were left out.
fn take_lines<R: LineRead>(
    alloc: Global,
    waiting: &mut Waiting,
    list: &mut Addresses,
    start: &Start,
    input: &mut R,
    strict: bool,
    bad_lines: BadLines,
) -> Result<u64, ListError>
    requires { start.now.number + 1 < 2 ^ 64 }
    ensures read { (bytes : List ℕ)
        → IsFirstLine bytes start.now.line.items (R.remaining input.old)
        → IfOk result (IsAddedAs strict false bad_lines bytes
        (HasSoFar list.old waiting.old) (HasSoFar list.new waiting.new)) }
    ensures bad { (bytes : List ℕ)
        → IsFirstLine bytes start.now.line.items (R.remaining input.old)
        → IfErr result (HasFaultFrom strict start.now.number bytes) }
    ensures skipped { bad_lines ≡ Skipped
        → IfErr result (λ error. (error ≡ Unread) ⊎ (error ≡ Memory)) }
    ensures unread { result ≡ Err Unread → R.fails }
{
    let line = start.line.as_slice();
    let number = start.number;
    let left_out = take_first(waiting, list, line, number, strict, bad_lines)?;
    let others = read_all(alloc, waiting, list, input, number + 1, strict, bad_lines)?;
    Ok(left_out + others)
}

/// Reads a list of lines that begins so.
fn read_lines<R: LineRead>(
    alloc: Global,
    start: &Start,
    input: &mut R,
    strict: bool,
    bad_lines: BadLines,
) -> Result<(Addresses, u64), ListError>
    requires { start.now.number + 1 < 2 ^ 64 }
    ensures read { (bytes : List ℕ)
        → IsFirstLine bytes start.now.line.items (R.remaining input.old)
        → IfOk result (λ found. IsReadAs strict false bad_lines bytes found.0 found.1) }
    ensures bad { (bytes : List ℕ)
        → IsFirstLine bytes start.now.line.items (R.remaining input.old)
        → IfErr result (HasFaultFrom strict start.now.number bytes) }
    ensures skipped { bad_lines ≡ Skipped
        → IfErr result (λ error. (error ≡ Unread) ⊎ (error ≡ Memory)) }
    ensures unread { result ≡ Err Unread → R.fails }
{
    let mut list = Addresses::new(alloc);
    let mut waiting = Waiting::new(alloc);
    let others = take_lines(
        alloc,
        &mut waiting,
        &mut list,
        start,
        input,
        strict,
        bad_lines,
    )?;
    waiting.add_all(&mut list)?;
    Ok((list, others))
}

/// Adds the addresses that JSON says, which begins with this text.
fn add_json<R: LineRead>(
    alloc: Global,
    list: &mut Addresses,
    text: Vec<u8>,
    input: &mut R,
) -> Result<(), ListError>
    ensures added { OnOk result (IfSome (R.remaining input.old) (λ more. (other : Addresses)
        × IsDocument (text.items ++ more) other
        × HasJust list.new (λ family n. Has list.old family n ⊎ Has other family n))) }
    ensures fault { IfErr result (λ error. IfSome (R.remaining input.old)
        (λ more. IsJsonReason (text.items ++ more) error)) }
    ensures unread { result ≡ Err Unread → R.fails }
{
    let other = read_json_after(alloc, text, input)?;
    match list.join(&other) {
        Ok(()) => Ok(()),
        Err(_) => Err(ListError::Memory),
    }
}

/// Reads a list to its end as [`read_addresses`] does: its addresses are added, or wait. Returns
/// how many lines are left out.
///
/// So what several lists say is sorted together, and added once: by `waiting.add_all(&mut list)`
/// after the last. After an error some addresses are added, or wait.
pub fn gather_addresses<R: LineRead>(
    alloc: Global,
    waiting: &mut Waiting,
    list: &mut Addresses,
    input: &mut R,
    strict: bool,
    bad_lines: BadLines,
) -> Result<u64, ListError>
    ensures read { IfOk result (λ others. IfSome (R.remaining input.old)
        (λ bytes. IsAdded strict bad_lines bytes (HasSoFar list.old waiting.old)
        (HasSoFar list.new waiting.new) others)) }
    ensures fault { IfErr result (λ error. IfSome (R.remaining input.old)
        (λ bytes. IsFileReason strict bad_lines bytes error)) }
    ensures unread { result ≡ Err Unread → R.fails }
{
    let Some(start) = start_of(alloc, input)? else {
        return Ok(0);
    };
    if start.mark == b'{' {
        let text = text_of(start)?;
        add_json(alloc, list, text, input)?;
        return Ok(0);
    }
    take_lines(alloc, waiting, list, &start, input, strict, bad_lines)
}

/// The addresses of a list, which is read to its end, and how many lines are left out.
///
/// A list whose first byte that is no white space is `{` is JSON, as
/// [`list_to_text`](crate::list_to_text) writes it, and is held in memory. Blank lines at the start
/// of any list are held too. Of any other the lines are read as by [`read_list`](crate::read_list).
pub fn read_addresses<R: LineRead>(
    alloc: Global,
    input: &mut R,
    strict: bool,
    bad_lines: BadLines,
) -> Result<(Addresses, u64), ListError>
    ensures read { IfOk result (λ found. IfSome (R.remaining input.old)
        (λ bytes. IsFile strict bad_lines bytes found.0 found.1)) }
    ensures fault { IfErr result (λ error. IfSome (R.remaining input.old)
        (λ bytes. IsFileReason strict bad_lines bytes error)) }
    ensures unread { result ≡ Err Unread → R.fails }
{
    let Some(start) = start_of(alloc, input)? else {
        return Ok((Addresses::new(alloc), 0));
    };
    if start.mark == b'{' {
        let text = text_of(start)?;
        return Ok((read_json_after(alloc, text, input)?, 0));
    }
    read_lines(alloc, &start, input, strict, bad_lines)
}
