//! The lines of a text that hold an address of a list.

ghost use Rattle.std.specs.Prelude.{◌≡◌, ◌≢◌, ◌⊎◌, ◌↔◌, ℕ, List, [], Err, if◌then◌else◌, IfErr, IfOk, IfSome, IsTrue, OnOk, length};
ghost use Rattle.std.specs.Io.BufRead.{strip_last};
ghost use Rattle.std.specs.Io.KnownBytes.{Appends};
ghost use Rattle.address_lists.specs.declared.read.ListError.TheVariants.{Memory, Unread};
ghost use Rattle.address_lines.specs.Found.{AreAllFound, AreFound, AreFoundSoFar, IsSought, count_text, ended, line_text, lines_text};
ghost use Rattle.address_lines.specs.declared.sought.Halt.TheVariants.{Bad, Unwritable};

use crate::sought::Halt;
use crate::words::holds_address;
use address_lists::{Addresses, ListError};
use line_program::read::LineRead;
use std::alloc::Global;
use std::io::{self, Write};

/// What is written of the lines that are found.
#[derive(Clone, Copy, PartialEq, Eq, Debug)]
pub enum Showing {
    /// They themselves.
    Lines,
    /// Each with its number and a colon before it.
    Numbered,
    /// How many there are.
    Count,
}

/// Which lines are sought, and what is written of them.
#[derive(Clone, Copy)]
pub struct Search {
    /// All lines that hold no address of the list.
    pub is_inverted: bool,
    pub showing: Showing,
}

/// Whether a line is sought.
fn is_sought(list: &Addresses, line: &[u8], is_inverted: bool) -> bool
    ensures { IsTrue result ↔ IsSought list.now is_inverted line.now }
{
    if is_inverted {
        !holds_address(list, line)
    } else {
        holds_address(list, line)
    }
}

/// A line without its end.
fn without_end(line: &[u8]) -> &[u8]
    ensures { result.now ≡ strip_last 10 line.now }
{
    line.strip_suffix(b"\n").unwrap_or(line)
}

/// Writes a line with an end, also where it has none.
fn write_ended<W: Write>(line: &[u8], out: &mut W) -> io::Result<()>
    ensures { OnOk result (Appends (W.contents out.old) (W.contents out.new) (ended line.now)) }
{
    out.write_all(without_end(line))?;
    out.write_all(b"\n")
}

/// Writes what is shown of a line that is found.
fn write_line<W: Write>(
    showing: Showing,
    before: &str,
    number: u64,
    line: &[u8],
    out: &mut W,
) -> io::Result<()>
    ensures { OnOk result (Appends (W.contents out.old) (W.contents out.new)
        (line_text showing before.now (number, line.now))) }
{
    match showing {
        Showing::Lines => {
            out.write_all(before.as_bytes())?;
            write_ended(line, out)
        }
        Showing::Numbered => {
            write!(out, "{before}{number}:")?;
            write_ended(line, out)
        }
        Showing::Count => Ok(()),
    }
}

fn write_count<W: Write>(showing: Showing, before: &str, count: u64, out: &mut W) -> io::Result<()>
    ensures { OnOk result (Appends (W.contents out.old) (W.contents out.new)
        (count_text showing before.now count)) }
{
    match showing {
        Showing::Lines | Showing::Numbered => Ok(()),
        Showing::Count => writeln!(out, "{before}{count}"),
    }
}

/// Writes what is shown of a line where it is sought, and returns whether it is.
fn search_line<W: Write>(
    list: &Addresses,
    search: Search,
    before: &str,
    number: u64,
    line: &[u8],
    out: &mut W,
) -> io::Result<bool>
    ensures found { IfOk result
        (λ found. IsTrue found ↔ IsSought list.now search.is_inverted line.now) }
    ensures written { IfOk result (λ found. Appends (W.contents out.old) (W.contents out.new)
        (if found then line_text search.showing before.now (number, line.now) else [])) }
{
    if !is_sought(list, line, search.is_inverted) {
        return Ok(false);
    }
    write_line(search.showing, before, number, line, out)?;
    Ok(true)
}

/// Writes what is shown of each line that is sought, and returns how many are.
fn search_lines<R: LineRead, W: Write>(
    buffer: &mut Vec<u8>,
    list: &Addresses,
    search: Search,
    before: &str,
    input: &mut R,
    out: &mut W,
) -> Result<u64, Halt>
    ensures found { IfOk result (λ count. IfSome (R.remaining input.old)
        (λ bytes. (found : List (ℕ × List ℕ))
        × AreFound (IsSought list.now search.is_inverted) 1 bytes found []
        × (count ≡ length found)
        × Appends (W.contents out.old) (W.contents out.new)
        (lines_text search.showing before.now found))) }
    ensures halted { IfErr result (λ halt. halt ≢ Unwritable → IfSome (R.remaining input.old)
        (λ bytes. AreFoundSoFar list.now search before.now bytes (W.contents out.old)
        (W.contents out.new))) }
    ensures reason { IfErr result
        (λ halt. (halt ≡ Bad Unread) ⊎ ((halt ≡ Bad Memory) ⊎ (halt ≡ Unwritable))) }
    ensures unread { result ≡ Err (Bad Unread) → R.fails }
{
    let mut count = 0;
    for number in 1..u64::MAX {
        match input.next_line(buffer) {
            Ok(true) => {}
            Ok(false) => return Ok(count),
            Err(error) => return Err(Halt::Bad(ListError::from(error))),
        }
        match search_line(list, search, before, number, buffer.as_slice(), out) {
            Ok(found) => count += u64::from(found),
            Err(_) => return Err(Halt::Unwritable),
        }
    }
    Err(Halt::Bad(ListError::Memory))
}

/// Writes the lines of a text that hold an address of the list, byte for byte and in order, and
/// returns how many they are.
///
/// Which part of a line counts as an address, [`holds_address`] says. Where `is_inverted` is set,
/// all other lines are written. Before each line stands the text `before`, and then its number
/// where that is shown. Where they are counted, their number alone is written. A last line without
/// an end is written with one. One buffer holds a line.
///
/// # Errors
///
/// `Bad` with `Unread` where a read of the text failed, and nowhere else, or with `Memory`: what is
/// sought of the lines before is written then. `Unwritable` where something cannot be written; no
/// contract tells how much of it is.
pub fn write_found_lines<R: LineRead, W: Write>(
    alloc: Global,
    list: &Addresses,
    search: Search,
    before: &str,
    input: &mut R,
    out: &mut W,
) -> Result<u64, Halt>
    ensures found { IfOk result (λ count. IfSome (R.remaining input.old)
        (λ bytes. AreAllFound list.now search before.now bytes (W.contents out.old)
        (W.contents out.new) count)) }
    ensures halted { IfErr result (λ halt. halt ≢ Unwritable → IfSome (R.remaining input.old)
        (λ bytes. AreFoundSoFar list.now search before.now bytes (W.contents out.old)
        (W.contents out.new))) }
    ensures reason { IfErr result
        (λ halt. (halt ≡ Bad Unread) ⊎ ((halt ≡ Bad Memory) ⊎ (halt ≡ Unwritable))) }
    ensures unread { result ≡ Err (Bad Unread) → R.fails }
{
    let mut buffer = Vec::new(alloc);
    let count = match search_lines(&mut buffer, list, search, before, input, out) {
        Ok(count) => count,
        Err(halt) => return Err(halt),
    };
    match write_count(search.showing, before, count, out) {
        Ok(()) => Ok(count),
        Err(_) => Err(Halt::Unwritable),
    }
}
