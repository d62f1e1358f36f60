//! Places in a text, shown to whoever wrote it.
ghost use Rattle.std.specs.Prelude.{◌≡◌, OnOk};
ghost use Rattle.std.specs.Io.KnownBytes.{Appends};
ghost use Rattle.line_program.specs.Listing.{Writes};
ghost use Rattle.tokens.specs.Faults.{BeginsWithLine, EndsWithLine, ShowsFault, blank_below, fault_place, mark_below, shown_line};

use crate::texts::begins_with_mark;
use lexing::Place;
use line_program::line::split_at;
use std::io::{self, Write};

/// Marks the character behind the text, on the line below it.
pub(crate) fn mark<E: Write>(before: &str, err: &mut E) -> io::Result<()>
    ensures { OnOk result (Appends (E.contents err.old) (E.contents err.new)
        (mark_below before.now)) }
{
    err.write_all(b"  ")?;
    for c in before.chars() {
        err.write_all(&[blank_below(c)])?;
    }
    err.write_all(b"^\n")
}

/// What stands in the marking line below the character.
fn blank_below(c: char) -> u8
    ensures { result ≡ blank_below c }
{
    if c == '\t' { b'\t' } else { b' ' }
}

/// The last line of the text.
#[tactic(auto, using(std::proofs::lemmas::Str::lead_after_ascii))]
fn last_line(text: &str) -> &str
    ensures { EndsWithLine text.now result.now }
{
    match text.rfind('\n') {
        Some(at) => &text[at + 1..],
        None => text,
    }
}

/// The first line of the text.
fn first_line(text: &str) -> &str
    ensures { BeginsWithLine text.now result.now }
{
    match split_at(text, b'\n') {
        Some((first, _)) => first,
        None => text,
    }
}

/// Says that no token begins at the place.
fn show_place<E: Write>(path: &str, place: Place, rest: &str, err: &mut E) -> io::Result<()>
    ensures { OnOk result (Appends (E.contents err.old) (E.contents err.new)
        (fault_place path.now place rest.now)) }
{
    let Place { line, column } = place;
    if begins_with_mark(rest) {
        writeln!(
            err,
            "{path}:{line}:{column}: no token begins with this byte order mark"
        )
    } else {
        writeln!(err, "{path}:{line}:{column}: no token begins here")
    }
}

/// Shows a line of two parts.
fn show_parts<E: Write>(before: &str, behind: &str, err: &mut E) -> io::Result<()>
    ensures { OnOk result (Appends (E.contents err.old) (E.contents err.new)
        (shown_line before.now behind.now)) }
{
    writeln!(err, "  {before}{behind}")
}

/// Says that no token begins at the place, shows the line, and marks it.
pub(crate) fn show_fault<E: Write>(
    path: &str,
    place: Place,
    front: &str,
    rest: &str,
    err: &mut E,
) -> io::Result<()>
    ensures { OnOk result (Writes (E.contents err.old) (E.contents err.new)
        (ShowsFault path.now place front.now rest.now)) }
{
    let before = last_line(front);
    let behind = first_line(rest);
    show_place(path, place, rest, err)?;
    show_parts(before, behind, err)?;
    mark(before, err)
}
