//! The tokens of a text, one after the other, written.
ghost use Rattle.std.specs.Prelude.{◌≡◌, ◌&&◌, Ok, true, IfOk, IfSome, OnOk};
ghost use Rattle.line_program.specs.Listing.{Writes};
ghost use Rattle.lexing.specs.Places.{place_at};
ghost use Rattle.tokens.specs.Printing.{IsLine, IsNameIn, IsPrinted, IsTokenLine, is_token};

use crate::fault::show_fault;
use crate::form::{Form, write_token};
use lexing::{Machine, Place, Token};
use lexing_modes::{ModeToken, Modes, TokenError};
use std::alloc::Global;
use std::io::{self, ErrorKind, Write};

/// What finds tokens, and how they are printed.
#[derive(Drop)]
pub struct Printer<'a> {
    pub alloc: Global,
    pub form: Form,
    pub modes: &'a Modes<Machine>,
}

/// The name of the token's rule.
fn name_of(modes: &Modes<Machine>, found: ModeToken) -> Option<&str>
    ensures { IfSome result (λ name. IsNameIn modes.now found name.now) }
{
    match modes.scanner(found.mode) {
        Some(machine) => machine.lexer().name(found.token.rule),
        None => None,
    }
}

/// Writes a token of the text.
fn print_token<W: Write>(
    printer: &Printer,
    text: &str,
    found: ModeToken,
    place: Place,
    out: &mut W,
) -> io::Result<()>
    requires here { place ≡ place_at text.now found.token.start }
    ensures { OnOk result (Writes (W.contents out.old) (W.contents out.new)
        (IsTokenLine printer.now.modes.now printer.now.form text.now found)) }
{
    let Token { start, end, .. } = found.token;
    match (name_of(printer.modes, found), text.get(start..end)) {
        (Some(name), Some(piece)) => {
            write_token(printer.alloc, printer.form, place, name, piece, out)
        }
        _ => Err(io::Error::from(ErrorKind::InvalidData)),
    }
}

/// Says why there is no token at this byte of the text, which is at the place.
fn show_error<E: Write>(
    path: &str,
    text: &str,
    error: TokenError,
    place: Place,
    err: &mut E,
) -> io::Result<()> {
    let Place { line, column } = place;
    match error {
        TokenError::NoToken { place: at, .. } => match (text.get(..at), text.get(at..)) {
            (Some(front), Some(rest)) => show_fault(path, place, front, rest, err),
            _ => Err(io::Error::from(ErrorKind::InvalidData)),
        },
        TokenError::NothingPushed { .. } => {
            writeln!(
                err,
                "{path}:{line}:{column}: this token pops a mode, and none was pushed"
            )
        }
        TokenError::Memory => Err(io::Error::from(ErrorKind::OutOfMemory)),
    }
}

/// Prints the token, or says why there is none; whether there is one.
fn print_next<W: Write, E: Write>(
    printer: &Printer,
    path: &str,
    text: &str,
    next: Result<ModeToken, TokenError>,
    place: Place,
    out: &mut W,
    err: &mut E,
) -> io::Result<bool>
    requires here { IfOk next (λ found. place ≡ place_at text.now found.token.start) }
    ensures printed { IfOk result (λ is_one. (is_one ≡ is_token next)
        × Writes (W.contents out.old) (W.contents out.new)
        (IsLine printer.now.modes.now printer.now.form text.now next)) }
    ensures silent { result ≡ Ok true → err.new ≡ err.old }
{
    match next {
        Ok(found) => {
            print_token(printer, text, found, place, out)?;
            Ok(true)
        }
        Err(error) => {
            show_error(path, text, error, place, err)?;
            Ok(false)
        }
    }
}

/// The byte at which the token begins, or there is none. Where memory ran out, that is the error.
fn start_of(next: Result<ModeToken, TokenError>) -> io::Result<usize>
    ensures { IfOk result (λ start. IfOk next (λ found. start ≡ found.token.start)) }
{
    match next {
        Ok(found) => Ok(found.token.start),
        Err(TokenError::NoToken { place, .. } | TokenError::NothingPushed { place, .. }) => Ok(
            place,
        ),
        Err(TokenError::Memory) => Err(io::Error::from(ErrorKind::OutOfMemory)),
    }
}

/// The place of a byte further on in the text.
fn further(text: &str, place: Place, from: usize, to: usize) -> io::Result<Place>
    requires here { place ≡ place_at text.now from }
    ensures { IfOk result (λ further. further ≡ place_at text.now to) }
{
    match text.as_bytes().get(from..to) {
        Some(passed) => Ok(place.behind(passed)),
        None => Err(io::Error::from(ErrorKind::InvalidData)),
    }
}

pub(crate) fn both(one: bool, other: bool) -> bool
    ensures { result ≡ (one && other) }
{
    one && other
}

/// Prints the tokens of a text, and returns whether they are all of it.
pub(crate) fn print_tokens<W: Write, E: Write>(
    printer: &Printer,
    path: &str,
    text: &str,
    out: &mut W,
    err: &mut E,
) -> io::Result<bool>
    ensures printed { IfOk result (λ is_whole. Writes (W.contents out.old) (W.contents out.new)
        (IsPrinted printer.now.modes.now printer.now.form text.now is_whole)) }
    ensures silent { result ≡ Ok true → err.new ≡ err.old }
{
    let mut is_whole = true;
    let mut at = 0;
    let mut place = Place::first();
    for next in printer.modes.tokens(text) {
        let start = start_of(next)?;
        place = further(text, place, at, start)?;
        at = start;
        let is_one = print_next(printer, path, text, next, place, out, err)?;
        is_whole = both(is_whole, is_one);
    }
    Ok(is_whole)
}
