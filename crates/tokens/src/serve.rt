//! The tokens of what a reader gives, over any reader and writers.
ghost use Rattle.std.specs.Prelude.{◌≡◌, Ok, true, IfOk, IfErr, IfSome};
ghost use Rattle.line_program.specs.Listing.{Writes};
ghost use Rattle.tokens.specs.Printing.{IsPrinted};
ghost use Rattle.tokens.specs.Texts.{TellsFault};

use crate::printing::{Printer, print_tokens};
use crate::texts::{Stop, bytes_of, text_in};
use std::io::{Read, Write};

/// Prints the tokens of the text that the reader gives, and returns whether they are all of it.
///
/// In each mode a token is the longest piece of the text from its place on that a rule of the mode
/// matches, by the first such rule. Where none matches a piece, `err` gets the path and the place,
/// and the text goes on behind the character there. Nothing is printed of what is no UTF-8.
/// Allocates.
pub fn serve<R: Read + Drop, W: Write, E: Write>(
    printer: &Printer,
    path: &str,
    input: R,
    out: &mut W,
    err: &mut E,
) -> Result<bool, Stop>
    ensures printed { IfOk result (λ is_whole. IfSome (R.remaining input)
        (λ bytes. Writes (W.contents out.old) (W.contents out.new)
        (IsPrinted printer.now.modes.now printer.now.form bytes is_whole))) }
    ensures no_text { IfErr result (λ stop. IfSome (R.remaining input)
        (λ bytes. TellsFault bytes stop)) }
    ensures silent { result ≡ Ok true → err.new ≡ err.old }
{
    let bytes = bytes_of(printer.alloc, input)?;
    let text = text_in(&bytes)?;
    match print_tokens(printer, path, text, out, err) {
        Ok(is_whole) => Ok(is_whole),
        Err(error) => Err(Stop::Unwritable(error)),
    }
}
