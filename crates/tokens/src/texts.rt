//! The text that a reader gives.
ghost use Rattle.std.specs.Prelude.{◌≡◌, IfOk, IfErr, IfSome};
ghost use Rattle.tokens.specs.Texts.{IsNoText, IsReadFault, begins_with_mark};

use lexing::Place;
use std::alloc::Global;
use std::io::{self, Read};

/// Why a text was not printed to its end.
#[derive(Drop)]
pub enum Stop {
    /// It cannot be read.
    Unreadable(io::Error),
    /// From this place on it is no UTF-8.
    NoText(Place),
    /// A line cannot be written, or memory ran out.
    Unwritable(io::Error),
}

/// The bytes that the reader gives. Allocates.
pub(crate) fn bytes_of<R: Read + Drop>(alloc: Global, mut input: R) -> Result<Vec<u8>, Stop>
    ensures bytes { IfOk result (λ bytes. IfSome (R.remaining input) (λ all. bytes.items ≡ all)) }
    ensures refused { IfErr result IsReadFault }
{
    let mut bytes = Vec::new(alloc);
    match input.read_to_end(&mut bytes) {
        Ok(_) => Ok(bytes),
        Err(error) => Err(Stop::Unreadable(error)),
    }
}

/// The bytes as a text, or the place from which on they are none.
pub(crate) fn text_in(bytes: &[u8]) -> Result<&str, Stop>
    ensures text { IfOk result (λ text. text.now ≡ bytes.now) }
    ensures refused { IfErr result (IsNoText bytes.now) }
{
    match str::from_utf8(bytes) {
        Ok(text) => Ok(text),
        Err(error) => {
            let before = &bytes[..error.valid_up_to()];
            Err(Stop::NoText(Place::first().behind(before)))
        }
    }
}

/// Whether the text begins with a byte order mark.
pub(crate) fn begins_with_mark(text: &str) -> bool
    ensures { result ≡ begins_with_mark text.now }
{
    match text.as_bytes() {
        [first, second, third, ..] => *first == 0xEF && *second == 0xBB && *third == 0xBF,
        _ => false,
    }
}
