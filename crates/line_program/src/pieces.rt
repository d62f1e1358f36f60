//! Texts that are read in pieces.

ghost use Rattle.std.specs.Prelude.{◌≡◌, ◌<◌, ◌≤◌, Ok, true, OnOk, MatchResult, drop, length, vec_len};
ghost use Rattle.std.specs.Io.KnownBytes.{IsAtEnd};
ghost use Rattle.line_program.specs.Pieces.{IsFaultAt, IsPieceOf, Reads};

use std::io::{self, ErrorKind, Read};

/// Reads on behind the bytes, as many as there are again and at least one, and returns whether the
/// input has ended.
///
/// So many reads of one piece after another cost as much as one of all bytes. A read that is
/// interrupted is tried again. What is read goes through the chunk. Allocates where the bytes are
/// more than there is room for.
pub fn read_on<R: Read>(input: &mut R, chunk: &mut [u8], bytes: &mut Vec<u8>) -> io::Result<bool>
    requires { 0 < length chunk.old }
    ensures room { length chunk.new ≡ length chunk.old }
    ensures read { OnOk result (Reads (R.remaining input.old) (R.remaining input.new)
        bytes.old.items bytes.new.items) }
    ensures ended { result ≡ Ok true → IsAtEnd (R.remaining input.new) }
{
    let least = 2 * bytes.len() + 1;
    for _ in 0..u64::MAX {
        if bytes.len() >= least {
            return Ok(false);
        }
        match input.read(chunk) {
            Ok(0) => return Ok(true),
            Ok(count) => bytes.extend_from_slice(&chunk[..count])?,
            Err(error) if error.kind() == ErrorKind::Interrupted => {}
            Err(error) => return Err(error),
        }
    }
    Err(io::Error::from(ErrorKind::Other))
}

/// The bytes as a text; of bytes behind which more come, those up to the last character that has
/// not come to its end. Else the number of bytes before the first that is no character of a text,
/// whatever comes. Allocates nothing.
pub fn piece_in(bytes: &[u8], is_last: bool) -> Result<&str, usize>
    ensures { MatchResult result (λ piece. IsPieceOf bytes.now is_last piece.now)
        (IsFaultAt bytes.now is_last) }
{
    let error = match str::from_utf8(bytes) {
        Ok(text) => return Ok(text),
        Err(error) => error,
    };
    let valid = error.valid_up_to();
    // No character has more than four bytes.
    if is_last || bytes.len() - valid >= 4 {
        return Err(valid);
    }
    match str::from_utf8(&bytes[..valid]) {
        Ok(text) => Ok(text),
        Err(_) => Err(valid),
    }
}

/// Lets go of so many of the first bytes. Allocates nothing.
pub fn let_go(bytes: &mut Vec<u8>, count: usize)
    requires { count ≤ vec_len bytes.old }
    ensures { bytes.new.items ≡ drop count bytes.old.items }
{
    let len = bytes.len();
    bytes.copy_within(count.., 0);
    bytes.truncate(len - count);
}
