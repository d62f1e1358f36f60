//! Readers of lines, and what is known where they fail.

ghost use Rattle.std.specs.Prelude.{◌≡◌, ◌≢◌, ◌++◌, [], Ok, Some, false, length, true, IfErr, IfOk, IfSome, IsTrue, OnOk};
ghost use Rattle.std.specs.Io.{StartsWith};
ghost use Rattle.std.specs.Io.BufRead.{drop_through, take_through};
ghost use Rattle.std.specs.Io.KnownBytes.{Keeps};
ghost use Rattle.line_program.specs.Lines.{first_byte};

use std::io::{self, BufRead, ErrorKind};

/// Why a reader gives nothing more.
#[derive(Clone, Copy, PartialEq, Eq, Debug)]
pub enum ReadError {
    /// A read fails.
    Unread,
    /// The buffer cannot grow.
    Memory,
}

/// A reader of lines. Each [`BufRead`] is one.
///
/// No contract tells when a disk fails or memory ends. So a function that is generic in its reader
/// can show `fails` by a call of the reader that failed, and in no other way.
pub trait LineRead: BufRead {
    /// A read fails, or a buffer for it cannot grow.
    ghost fails: { Type 0 };

    /// The next byte, or `None` at the end. It stays where it is, and so do all after it. A read
    /// that is interrupted is tried again. Allocates nothing.
    fn first_byte(&mut self) -> Result<Option<u8>, ReadError>
        ensures kept { Keeps (Self.remaining self.old) (Self.remaining self.new) }
        ensures told { IfOk result
            (λ byte. IfSome (Self.remaining self.old) (λ bytes. byte ≡ first_byte bytes)) }
        ensures failed { IfErr result (λ error. fails) };

    /// Shows the next bytes, as many as `start` has, where the reader has so many at hand, and
    /// returns whether it has. They stay where they are, and so do all after them. A read that is
    /// interrupted is tried again. Allocates nothing.
    fn next_bytes(&mut self, start: &mut [u8]) -> Result<bool, ReadError>
        ensures kept { Keeps (Self.remaining self.old) (Self.remaining self.new) }
        ensures shown { result ≡ Ok true → IfSome (Self.remaining self.old)
            (λ bytes. StartsWith bytes start.new) }
        ensures len { length start.new ≡ length start.old }
        ensures failed { IfErr result (λ error. fails) };

    /// Passes over the next line with its end. Allocates nothing.
    fn skip_line(&mut self) -> Result<(), ReadError>
        ensures skipped { OnOk result (IfSome (Self.remaining self.old)
            (λ bytes. Self.remaining self.new ≡ Some (drop_through 10 bytes))) }
        ensures failed { IfErr result (λ error. fails) };

    /// Reads the next line with its end into the buffer, in place of what stands there, and returns
    /// whether there was one. Allocates where the line is longer than the buffer.
    fn next_line(&mut self, line: &mut Vec<u8>) -> Result<bool, ReadError>
        ensures ended { result ≡ Ok false → IfSome (Self.remaining self.old)
            (λ bytes. (bytes ≡ []) × (Self.remaining self.new ≡ Some [])) }
        ensures read { result ≡ Ok true → IfSome (Self.remaining self.old)
            (λ bytes. (bytes ≢ []) × (Self.remaining self.new ≡ Some (drop_through 10 bytes))
            × (line.new.items ≡ take_through 10 bytes)) }
        ensures failed { IfErr result (λ error. fails) };

    /// Appends all bytes that are left. Allocates where these are more than the buffer has room.
    fn read_rest(&mut self, text: &mut Vec<u8>) -> Result<(), ReadError>
        ensures read { OnOk result (IfSome (Self.remaining self.old)
            (λ bytes. text.new.items ≡ text.old.items ++ bytes)) }
        ensures failed { IfErr result (λ error. fails) };
}

fn reason_of(error: &io::Error) -> ReadError {
    match error.kind() {
        ErrorKind::OutOfMemory => ReadError::Memory,
        _ => ReadError::Unread,
    }
}

/// Copies the first bytes, where there are as many as `start` has.
fn copy_start(bytes: &[u8], start: &mut [u8]) -> bool
    ensures copied { IsTrue result → StartsWith bytes.now start.new }
    ensures len { length start.new ≡ length start.old }
{
    match bytes.get(..start.len()) {
        Some(first) => {
            start.copy_from_slice(first);
            true
        }
        None => false,
    }
}

impl<R: BufRead> LineRead for R {
    ghost fails = { Unit {0} };

    fn first_byte(&mut self) -> Result<Option<u8>, ReadError> {
        for _ in 0..u64::MAX {
            match self.fill_buf() {
                Ok(bytes) => return Ok(bytes.first().copied()),
                Err(error) if error.kind() == ErrorKind::Interrupted => {}
                Err(error) => return Err(reason_of(&error)),
            }
        }
        Err(ReadError::Unread)
    }

    fn next_bytes(&mut self, start: &mut [u8]) -> Result<bool, ReadError> {
        for _ in 0..u64::MAX {
            match self.fill_buf() {
                Ok(bytes) => return Ok(copy_start(bytes, start)),
                Err(error) if error.kind() == ErrorKind::Interrupted => {}
                Err(error) => return Err(reason_of(&error)),
            }
        }
        Err(ReadError::Unread)
    }

    fn skip_line(&mut self) -> Result<(), ReadError> {
        match self.skip_until(b'\n') {
            Ok(_) => Ok(()),
            Err(error) => Err(reason_of(&error)),
        }
    }

    fn next_line(&mut self, line: &mut Vec<u8>) -> Result<bool, ReadError> {
        line.clear();
        match self.read_until(b'\n', line) {
            Ok(count) => Ok(count > 0),
            Err(error) => Err(reason_of(&error)),
        }
    }

    fn read_rest(&mut self, text: &mut Vec<u8>) -> Result<(), ReadError> {
        match self.read_to_end(text) {
            Ok(_) => Ok(()),
            Err(error) => Err(reason_of(&error)),
        }
    }
}
