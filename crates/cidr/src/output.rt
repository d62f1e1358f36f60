//! What an answer is written to.

use std::io::{self, ErrorKind, Write};

/// A writer that keeps why it failed last.
#[derive(Drop)]
pub struct Noted<W> {
    writer: W,
    failure: Option<ErrorKind>,
}

impl<W: Write> Noted<W> {
    pub fn new(writer: W) -> Noted<W> {
        Noted {
            writer,
            failure: None,
        }
    }

    /// Why it failed last, if it did.
    pub fn failure(&self) -> Option<ErrorKind> {
        self.failure
    }
}

impl<W: Write> Write for Noted<W> {
    ghost contents = { λ noted. W.contents noted.writer };

    fn write(&mut self, buf: &[u8]) -> io::Result<usize> {
        let written = self.writer.write(buf);
        if let Err(error) = &written {
            self.failure = Some(error.kind());
        }
        written
    }

    fn flush(&mut self) -> io::Result<()> {
        let flushed = self.writer.flush();
        if let Err(error) = &flushed {
            self.failure = Some(error.kind());
        }
        flushed
    }
}
