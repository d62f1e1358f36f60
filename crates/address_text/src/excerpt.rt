//! What stands in a line, as a message shows it.

ghost use Rattle.std.specs.Prelude.{◌≡◌, ◌≤◌, ◌+◌, ◌-◌, drop, length, take};
ghost use Rattle.address_text.specs.Lines.{content};

use crate::line::content_of;
use std::fmt;
use std::marker::Model;

/// The first bytes of a text, up to 40, as a message shows them. A contract sees these bytes.
#[derive(Debug, Drop)]
pub struct Excerpt {
    bytes: [u8; 40],
    count: usize,
    is_whole: bool,
}

impl Model for Excerpt {
    ghost use Rattle.std.specs.Prelude.{◌≤◌, ℕ, List, length, take};

    ghost Value = { List ℕ };

    ghost view = { λ e. take e.count e.bytes };

    ghost invariant = { λ e. e.count ≤ 40 };
}

impl Excerpt {
    /// The first bytes of a text. Allocates nothing.
    pub fn new(text: &[u8]) -> Excerpt
        ensures { result ≡ take 40 text.now }
    {
        let mut bytes = [0; 40];
        let count = text.len().min(40);
        bytes[..count].copy_from_slice(&text[..count]);
        Excerpt {
            bytes,
            count,
            is_whole: text.len() <= 40,
        }
    }
}

/// The byte order mark that a text begins with, as a message names it. A list has none.
fn byte_order_mark(text: &[u8]) -> Option<&'static str> {
    match text {
        [0xef, 0xbb, 0xbf, ..] => Some("a byte order mark"),
        [0xff, 0xfe, ..] | [0xfe, 0xff, ..] => Some("a UTF-16 byte order mark"),
        _ => None,
    }
}

/// Writes a byte as itself where it is printable ASCII, and else by its number, as `\xff`.
fn write_byte<W: fmt::Write>(byte: u8, f: &mut fmt::Formatter<W>) -> fmt::Result {
    match byte {
        b' '..=b'~' => write!(f, "{}", byte as char),
        _ => write!(f, "\\x{byte:02x}"),
    }
}

/// Writes bytes between quotes.
fn write_bytes<W: fmt::Write>(bytes: &[u8], f: &mut fmt::Formatter<W>) -> fmt::Result {
    write!(f, "'")?;
    for byte in bytes {
        write_byte(*byte, f)?;
    }
    write!(f, "'")
}

impl fmt::Display for Excerpt {
    fn fmt<W: fmt::Write>(&self, f: &mut fmt::Formatter<W>) -> fmt::Result {
        let text = &self.bytes[..self.count];
        if text.is_empty() {
            return write!(f, "nothing");
        }
        if let Some(mark) = byte_order_mark(text) {
            return write!(f, "{mark}");
        }
        write_bytes(text, f)?;
        if self.is_whole {
            Ok(())
        } else {
            write!(f, " and more")
        }
    }
}

/// The first bytes of what stands in a line from a column on, up to a comment, without white space
/// around it. Allocates nothing.
pub fn excerpt_at(line: &[u8], column: usize) -> Excerpt
    requires first { 1 ≤ column }
    requires last { column ≤ length line.now + 1 }
    ensures { result ≡ take 40 (content (drop (column - 1) line.now)) }
{
    Excerpt::new(content_of(&line[column - 1..]))
}
