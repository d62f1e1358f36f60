//! A text written on one line.
ghost use Rattle.std.specs.Prelude.{◌≡◌, OnOk, IsTrue, ◌∷◌, []};
ghost use Rattle.std.specs.Io.KnownBytes.{Appends};
ghost use Rattle.tokens.specs.Escaping.{escaped, escaped_byte};

use std::io::{self, Write};

/// Whether the byte stands for itself.
fn is_plain(byte: u8) -> bool
    ensures { IsTrue result → escaped_byte byte ≡ byte ∷ [] }
{
    byte != b'\n' && byte != b'\r' && byte != b'\\'
}

/// Whether each byte of the text stands for itself.
fn are_plain(text: &str) -> bool
    ensures { IsTrue result → escaped text.now ≡ text.now }
{
    let bytes = text.as_bytes();
    for at in 0..bytes.len() {
        if !is_plain(bytes[at]) {
            return false;
        }
    }
    true
}

fn write_byte<W: Write>(byte: u8, out: &mut W) -> io::Result<()>
    ensures { OnOk result (Appends (W.contents out.old) (W.contents out.new)
        (escaped_byte byte)) }
{
    match byte {
        b'\n' => out.write_all(b"\\n"),
        b'\r' => out.write_all(b"\\r"),
        b'\\' => out.write_all(b"\\\\"),
        _ => out.write_all(&[byte]),
    }
}

/// Writes each byte of the text, escaped.
fn write_bytes<W: Write>(text: &str, out: &mut W) -> io::Result<()>
    ensures { OnOk result (Appends (W.contents out.old) (W.contents out.new) (escaped text.now)) }
{
    let bytes = text.as_bytes();
    for at in 0..bytes.len() {
        write_byte(bytes[at], out)?;
    }
    Ok(())
}

/// Writes the text so that it stands on one line: the ends of lines and backslashes are escaped.
pub(crate) fn write_escaped<W: Write>(text: &str, out: &mut W) -> io::Result<()>
    ensures { OnOk result (Appends (W.contents out.old) (W.contents out.new) (escaped text.now)) }
{
    if are_plain(text) {
        out.write_all(text.as_bytes())
    } else {
        write_bytes(text, out)
    }
}
