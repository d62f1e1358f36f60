//! Lines of bytes, and the words of a line.

ghost use Rattle.std.specs.Io.KnownBytes.{Appends};
ghost use Rattle.std.specs.Prelude.{◌≡◌, ◌++◌, ◌<◌, MatchOption, OnOk, codes};
ghost use Rattle.line_program.specs.Lines.{line_content, IsSplitAt, Lacks};

use itoa::{Buffer, Integer};
use memchr::memchr;
use std::io::{self, Write};

/// The bytes of a line without the `\n` or `\r\n` at its end.
pub(crate) fn without_line_end(line: &[u8]) -> &[u8]
    ensures { result.now ≡ line_content line.now }
{
    match line.strip_suffix(b"\n") {
        Some(line) => line.strip_suffix(b"\r").unwrap_or(line),
        None => line,
    }
}

/// The texts around the first such character, which is an ASCII one. It does not allocate.
#[tactic(auto, using(std::proofs::lemmas::Str::lead_after_ascii))]
pub fn split_at(text: &str, separator: u8) -> Option<(&str, &str)>
    requires { separator < 128 }
    ensures { MatchOption result (Lacks separator text.now)
        (λ parts. IsSplitAt separator text.now parts.0.now parts.1.now) }
{
    let at = memchr(separator, text.as_bytes())?;
    Some((&text[..at], &text[at + 1..]))
}

/// Writes a number in decimal digits.
#[inline(always)]
pub fn write_number<I: Integer, W: Write>(number: I, out: &mut W) -> io::Result<()>
    ensures { OnOk result (Appends (W.contents out.old) (W.contents out.new) (I.text number)) }
{
    let mut buffer = Buffer::new();
    out.write_all(buffer.format(number).as_bytes())
}

/// Writes a number in decimal digits, and the end of the line.
#[inline(always)]
pub fn write_number_line<I: Integer, W: Write>(number: I, out: &mut W) -> io::Result<()>
    ensures { OnOk result (Appends (W.contents out.old) (W.contents out.new)
        (I.text number ++ codes "\n")) }
{
    write_number(number, out)?;
    out.write_all(b"\n")
}
