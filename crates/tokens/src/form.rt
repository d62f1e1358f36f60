//! How a token is written.
ghost use Rattle.std.specs.Prelude.{◌≡◌, IfOk, OnOk, string_bytes};
ghost use Rattle.std.specs.Io.KnownBytes.{Appends};
ghost use Rattle.tokens.specs.Lines.{json_string, token_line};
ghost use Rattle.tokens.specs.declared.form.Form.TheVariants.{Plain, Raw, Json};

use crate::escaping::write_escaped;
use lexing::Place;
use serde_json::Value;
use std::alloc::{AllocError, Global};
use std::io::{self, Write};

/// How a token is written: as a line of text, as its text stands there, as a line of JSON, or not at
/// all.
#[derive(Clone, Copy, PartialEq, Eq, Drop)]
pub enum Form {
    /// The ends of lines and the backslashes of the text are escaped, so a line is a token.
    Plain,
    /// As `Plain`, but nothing is escaped.
    Raw,
    Json,
    Silent,
}

fn write_plain<W: Write>(place: Place, name: &str, piece: &str, out: &mut W) -> io::Result<()>
    ensures { OnOk result (Appends (W.contents out.old) (W.contents out.new)
        (token_line Plain place name.now piece.now)) }
{
    let Place { line, column } = place;
    write!(out, "{line}:{column} {name} ")?;
    write_escaped(piece, out)?;
    out.write_all(b"\n")
}

fn write_raw<W: Write>(place: Place, name: &str, piece: &str, out: &mut W) -> io::Result<()>
    ensures { OnOk result (Appends (W.contents out.old) (W.contents out.new)
        (token_line Raw place name.now piece.now)) }
{
    let Place { line, column } = place;
    writeln!(out, "{line}:{column} {name} {piece}")
}

/// The text as a string of JSON.
fn quoted(alloc: Global, text: &str) -> Result<String, AllocError>
    ensures { IfOk result (λ quoted. string_bytes quoted ≡ json_string text.now) }
{
    let value = Value::String(String::from_str(alloc, text)?);
    value.to_string(alloc)
}

fn write_quoted<W: Write>(alloc: Global, text: &str, out: &mut W) -> io::Result<()>
    ensures { OnOk result (Appends (W.contents out.old) (W.contents out.new)
        (json_string text.now)) }
{
    let quoted = quoted(alloc, text)?;
    out.write_all(quoted.as_bytes())
}

fn write_json<W: Write>(
    alloc: Global,
    place: Place,
    name: &str,
    piece: &str,
    out: &mut W,
) -> io::Result<()>
    ensures { OnOk result (Appends (W.contents out.old) (W.contents out.new)
        (token_line Json place name.now piece.now)) }
{
    let Place { line, column } = place;
    write!(out, "{{\"line\":{line},\"column\":{column},\"rule\":")?;
    write_quoted(alloc, name, out)?;
    out.write_all(b",\"text\":")?;
    write_quoted(alloc, piece, out)?;
    out.write_all(b"}\n")
}

/// Writes a token: the place where it begins, the name of its rule, and its text.
pub(crate) fn write_token<W: Write>(
    alloc: Global,
    form: Form,
    place: Place,
    name: &str,
    piece: &str,
    out: &mut W,
) -> io::Result<()>
    ensures { OnOk result (Appends (W.contents out.old) (W.contents out.new)
        (token_line form place name.now piece.now)) }
{
    match form {
        Form::Plain => write_plain(place, name, piece, out),
        Form::Raw => write_raw(place, name, piece, out),
        Form::Json => write_json(alloc, place, name, piece, out),
        Form::Silent => Ok(()),
    }
}
