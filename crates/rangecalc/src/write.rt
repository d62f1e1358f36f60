//! The lines of replies.

ghost use Rattle.std.specs.Prelude.{◌≡◌, ◌++◌, ◌∷◌, [], OnOk, codes};
ghost use Rattle.std.specs.Fmt.{signed_decimal};
ghost use Rattle.std.specs.Io.KnownBytes.{Appends};
ghost use Rattle.rangecalc.specs.Ranges.{item_of};
ghost use Rattle.line_program.specs.Listing.{Writes};
ghost use Rattle.rangecalc.specs.Replies.{SpellsItem, SpellsReply, span_text, truth_text};
ghost use Rattle.rangecalc.specs.declared.answer.Reply.TheVariants.{Taken};

use crate::answer::Reply;
use crate::number::{NumberKey, Span, span_of};
use btree_range_map::AnyRange;
use btree_range_map::range::traits::Bounded;
use line_program::line::write_number_line;
use std::io::{self, Write};

/// Writes a line of a range, by its first and its last key.
pub fn write_gap_line<W: Write>(span: Span, out: &mut W) -> io::Result<()>
    ensures { OnOk result
        (Appends (W.contents out.old) (W.contents out.new)
        (span_text span.first span.last ++ 10 ∷ [])) }
{
    let Span { first, last } = span;
    writeln!(out, "{first}..={last}")
}

/// Writes a line of a free piece, by its first and its last key.
pub fn write_free_line<W: Write>(span: &Span, out: &mut W) -> io::Result<()>
    ensures { OnOk result
        (Appends (W.contents out.old) (W.contents out.new)
        (span_text span.now.first span.now.last ++ codes " " ++ codes "free" ++ 10 ∷ [])) }
{
    let Span { first, last } = *span;
    writeln!(out, "{first}..={last} free")
}

/// Writes a line of a range with a value, by its first and its last key.
pub fn write_item_line<W: Write>(span: &Span, value: &i64, out: &mut W) -> io::Result<()>
    ensures { OnOk result
        (Appends (W.contents out.old) (W.contents out.new)
        (span_text span.now.first span.now.last ++ codes " " ++ signed_decimal value.now
        ++ 10 ∷ [])) }
{
    let Span { first, last } = *span;
    writeln!(out, "{first}..={last} {value}")
}

/// Writes the line of a stored range.
pub fn write_item<K: NumberKey + Bounded, W: Write>(
    range: &AnyRange<K>,
    value: &i64,
    out: &mut W,
) -> io::Result<()>
    ensures { OnOk result
        (Writes (W.contents out.old) (W.contents out.new)
        (SpellsItem (item_of range.now value.now))) }
{
    write_item_line(&span_of(range), value, out)
}

/// Writes the line of a range that is in the way, by its first and its last key.
fn write_taken_line<W: Write>(span: Span, out: &mut W) -> io::Result<()>
    ensures { OnOk result
        (Appends (W.contents out.old) (W.contents out.new)
        (codes "taken " ++ span_text span.first span.last ++ 10 ∷ [])) }
{
    let Span { first, last } = span;
    writeln!(out, "taken {first}..={last}")
}

/// Writes the line of a range that is in the way.
fn write_taken<K: NumberKey + Bounded, W: Write>(range: &AnyRange<K>, out: &mut W) -> io::Result<()>
    ensures { OnOk result
        (Writes (W.contents out.old) (W.contents out.new) (SpellsReply (Taken range.now))) }
{
    write_taken_line(span_of(range), out)
}

/// Writes the line of a yes or a no.
pub fn write_truth<W: Write>(answer: bool, out: &mut W) -> io::Result<()>
    ensures { OnOk result
        (Appends (W.contents out.old) (W.contents out.new) (truth_text answer)) }
{
    if answer {
        out.write_all(b"true\n")
    } else {
        out.write_all(b"false\n")
    }
}

/// Writes the line of a reply.
pub fn write_reply<K: NumberKey + Bounded, W: Write>(reply: Reply<K>, out: &mut W) -> io::Result<()>
    ensures { OnOk result
        (Writes (W.contents out.old) (W.contents out.new) (SpellsReply reply)) }
{
    match reply {
        Reply::Done => out.write_all(b"ok\n"),
        Reply::Memory => out.write_all(b"memory\n"),
        Reply::Nothing => out.write_all(b"none\n"),
        Reply::Value(value) => write_number_line(value, out),
        Reply::Stored(stored) => write_item(&stored.0, &stored.1, out),
        Reply::Taken(range) => write_taken(&range, out),
        Reply::Fault => out.write_all(b"fault\n"),
        Reply::Truth(answer) => write_truth(answer, out),
        Reply::Number(number) => write_number_line(number, out),
    }
}
