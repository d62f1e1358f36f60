//! Programs that answer lines, and how one is served.

ghost use Rattle.std.specs.Prelude.{◌≡◌, ◌≢◌, ◌≤◌, ◌⊎◌, ℕ, List, [], Ok, Err, OnOk, OnSome, IfSome, Some, true, false};
ghost use Rattle.std.specs.Io.BufRead.{first_line, drop_through};
ghost use Rattle.std.specs.Str.{IsUtf8};
ghost use Rattle.line_program.specs.Conversation.{Conversation, IsUnreadable};
ghost use Rattle.line_program.specs.Lines.{line_content};
ghost use Rattle.line_program.specs.Listing.{Writes};
ghost use Rattle.line_program.specs.Serving.{IsServed, IsStopped};
ghost use Rattle.line_program.specs.declared.program.Stop.TheVariants.{Unreadable};

use crate::line::without_line_end;
use crate::read::LineRead;
use memchr::memchr;
use std::alloc::Global;
use std::io::{self, Write};

/// A program that answers each line by a text.
pub trait LineProgram<W: Write> {
    /// The texts that may answer a line, each with the program as it is then.
    ghost answers: { Self → List ℕ → List ℕ → Self → Type 0 };

    /// Writes the answer to a line, which comes without its end.
    fn answer(&mut self, line: &str, out: &mut W) -> io::Result<()>
        ensures { OnOk result (Writes (W.contents out.old) (W.contents out.new)
            (λ text. answers self.old line.now text self.new)) };
}

/// Why serving stopped before the end of the input.
#[derive(Drop)]
pub enum Stop {
    /// A line cannot be read, or is no text in UTF-8.
    Unreadable,
    /// An answer cannot be written, or there are more lines than a `u64` counts.
    Unwritable,
}

// Answers a line, whose end may stand with it.
fn answer_line<P: LineProgram<W>, W: Write>(
    program: &mut P,
    line: &[u8],
    out: &mut W,
) -> Result<(), Stop>
    ensures answered { OnOk result (Writes (W.contents out.old) (W.contents out.new)
        (λ text. IsUtf8 (line_content line.now)
        × P.answers program.old (line_content line.now) text program.new)) }
    ensures unread { result ≡ Err Unreadable → (program.new ≡ program.old) × (out.new ≡ out.old)
        × ¬ IsUtf8 (line_content line.now) }
{
    let Ok(text) = str::from_utf8(without_line_end(line)) else {
        return Err(Stop::Unreadable);
    };
    match program.answer(text, out) {
        Ok(()) => Ok(()),
        Err(_) => Err(Stop::Unwritable),
    }
}

// Answers the next line and returns whether there was one, through the buffer.
fn answer_gathered<P: LineProgram<W>, R: LineRead, W: Write>(
    program: &mut P,
    line: &mut Vec<u8>,
    input: &mut R,
    out: &mut W,
) -> Result<bool, Stop>
    ensures ended { result ≡ Ok false → (program.new ≡ program.old) × (out.new ≡ out.old)
        × IfSome (R.remaining input.old)
        (λ bytes. (bytes ≡ []) × (R.remaining input.new ≡ Some [])) }
    ensures answered { result ≡ Ok true
        → IfSome (R.remaining input.old) (λ bytes. (bytes ≢ [])
        × (R.remaining input.new ≡ Some (drop_through 10 bytes)) × IsUtf8 (first_line bytes)
        × Writes (W.contents out.old) (W.contents out.new)
        (λ text. P.answers program.old (first_line bytes) text program.new)) }
    ensures unread { result ≡ Err Unreadable → (program.new ≡ program.old) × (out.new ≡ out.old)
        × IfSome (R.remaining input.old) (IsUnreadable R.fails) }
{
    match input.next_line(line) {
        Ok(true) => {}
        Ok(false) => return Ok(false),
        Err(_) => return Err(Stop::Unreadable),
    }
    answer_line(program, line.as_slice(), out)?;
    Ok(true)
}

// Answers the next line and returns whether there was one: where it lies in the reader's buffer, or
// through a buffer of its own where it reaches beyond that.
fn answer_next<P: LineProgram<W>, R: LineRead, W: Write>(
    program: &mut P,
    line: &mut Vec<u8>,
    input: &mut R,
    out: &mut W,
) -> Result<bool, Stop>
    ensures ended { result ≡ Ok false → (program.new ≡ program.old) × (out.new ≡ out.old)
        × IfSome (R.remaining input.old)
        (λ bytes. (bytes ≡ []) × (R.remaining input.new ≡ Some [])) }
    ensures answered { result ≡ Ok true
        → IfSome (R.remaining input.old) (λ bytes. (bytes ≢ [])
        × (R.remaining input.new ≡ Some (drop_through 10 bytes)) × IsUtf8 (first_line bytes)
        × Writes (W.contents out.old) (W.contents out.new)
        (λ text. P.answers program.old (first_line bytes) text program.new)) }
    ensures unread { result ≡ Err Unreadable → (program.new ≡ program.old) × (out.new ≡ out.old)
        × IfSome (R.remaining input.old) (IsUnreadable R.fails) }
{
    // No second read is relied on to fail or to end as the first did.
    match input.first_byte() {
        Ok(Some(_)) => {}
        Ok(None) => return Ok(false),
        Err(_) => return Err(Stop::Unreadable),
    }
    if let Ok(available) = input.fill_buf() {
        if let Some(at) = memchr(b'\n', available) {
            answer_line(program, &available[..at + 1], out)?;
            input.consume(at + 1);
            return Ok(true);
        }
    }
    answer_gathered(program, line, input, out)
}

/// Answers each line that is left, in order, and each before the next is read.
///
/// A line ends at `\n` or `\r\n`, or with the input. It is answered where it lies in the reader's
/// buffer. Only one that reaches beyond it is copied, into one buffer for all such lines. So this
/// allocates only where such a line is longer than each before it. An error says why no further
/// line is answered: at `Unreadable` the next one is no text, or a read fails.
pub fn answer_lines<P: LineProgram<W>, R: LineRead, W: Write>(
    alloc: Global,
    program: &mut P,
    input: &mut R,
    out: &mut W,
) -> Result<(), Stop>
    ensures ended { OnOk result (OnSome (R.remaining input.old) (R.remaining input.new ≡ Some [])) }
    ensures answered { OnOk result (IsServed
        (λ bytes text rest. Conversation P.answers program.old bytes text rest program.new)
        (R.remaining input.old) (W.contents out.old) (W.contents out.new)) }
    ensures unread { result ≡ Err Unreadable → IsStopped
        (λ bytes text rest. Conversation P.answers program.old bytes text rest program.new)
        R.fails (R.remaining input.old) (W.contents out.old) (W.contents out.new) }
{
    let mut line = Vec::new(alloc);
    for _ in 0..u64::MAX {
        if !answer_next(program, &mut line, input, out)? {
            return Ok(());
        }
    }
    Err(Stop::Unwritable)
}

/// Serves a program to the end of the input, and returns the exit status.
///
/// The status is 0 at the end of the input, and 1 where a line cannot be read or an answer cannot
/// be written. `out` is flushed before this returns and before `read error` goes to `err`, which
/// says that a line cannot be read; all lines before that very line are answered then.
pub fn serve<P: LineProgram<W>, R: LineRead, W: Write, E: Write>(
    alloc: Global,
    program: &mut P,
    input: &mut R,
    out: &mut W,
    err: &mut E,
) -> u8
    ensures status { result ≤ 1 }
    ensures silent { result ≡ 0 → err.new ≡ err.old }
    ensures answered { result ≡ 0 → IsServed
        (λ bytes text rest. Conversation P.answers program.old bytes text rest program.new)
        (R.remaining input.old) (W.contents out.old) (W.contents out.new) }
    ensures unread { result ≡ 1 → (err.new ≡ err.old) ⊎ IsStopped
        (λ bytes text rest. Conversation P.answers program.old bytes text rest program.new)
        R.fails (R.remaining input.old) (W.contents out.old) (W.contents out.new) }
{
    let served = answer_lines(alloc, program, input, out);
    let flushed = out.flush();
    match served {
        Ok(()) if flushed.is_ok() => 0,
        Err(Stop::Unreadable) => {
            let _ = err.write_all(b"read error\n");
            1
        }
        _ => 1,
    }
}
