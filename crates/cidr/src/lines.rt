//! Lines of a text looked up in a list, and searched for its addresses.

ghost use Rattle.std.specs.Prelude.{◌≡◌, ◌⊎◌, ◌++◌, ◌∷◌, ℕ, String, [], IfErr, IfOk, IfSome, nat_lt};
ghost use Rattle.std.specs.declared.alloc.Global.{Global};
ghost use Rattle.address_lines.specs.Found.{AreAllFound};
ghost use Rattle.address_lines.specs.Sought.{AreTold, AreToldUntil};
ghost use Rattle.address_lists.specs.declared.addresses.Addresses.{Addresses};
ghost use Rattle.address_lists.specs.declared.read.ListError.TheVariants.{Unread};
ghost use Rattle.cidr.specs.Commands.{IsList, IsStop};
ghost use Rattle.cidr.specs.Lines.{IsHalted, IsSearchHalted, IsStopOf};
ghost use Rattle.cidr.specs.declared.serve.Stop.TheVariants.{Bad};

use crate::serve::{Reading, Source, Stop, read_source};
use address_lines::{Halt, Search, write_found_lines, write_told_lines};
use address_lists::Addresses;
use line_program::read::LineRead;
use std::alloc::Global;
use std::io::Write;

/// Why the lines of the text of this name are not gone over to their end.
fn stop_of(name: String, halt: Halt) -> Stop
    ensures { IsStopOf name halt result }
{
    match halt {
        Halt::Bad(error) => Stop::Bad(name, error),
        Halt::Unwritable => Stop::Unwritable,
    }
}

/// Tells of the address in each line whether the list has it, and returns whether it has them all.
fn tell<R: LineRead + Drop, W: Write>(
    alloc: Global,
    list: &Addresses,
    lines: Source<R>,
    out: &mut W,
) -> Result<bool, Stop>
    ensures told { IfOk result (λ all. IfSome (R.remaining lines.reader)
        (λ text. AreTold list.now text (W.contents out.old) (W.contents out.new) all)) }
    ensures bad { IfErr result (λ stop. IfSome (R.remaining lines.reader)
        (λ text. IsHalted list.now text lines.name (W.contents out.old) (W.contents out.new) stop)) }
    ensures unread { IfErr result (λ stop. (name : String Global)
        → stop ≡ Bad name Unread → R.fails) }
{
    let Source { name, mut reader } = lines;
    match write_told_lines(alloc, list, &mut reader, out) {
        Ok(has_all) => match out.flush() {
            Ok(()) => Ok(has_all),
            Err(_) => Err(Stop::Unwritable),
        },
        Err(halt) => {
            let _ = out.flush();
            Err(stop_of(name, halt))
        }
    }
}

/// Reads a list, tells of the address in each line whether the list has it, and returns whether it
/// has them all.
///
/// Of a line that is blank or a comment nothing is told. The first that is no address ends this;
/// the lines before it are told of. `out` is flushed. Adds to `left_out` how many bad lines are
/// left out of the list. One buffer holds a line.
pub fn look_up_lines<R: LineRead + Drop, W: Write>(
    alloc: Global,
    source: Source<R>,
    lines: Source<R>,
    reading: Reading,
    left_out: &mut Vec<u64>,
    out: &mut W,
) -> Result<bool, Stop>
    ensures told { IfOk result (λ all. IfSome (R.remaining source.reader)
        (λ bytes. (list : Addresses × ℕ) × IsList reading bytes list
        × (left_out.new.items ≡ left_out.old.items ++ list.1 ∷ [])
        × IfSome (R.remaining lines.reader)
        (λ text. AreTold list.0 text (W.contents out.old) (W.contents out.new) all))) }
    ensures bad { IfErr result (λ stop. IfSome (R.remaining source.reader)
        (λ bytes. IsStop reading (source.name ∷ []) (bytes ∷ []) stop
        ⊎ ((list : Addresses × ℕ) × IsList reading bytes list
        × IfSome (R.remaining lines.reader) (λ text. IsHalted list.0 text lines.name
        (W.contents out.old) (W.contents out.new) stop)))) }
    ensures unread { IfErr result (λ stop. (name : String Global)
        → stop ≡ Bad name Unread → R.fails) }
{
    let list = read_source(alloc, source, reading, left_out)?;
    tell(alloc, &list, lines, out)
}

/// Writes the lines of a text that hold an address of the list, as the search says, and returns
/// whether there is one. `before` stands before each. Where the text cannot be read to its end, the
/// lines before are written.
pub fn search_text<R: LineRead + Drop, W: Write>(
    alloc: Global,
    list: &Addresses,
    search: Search,
    before: &str,
    text: Source<R>,
    out: &mut W,
) -> Result<bool, Stop>
    ensures found { IfOk result (λ found. IfSome (R.remaining text.reader)
        (λ bytes. (count : ℕ) × (found ≡ nat_lt 0 count) × AreAllFound list.now search before.now
        bytes (W.contents out.old) (W.contents out.new) count)) }
    ensures bad { IfErr result (λ stop. IfSome (R.remaining text.reader)
        (λ bytes. IsSearchHalted list.now search before.now bytes text.name (W.contents out.old)
        (W.contents out.new) stop)) }
    ensures unread { IfErr result (λ stop. (name : String Global)
        → stop ≡ Bad name Unread → R.fails) }
{
    let Source { name, mut reader } = text;
    match write_found_lines(alloc, list, search, before, &mut reader, out) {
        Ok(count) => Ok(count > 0),
        Err(halt) => Err(stop_of(name, halt)),
    }
}
