//! Lines that are addresses, looked up in a list.

ghost use Rattle.std.specs.Prelude.{◌≡◌, Err, IfErr, IfOk, IfSome, MatchOption};
ghost use Rattle.address_lists.specs.declared.read.ListError.{ListError};
ghost use Rattle.address_lists.specs.declared.read.ListError.TheVariants.{Unread};
ghost use Rattle.line_program.specs.Listing.{Writes};
ghost use Rattle.address_lines.specs.Sought.{AreTold, AreToldUntil, IsAddressLine, IsBlank, IsNoAddress, IsToldOf};
ghost use Rattle.address_lines.specs.declared.sought.Halt.TheVariants.{Bad};

use address_lists::{Addresses, ListError, write_told};
use address_text::{Expected, content_of, excerpt_at};
use line_program::read::LineRead;
use std::alloc::Global;
use std::io::Write;
use std::net::IpAddr;

/// Why no further line is gone over.
#[derive(Drop)]
pub enum Halt {
    /// The lines cannot be read, or one is not what it has to be.
    Bad(ListError),
    /// Something cannot be written.
    Unwritable,
}

/// The address that a line of this number is, or `None` where it is blank.
pub(crate) fn address_of(line: &[u8], number: u64) -> Result<Option<IpAddr>, ListError>
    ensures found { IfOk result (λ found. MatchOption found (IsBlank line.now)
        (λ address. IsAddressLine line.now address)) }
    ensures bad { IfErr result (λ error. IsNoAddress number line.now error) }
{
    let text = content_of(line);
    if text.is_empty() {
        return Ok(None);
    }
    match IpAddr::parse_ascii(text) {
        Ok(address) => Ok(Some(address)),
        Err(_) => Err(ListError::BadLine {
            line: number,
            column: 1,
            expected: Expected::Address,
            found: excerpt_at(line, 1),
        }),
    }
}

/// Tells whether the list has the address that a line of this number is, and returns it.
fn tell_line<W: Write>(
    list: &Addresses,
    line: &[u8],
    number: u64,
    out: &mut W,
) -> Result<bool, Halt>
    ensures told { IfOk result (λ has. Writes (W.contents out.old) (W.contents out.new)
        (IsToldOf list.now line.now has)) }
    ensures bad { IfErr result (λ halt. (error : ListError) → halt ≡ Bad error
        → IsNoAddress number line.now error × (out.new ≡ out.old)) }
{
    match address_of(line, number) {
        Ok(None) => Ok(true),
        Ok(Some(address)) => match write_told(list, address, out) {
            Ok(has) => Ok(has),
            Err(_) => Err(Halt::Unwritable),
        },
        Err(error) => Err(Halt::Bad(error)),
    }
}

/// Tells of all lines, and returns whether the list has each of their addresses.
fn tell_lines<R: LineRead, W: Write>(
    buffer: &mut Vec<u8>,
    list: &Addresses,
    input: &mut R,
    out: &mut W,
) -> Result<bool, Halt>
    ensures told { IfOk result (λ all. IfSome (R.remaining input.old)
        (λ bytes. AreTold list.now bytes (W.contents out.old) (W.contents out.new) all)) }
    ensures bad { IfErr result (λ halt. (error : ListError) → halt ≡ Bad error
        → IfSome (R.remaining input.old) (λ bytes. AreToldUntil list.now bytes
        (W.contents out.old) (W.contents out.new) error)) }
    ensures unread { result ≡ Err (Bad Unread) → R.fails }
{
    let mut has_all = true;
    for number in 1..u64::MAX {
        match input.next_line(buffer) {
            Ok(true) => {}
            Ok(false) => return Ok(has_all),
            Err(error) => return Err(Halt::Bad(ListError::from(error))),
        }
        match tell_line(list, buffer.as_slice(), number, out) {
            Ok(has) => has_all &= has,
            Err(halt) => return Err(halt),
        }
    }
    Err(Halt::Bad(ListError::Memory))
}

/// Tells of the address in each line whether the list has it, a line each, and returns whether the
/// list has them all.
///
/// A line is an address, with a comment after `#` or without, and white space around it. Of one
/// that is blank or a comment nothing is told. Each line that is told is as
/// [`write_told`](address_lists::write_told) writes it. One buffer holds a line.
///
/// # Errors
///
/// `Bad` with `Unread` where a read of the lines failed, and nowhere else, with `Memory`, and with
/// `BadLine` at the first line that is no address: the lines before it are told of then.
/// `Unwritable` where something cannot be written.
pub fn write_told_lines<R: LineRead, W: Write>(
    alloc: Global,
    list: &Addresses,
    input: &mut R,
    out: &mut W,
) -> Result<bool, Halt>
    ensures told { IfOk result (λ all. IfSome (R.remaining input.old)
        (λ bytes. AreTold list.now bytes (W.contents out.old) (W.contents out.new) all)) }
    ensures bad { IfErr result (λ halt. (error : ListError) → halt ≡ Bad error
        → IfSome (R.remaining input.old) (λ bytes. AreToldUntil list.now bytes
        (W.contents out.old) (W.contents out.new) error)) }
    ensures unread { result ≡ Err (Bad Unread) → R.fails }
{
    let mut buffer = Vec::new(alloc);
    tell_lines(&mut buffer, list, input, out)
}
