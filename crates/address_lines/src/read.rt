//! Lines that are addresses, read.

ghost use Rattle.std.specs.Prelude.{◌≡◌, ◌⊎◌, ℕ, [], Err, IfErr, IfOk, IfSome, OnOk};
ghost use Rattle.address_lists.specs.declared.read.ListError.TheVariants.{Memory, Unread};
ghost use Rattle.address_lines.specs.Sought.{AreSought, IsAddedOf, IsNoAddress, IsUnreadAt};

use crate::sought::address_of;
use address_lists::ListError;
use line_program::read::LineRead;
use std::alloc::Global;
use std::net::IpAddr;

/// Adds the address that a line of this number is, where it is not blank.
fn add_line(addresses: &mut Vec<IpAddr>, line: &[u8], number: u64) -> Result<(), ListError>
    ensures added { OnOk result (IsAddedOf line.now addresses.old.items addresses.new.items) }
    ensures bad { IfErr result (λ error. (error ≡ Memory) ⊎ IsNoAddress number line.now error) }
{
    match address_of(line, number) {
        Ok(None) => Ok(()),
        Ok(Some(address)) => match addresses.push(address) {
            Ok(()) => Ok(()),
            Err(_) => Err(ListError::Memory),
        },
        Err(error) => Err(error),
    }
}

/// Reads lines that are addresses.
///
/// A line is an address, with a comment after `#` or without, and white space around it, or it is
/// blank. Allocates the addresses, and one buffer that holds a line.
///
/// # Errors
///
/// `Unread` where a read of the lines failed, and nowhere else, `Memory`, and `BadLine` at the
/// first line that is no address.
pub fn read_line_addresses<R: LineRead>(
    alloc: Global,
    input: &mut R,
) -> Result<Vec<IpAddr>, ListError>
    ensures read { IfOk result (λ addresses. IfSome (R.remaining input.old)
        (λ bytes. (last : ℕ) × AreSought 1 bytes addresses.items last [])) }
    ensures bad { IfErr result (λ error. IfSome (R.remaining input.old)
        (λ bytes. IsUnreadAt bytes error)) }
    ensures unread { result ≡ Err Unread → R.fails }
{
    let mut buffer = Vec::new(alloc);
    let mut addresses = Vec::new(alloc);
    for number in 1..u64::MAX {
        match input.next_line(&mut buffer) {
            Ok(true) => {}
            Ok(false) => return Ok(addresses),
            Err(error) => return Err(ListError::from(error)),
        }
        match add_line(&mut addresses, buffer.as_slice(), number) {
            Ok(()) => {}
            Err(error) => return Err(error),
        }
    }
    Err(ListError::Memory)
}
