//! How many addresses each value has.

ghost use Rattle.std.specs.Prelude.{OnOk};
ghost use Rattle.line_program.specs.Listing.{Writes};
ghost use Rattle.address_table_lists.specs.Counts.{AreCounted, IsCountOf};

use crate::parts::select;
use crate::print::PrintError;
use crate::table::Table;
use address_lists::write_counts;
use address_rows::Texts;
use std::alloc::Global;
use std::io::Write;

/// Writes how many addresses of each family have the value of this number and text.
fn write_value_count<W: Write>(
    alloc: Global,
    number: usize,
    text: &str,
    table: &Table,
    out: &mut W,
) -> Result<(), PrintError>
    ensures { OnOk result (Writes (W.contents out.old) (W.contents out.new)
        (IsCountOf table.now number text.now)) }
{
    let Ok(value) = u32::try_from(number) else {
        return Err(PrintError::Memory);
    };
    let Ok(list) = select(alloc, table, &[value]) else {
        return Err(PrintError::Memory);
    };
    let Ok(before) = format!(in alloc; "{text} ") else {
        return Err(PrintError::Memory);
    };
    match write_counts(before.as_str(), &list, out) {
        Ok(()) => Ok(()),
        Err(_) => Err(PrintError::Unwritable),
    }
}

/// Writes how many addresses of each family have each value, in the order in which the values came.
///
/// There are two lines for each, as `US IPv4 256` and `US IPv6 0`. Allocates the addresses of one
/// value at a time; where that fails, the lines before are written. Goes over the table once for
/// each value.
pub fn write_value_counts<W: Write>(
    alloc: Global,
    texts: &Texts,
    table: &Table,
    out: &mut W,
) -> Result<(), PrintError>
    ensures { OnOk result (Writes (W.contents out.old) (W.contents out.new)
        (AreCounted table.now 0 texts.now)) }
{
    for number in 0..texts.count() {
        write_value_count(alloc, number, texts.text(number), table, out)?;
    }
    Ok(())
}
