//! The entries of all blocks, from the top down.

ghost use Rattle.std.specs.Prelude.{◌≡◌, ◌+◌, ◌≤◌, ◌^◌, ◌++◌, OnOk};
ghost use Rattle.shortest_tables.specs.Entries.{own, placed};
ghost use Rattle.shortest_tables.specs.Trees.{IsWritten};

use crate::entries::Entry;
use crate::marks::Marks;
use crate::spans::greatest_of;
use std::alloc::AllocError;

/// Adds the entry of a block, where it has one of its own.
fn push_own(
    value: Option<u32>,
    network: u128,
    free: u8,
    width: u8,
    table: &mut Vec<Entry<u32>>,
) -> Result<(), AllocError>
    requires { free ≤ width }
    ensures { OnOk result (table.new.items ≡ table.old.items
        ++ placed width free network (own value)) }
{
    if let Some(value) = value {
        table.push(Entry {
            network,
            length: width - free,
            value,
        })?;
    }
    Ok(())
}

/// Takes a block and its parts out of what is noted, and adds their entries below a label from
/// above, the last one first.
pub(crate) fn push_entries(
    marks: &mut Marks,
    network: u128,
    free: u8,
    width: u8,
    above: Option<u32>,
    table: &mut Vec<Entry<u32>>,
) -> Result<(), AllocError>
    requires inside { free ≤ width }
    requires small { width ≤ 128 }
    requires fits { network + 2 ^ free ≤ 2 ^ 128 }
    ensures { OnOk result (IsWritten width free network above marks.old marks.new
        table.old.items table.new.items) }
{
    let taken = marks.pop(above);
    if taken.is_divided && free > 0 {
        let middle = network + greatest_of(free - 1) + 1;
        push_entries(marks, middle, free - 1, width, taken.label, table)?;
        push_entries(marks, network, free - 1, width, taken.label, table)?;
    }
    push_own(taken.own, network, free, width, table)
}
