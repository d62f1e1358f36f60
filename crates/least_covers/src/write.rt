//! The blocks that are chosen, from the top down.

ghost use Rattle.std.specs.Prelude.{◌≡◌, ◌≤◌, ◌++◌, vec_len, OnOk};
ghost use Rattle.least_covers.specs.Trees.{IsWritten, own};

use crate::blocks::Block;
use crate::marks::{Marks, Taken};
use std::alloc::AllocError;

/// Adds a block, where one prefix is for all of it.
fn push_own(taken: Taken, width: u8, blocks: &mut Vec<Block>) -> Result<(), AllocError>
    ensures { OnOk result (blocks.new.items ≡ blocks.old.items
        ++ own width taken.is_own taken.network taken.free) }
{
    if taken.is_own {
        blocks.push(Block {
            network: taken.network,
            length: width.saturating_sub(taken.free),
        })?;
    }
    Ok(())
}

/// Takes a block and its parts out of what is noted, and adds the blocks that are chosen of them
/// with so many prefixes, the last one first.
#[tactic(none)]
pub(crate) fn push_chosen(
    marks: &mut Marks,
    prefixes: u32,
    width: u8,
    blocks: &mut Vec<Block>,
) -> Result<(), AllocError>
    ensures fewer { vec_len marks.new.nodes ≤ vec_len marks.old.nodes }
    ensures written { OnOk result (IsWritten width prefixes marks.old marks.new
        blocks.old.items blocks.new.items) }
{
    let taken = marks.pop(prefixes);
    if taken.is_divided {
        push_chosen(marks, taken.high, width, blocks)?;
        push_chosen(marks, taken.low, width, blocks)?;
    }
    push_own(taken, width, blocks)
}
