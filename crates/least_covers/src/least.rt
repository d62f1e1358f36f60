//! The blocks that add the fewest numbers.

ghost use Rattle.std.specs.Prelude.{◌≡◌, ◌+◌, ◌≤◌, ◌<◌, ◌^◌, length, IfOk};
ghost use Rattle.std.specs.List.{AllByRecursion};
ghost use Rattle.least_covers.specs.Covers.{AreBetween, Covers, IsLeast, held, how_many};
ghost use Rattle.least_covers.specs.Rows.{at};
ghost use Rattle.least_covers.specs.Runs.{AreAscending, has};
ghost use Rattle.least_covers.specs.Trees.{IsBlock};

use crate::blocks::Block;
use crate::gather::gather;
use crate::marks::Marks;
use crate::write::push_chosen;
use std::alloc::{AllocError, Global};

/// Blocks that hold all numbers of some runs, and others.
#[derive(Drop)]
pub struct Cover {
    /// The blocks, in ascending order.
    pub blocks: Vec<Block>,
    /// How many of the numbers that they hold are in none of the runs.
    pub added: u128,
}

/// The number of a row for so many prefixes.
fn added_with(row: &[u128], most: u32) -> u128
    ensures { result ≡ at row.now most }
{
    let place = row.len().min(most as usize).saturating_sub(1);
    row.get(place).copied().unwrap_or(0)
}

/// The blocks, of at most so many, that hold the numbers of some runs and add the fewest others.
///
/// Numbers have so many bits. The blocks ascend, and no two overlap. Costs, for each bit of each
/// run, some time, and for each way to share the prefixes between two halves of a block that both
/// have numbers of the runs an addition: for n blocks without a limit, about n times as many as the
/// limit. Allocates 4 bytes for each number of prefixes that such a block can have.
pub fn least_cover(
    alloc: Global,
    runs: &[(u128, u128)],
    most: u32,
    width: u8,
) -> Result<Cover, AllocError>
    requires runs { AreAscending 0 runs.now }
    requires some { 0 < most }
    requires small { width ≤ 128 }
    ensures blocks { IfOk result (λ cover. AllByRecursion (IsBlock width) cover.blocks.items) }
    ensures ascending { IfOk result (λ cover. AreBetween width 0 (2 ^ width) cover.blocks.items) }
    ensures within { IfOk result (λ cover. length cover.blocks.items ≤ most) }
    ensures covers { IfOk result (λ cover. Covers width runs.now cover.blocks.items) }
    ensures least { IfOk result (λ cover. IsLeast width most runs.now cover.blocks.items) }
    ensures added { IfOk result (λ cover. held width cover.blocks.items
        ≡ how_many (2 ^ width) (has runs.now) + cover.added) }
{
    let mut marks = Marks::new(alloc);
    let found = gather(alloc, runs, 0, width, most, &mut marks)?;
    let mut blocks = Vec::new(alloc);
    if found.part.row.is_empty() {
        return Ok(Cover { blocks, added: 0 });
    }
    let added = added_with(found.part.row.as_slice(), most);
    push_chosen(&mut marks, most, width, &mut blocks)?;
    blocks.reverse();
    Ok(Cover { blocks, added })
}
