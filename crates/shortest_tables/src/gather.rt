//! The labels of all blocks, from the bottom up.

ghost use Rattle.std.specs.Prelude.{◌≡◌, ◌+◌, ◌≤◌, ◌^◌, nat_eq, length, IfOk};
ghost use Rattle.shortest_tables.specs.Labels.{leaf};
ghost use Rattle.shortest_tables.specs.Numbers.{AreLeft, IsNumbered, as_labels};
ghost use Rattle.shortest_tables.specs.Trees.{IsBlockGathered, IsClear};

use crate::labels::join_labels;
use crate::marks::Marks;
use crate::spans::{Span, greatest_of, uniform};
use std::alloc::{AllocError, Global};

/// What is gathered of a block.
#[derive(Drop)]
pub(crate) struct Gathered<'a> {
    /// Its labels.
    pub best: Vec<u32>,
    /// The spans that end after it.
    pub left: &'a [Span<u32>],
}

/// The labels of a block whose addresses all have this.
fn leaf_labels(alloc: Global, label: Option<u32>) -> Result<Vec<u32>, AllocError>
    ensures { IfOk result (λ best. as_labels best.items ≡ leaf nat_eq label) }
{
    let mut best = Vec::new(alloc);
    if let Some(value) = label {
        best.push(value)?;
    }
    Ok(best)
}

/// Notes a block and its parts, and returns its labels.
pub(crate) fn gather<'a>(
    alloc: Global,
    left: &'a [Span<u32>],
    otherwise: Option<u32>,
    network: u128,
    free: u8,
    marks: &mut Marks,
) -> Result<Gathered<'a>, AllocError>
    requires left { AreLeft (length marks.old.seen.items) network left.now }
    requires otherwise { IsNumbered (length marks.old.seen.items) otherwise }
    requires clear { IsClear marks.old.seen.items }
    requires small { free ≤ 128 }
    requires fits { network + 2 ^ free ≤ 2 ^ 128 }
    ensures { IfOk result (λ found. IsBlockGathered otherwise left.now free network
        marks.old marks.new found.best.items found.left.now) }
{
    if let Some(all) = uniform(left, otherwise, network, free) {
        let best = leaf_labels(alloc, all.label)?;
        marks.push(false, best.as_slice())?;
        let left = all.left;
        return Ok(Gathered { best, left });
    }
    let middle = network + greatest_of(free - 1) + 1;
    let low = gather(alloc, left, otherwise, network, free - 1, marks)?;
    let high = gather(alloc, low.left, otherwise, middle, free - 1, marks)?;
    let best = join_labels(
        alloc,
        low.best.as_slice(),
        high.best.as_slice(),
        &mut marks.seen,
    )?;
    marks.push(true, best.as_slice())?;
    let left = high.left;
    Ok(Gathered { best, left })
}
