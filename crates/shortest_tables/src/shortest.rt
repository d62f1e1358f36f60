//! The shortest table of a map.

ghost use Rattle.std.specs.Prelude.{◌≡◌, ◌≤◌, ◌<◌, [], length, IfOk};
ghost use Rattle.std.specs.List.{AllByRecursion};
ghost use Rattle.shortest_tables.specs.Entries.{AreFewest, IsBlock, RoutesAs};
ghost use Rattle.shortest_tables.specs.Numbers.{AreAscending, IsNumbered, value_at};
ghost use Rattle.shortest_tables.specs.Trees.{IsClear};

use crate::entries::Entry;
use crate::gather::gather;
use crate::marks::Marks;
use crate::spans::Span;
use crate::write::push_entries;
use std::alloc::{AllocError, Global};

/// Nothing, and no value below the bound met.
fn empty_marks(alloc: Global, count: u32) -> Result<Marks, AllocError>
    ensures { IfOk result (λ marks. (marks.nodes.items ≡ []) × (marks.labels.items ≡ [])
        × (length marks.seen.items ≡ count) × IsClear marks.seen.items) }
{
    Ok(Marks {
        nodes: Vec::new(alloc),
        labels: Vec::new(alloc),
        seen: vec![in alloc; false; count as usize]?,
    })
}

/// The shortest table of prefixes of addresses of so many bits that routes each address to the
/// value of the span that has it, and an address that none has to `otherwise`, or nowhere.
///
/// The spans ascend, and their values are below `count`. The entries ascend by network, and then by
/// length. Costs time for each bit of each span, and memory for each block that has different
/// values.
pub fn shortest_table(
    alloc: Global,
    spans: Vec<Span<u32>>,
    otherwise: Option<u32>,
    count: u32,
    width: u8,
) -> Result<Vec<Entry<u32>>, AllocError>
    requires spans { AreAscending count 0 spans.items }
    requires otherwise { IsNumbered count otherwise }
    requires small { width ≤ 128 }
    ensures blocks { IfOk result (λ table. AllByRecursion (IsBlock width) table.items) }
    ensures values { IfOk result (λ table. AllByRecursion (λ e. e.value < count) table.items) }
    ensures routes { IfOk result
        (λ table. RoutesAs width (value_at otherwise spans.items) table.items) }
    ensures fewest { IfOk result
        (λ table. AreFewest width (value_at otherwise spans.items) table.items) }
{
    let mut marks = empty_marks(alloc, count)?;
    gather(alloc, spans.as_slice(), otherwise, 0, width, &mut marks)?;
    drop(spans);
    let mut table = Vec::new(alloc);
    push_entries(&mut marks, 0, width, width, None, &mut table)?;
    table.reverse();
    Ok(table)
}
