//! The ranges of a table by numbers.

ghost use Rattle.std.specs.Prelude.{◌≡◌, ◌<◌, ◌^◌, map, length, IfOk};
ghost use Rattle.btree_range_map.specs.Holding.{box_items};
ghost use Rattle.address_tables.specs.Numbers.{numbered};

use crate::AddressTable;
use crate::values::place_of;
use address_keys::Address;
use address_prefixes::span::span_of;
use shortest_tables::Span;
use std::alloc::{AllocError, Global};

/// The ranges of a table as spans, each with the place of its value.
pub(crate) fn spans_of<A: Address, V: Eq + Drop>(
    alloc: Global,
    table: &AddressTable<A, V>,
    values: &[&V],
) -> Result<Vec<Span<u32>>, AllocError>
    requires { length values.now < 2 ^ 32 }
    ensures { IfOk result (λ spans. spans.items
        ≡ map (numbered V.eq A.number A.WIDTH (map (λ v. v.now) values.now))
        (box_items table.now)) }
{
    let mut spans = Vec::new(alloc);
    let mut items = table.iter();
    while let Some((range, value)) = items.next() {
        let (first, last) = span_of(range);
        let value = place_of(values, value) as u32;
        spans.push(Span { first, last, value })?;
    }
    Ok(spans)
}
