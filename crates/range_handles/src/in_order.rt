//! A map made at once of ranges that are in order.
ghost use Rattle.std.specs.Prelude.{◌≡◌, [], map, nat_eq, IfOk, IfSome};
ghost use Rattle.btree_range_map.specs.MapExtending.{AreBoundAfter};
ghost use Rattle.btree_range_map.specs.Iteration.{pair_item};
ghost use Rattle.btree_range_map.specs.Holding.{box_items};

use crate::key::Key;
use btree_range_map::generic::map::stored_lists_bind_once;
use btree_range_map::{AnyRange, RangeMap};
use range_ffi::items::Told;
use std::alloc::{AllocError, Global};

/// The ranges with their values.
fn pairs_of<K: Key, E: Told<K, u64>>(
    alloc: Global,
    entries: &[E],
) -> Result<Vec<(AnyRange<K>, u64)>, AllocError>
    ensures { IfOk result (λ pairs. map pair_item pairs.items ≡ map E.told entries.now) }
{
    let mut pairs = Vec::with_capacity(alloc, entries.len())?;
    let mut count = 0;
    while count < entries.len() {
        let item = entries[count].item();
        pairs.push(item.into_pair())?;
        count += 1;
    }
    Ok(pairs)
}

/// A map that binds the keys of each range to the value beside it, where the ranges are in order and
/// there is enough memory.
///
/// Allocates a list of the ranges and what a map allocates that is built of one. Costs no search.
pub fn map_in_order<K: Key, E: Told<K, u64>>(
    alloc: Global,
    entries: &[E],
) -> Option<RangeMap<K, u64>>
    ensures { IfSome result
        (λ new. AreBoundAfter K.order nat_eq [] (box_items new) (map E.told entries.now)) }
{
    stored_lists_bind_once::<K, u64>();
    let Ok(pairs) = pairs_of(alloc, entries) else {
        return None;
    };
    match RangeMap::from_sorted(alloc, pairs) {
        Ok(made) => Some(made),
        Err(_) => None,
    }
}
