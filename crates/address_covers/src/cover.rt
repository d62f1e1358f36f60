//! The set that adds the fewest addresses to another, of those that so many prefixes have.

ghost use Rattle.std.specs.Prelude.{◌<◌, ◌↔◌, IfOk, IsTrue};
ghost use Rattle.btree_range_map.specs.FreeRanges.{item_ranges};
ghost use Rattle.btree_range_map.specs.Holding.{box_items};
ghost use Rattle.btree_range_map.specs.Range.{ClonesAreEqual};
ghost use Rattle.btree_range_map.specs.Together.{BindKeysOf};
ghost use Rattle.address_covers.specs.Covers.{AreAdded, AreLeast, HaveAtMost};

use crate::blocks::{runs_in, set_of};
use address_sets::{Address, AddressSet, PrefixSet};
use btree_range_map::MapError;
use least_covers::least_cover as least_blocks;
use std::alloc::Global;

/// A set that has all addresses of another, and more.
#[derive(Drop)]
pub struct Cover<A: Address> {
    /// The set.
    pub set: AddressSet<A>,
    /// How many of its addresses the other set does not have.
    pub added: u128,
}

/// Whether at most so many prefixes have just the addresses of a set.
///
/// Goes over no more of its prefixes than that and one. Allocates nothing.
fn is_within<A: Address>(set: &AddressSet<A>, most: u32) -> bool
    ensures { IsTrue result ↔ HaveAtMost A.number A.order A.WIDTH most
        (item_ranges (box_items set.now)) }
{
    set.prefixes().nth(most as usize).is_none()
}

/// The addresses of a set and the fewest others, such that at most so many prefixes have them.
///
/// Where that many prefixes have the addresses of the set, it is returned as it is: this costs time
/// for each of them, and allocates nothing. Else allocates another set, and for the time of the
/// call a list of the ranges and, for each way to divide a block in which the set has addresses and
/// gaps, 4 bytes for each number of prefixes. Fails where an allocation does. Costs time for each
/// bit of each range, and as many additions as there are such ways to share the prefixes between
/// two halves.
///
/// ```
/// // of a set of the addresses 10.0.0.0 to 10.0.0.2 and 10.0.0.9
/// let cover = least_cover(alloc, set, 2)?; // 10.0.0.0/30 and 10.0.0.9/32
/// assert!(rt; cover.added == 1);
/// ```
pub fn least_cover<A: Address>(
    alloc: Global,
    set: AddressSet<A>,
    most: u32,
) -> Result<Cover<A>, MapError>
    requires clones { ClonesAreEqual A.is_clone A.eq }
    requires some { 0 < most }
    ensures covers { IfOk result
        (λ cover. BindKeysOf A.order (box_items set) (box_items cover.set)) }
    ensures within { IfOk result (λ cover. HaveAtMost A.number A.order A.WIDTH most
        (item_ranges (box_items cover.set))) }
    ensures least { IfOk result (λ cover. AreLeast A.number A.order A.WIDTH most
        (box_items set) (box_items cover.set)) }
    ensures added { IfOk result (λ cover. AreAdded A.order (box_items set)
        (box_items cover.set) cover.added) }
{
    if is_within(&set, most) {
        return Ok(Cover { set, added: 0 });
    }
    let runs = runs_in(alloc, &set)?;
    let found = least_blocks(alloc, runs.as_slice(), most, A::WIDTH)?;
    drop(runs);
    let set = set_of(alloc, found.blocks.as_slice())?;
    let added = found.added;
    Ok(Cover { set, added })
}
