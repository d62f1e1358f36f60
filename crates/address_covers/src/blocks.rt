//! Sets of addresses by blocks of numbers.

ghost use Rattle.std.specs.Prelude.{◌≡◌, ◌+◌, ◌-◌, ◌^◌, IfOk, OnOk};
ghost use Rattle.std.specs.List.{AllByRecursion};
ghost use Rattle.btree_range_map.specs.Holding.{box_items};
ghost use Rattle.btree_range_map.specs.KeySets.{HoldsAlso, HoldsKey};
ghost use Rattle.btree_range_map.specs.Names.{range_inclusive};
ghost use Rattle.btree_range_map.specs.Range.{ClonesAreEqual};
ghost use Rattle.address_prefixes.specs.Runs.{AreRuns};
ghost use Rattle.address_covers.specs.Blocks.{HoldsBlocks, block_range};
ghost use Rattle.least_covers.specs.Trees.{IsBlock};

use address_prefixes::prefix::greatest_of;
use address_sets::{Address, AddressSet, runs_of};
use btree_range_map::MapError;
use least_covers::Block;
use std::alloc::{AllocError, Global};

/// The addresses of a set that follow each other without a gap, as numbers.
pub(crate) fn runs_in<A: Address>(
    alloc: Global,
    set: &AddressSet<A>,
) -> Result<Vec<(u128, u128)>, AllocError>
    ensures { IfOk result (λ runs. AreRuns (λ n. HoldsKey A.order (box_items set.now) (A.at n))
        (2 ^ A.WIDTH) runs.items) }
{
    let mut found = Vec::new(alloc);
    let mut runs = runs_of(set);
    while let Some(run) = runs.next() {
        found.push(run)?;
    }
    Ok(found)
}

/// Adds the addresses from the first to the last.
fn insert<A: Address>(set: &mut AddressSet<A>, first: A, last: A) -> Result<(), MapError>
    requires { ClonesAreEqual A.is_clone A.eq }
    ensures { OnOk result (HoldsAlso A.order (box_items set.old) (box_items set.new)
        (range_inclusive first last)) }
{
    set.insert(first..=last)
}

/// Adds the addresses of a block.
fn add_block<A: Address>(set: &mut AddressSet<A>, block: Block) -> Result<(), MapError>
    requires clones { ClonesAreEqual A.is_clone A.eq }
    requires block { IsBlock A.WIDTH block }
    ensures { OnOk result (HoldsAlso A.order (box_items set.old) (box_items set.new)
        (block_range A.at A.WIDTH block)) }
{
    let rest = greatest_of(A::WIDTH - block.length);
    let last = A::at(block.network + rest);
    insert(set, A::at(block.network), last)
}

/// The set of the addresses of some blocks.
pub(crate) fn set_of<A: Address>(alloc: Global, blocks: &[Block]) -> Result<AddressSet<A>, MapError>
    requires clones { ClonesAreEqual A.is_clone A.eq }
    requires blocks { AllByRecursion (IsBlock A.WIDTH) blocks.now }
    ensures { IfOk result (λ set. HoldsBlocks A.order A.at A.WIDTH (box_items set) blocks.now) }
{
    let mut set = AddressSet::new(alloc);
    for block in blocks {
        add_block(&mut set, *block)?;
    }
    Ok(set)
}
