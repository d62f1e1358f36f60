//! What is done with the addresses of one family.
//!
//! Each function is one call of the library, proved once for both families.

ghost use Rattle.std.specs.Prelude.{◌↔◌, IfOk, IsTrue, OnOk};
ghost use Rattle.btree_range_map.specs.Holding.{box_items};
ghost use Rattle.btree_range_map.specs.KeySets.{HoldsAlso, HoldsTheOthers};
ghost use Rattle.btree_range_map.specs.Names.{range_inclusive};
ghost use Rattle.btree_range_map.specs.Range.{ClonesAreEqual};
ghost use Rattle.btree_range_map.specs.Together.{BindKeysOf, ShareNoKey};
ghost use Rattle.btree_range_map.specs.TwoSets.{HoldsBoth, HoldsEither, HoldsJustOne};

use address_sets::{Address, AddressSet};
use btree_range_map::MapError;

/// Adds the addresses from the first to the last.
pub(crate) fn insert<A: Address>(set: &mut AddressSet<A>, first: A, last: A) -> Result<(), MapError>
    requires { ClonesAreEqual A.is_clone A.eq }
    ensures { OnOk result (HoldsAlso A.order (box_items set.old) (box_items set.new)
        (range_inclusive first last)) }
{
    set.insert(first..=last)
}

/// Adds the addresses of the other set.
pub(crate) fn join<A: Address>(
    set: &mut AddressSet<A>,
    other: &AddressSet<A>,
) -> Result<(), MapError>
    requires { ClonesAreEqual A.is_clone A.eq }
    ensures { OnOk result (HoldsEither A.order (box_items set.old) (box_items other.now)
        (box_items set.new)) }
{
    set.extend_from(other)
}

/// Keeps the addresses that the other set has too.
pub(crate) fn keep_common<A: Address>(
    set: &mut AddressSet<A>,
    other: &AddressSet<A>,
) -> Result<(), MapError>
    requires { ClonesAreEqual A.is_clone A.eq }
    ensures { OnOk result (HoldsBoth A.order (box_items set.old) (box_items other.now)
        (box_items set.new)) }
{
    set.retain_all(other)
}

/// The addresses that just one of both sets has.
pub(crate) fn symmetric_difference<A: Address>(
    set: &AddressSet<A>,
    other: &AddressSet<A>,
) -> Result<AddressSet<A>, MapError>
    requires { ClonesAreEqual A.is_clone A.eq }
    ensures { IfOk result (λ new. HoldsJustOne A.order (box_items set.now)
        (box_items other.now) (box_items new)) }
{
    set.symmetric_difference(other)
}

/// The addresses that the set does not have.
pub(crate) fn inverse<A: Address>(set: &AddressSet<A>) -> Result<AddressSet<A>, MapError>
    requires { ClonesAreEqual A.is_clone A.eq }
    ensures { IfOk result
        (λ others. HoldsTheOthers A.order (box_items set.now) (box_items others)) }
{
    set.complement()
}

/// Whether the other set has each address of the set.
pub(crate) fn is_subset<A: Address>(set: &AddressSet<A>, other: &AddressSet<A>) -> bool
    ensures { IsTrue result ↔ BindKeysOf A.order (box_items set.now) (box_items other.now) }
{
    set.is_subset(other)
}

/// Whether no address is in both sets.
pub(crate) fn is_disjoint<A: Address>(set: &AddressSet<A>, other: &AddressSet<A>) -> bool
    ensures { IsTrue result ↔ ShareNoKey A.order (box_items set.now) (box_items other.now) }
{
    set.is_disjoint(other)
}
