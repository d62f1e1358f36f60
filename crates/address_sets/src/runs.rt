//! The addresses of a set that follow each other without a gap.

ghost use Rattle.std.specs.Prelude.{◌^◌, MatchOption};
ghost use Rattle.std.specs.Iterator.{YieldsFirst, item_count};
ghost use Rattle.btree_range_map.specs.Holding.{box_items};
ghost use Rattle.btree_range_map.specs.KeySets.{HoldsKey};
ghost use Rattle.address_prefixes.specs.Runs.{AreRuns, IsRunAround};

use crate::AddressSet;
use address_keys::Address;
use address_prefixes::span::span_of;
use btree_range_map::generic::set;
use btree_range_map::storage::Item;
use btree_range_map::{AnyRange, DefaultSetContainer};
use std::marker::Model;

/// The runs of a set that are left, in order: the numbers of the first and the last address of
/// each. A contract sees their list.
#[derive(Drop)]
pub struct Runs<'a, A: Address + 'a> {
    ranges: set::Iter<'a, A, DefaultSetContainer<Item<AnyRange<A>, ()>>>,
}

impl<'a, A: Address + 'a> Model for Runs<'a, A> {
    ghost use Rattle.std.specs.Prelude.{ℕ, List, map};
    ghost use Rattle.std.specs.List.{AllByRecursion};
    ghost use Rattle.address_prefixes.specs.Spans.{HasSpan, span};

    ghost Value = { List (ℕ × ℕ) };

    ghost view = { λ r. map (span A.number A.WIDTH) r.ranges };

    ghost invariant = { λ r. AllByRecursion (HasSpan A.number A.WIDTH) r.ranges };
}

impl<'a, A: Address + 'a> Iterator for Runs<'a, A> {
    type Item = (u128, u128);

    ghost next_gives = { YieldsFirst (λ rest. rest) };

    ghost remaining = { item_count (λ rest. rest) };

    fn next(&mut self) -> Option<(u128, u128)> {
        let range = self.ranges.next()?;
        Some(span_of(range))
    }
}

/// The addresses of a set that follow each other without a gap, as wide as they go, in ascending
/// order: the numbers of the first and the last of them.
///
/// Allocates nothing.
///
/// ```
/// // of a set of the addresses 10.0.0.0 to 10.0.0.5
/// assert!(rt; runs_of(&set).next() == Some((0x0a000000, 0x0a000005)));
/// ```
pub fn runs_of<A: Address>(set: &AddressSet<A>) -> Runs<'_, A>
    ensures { AreRuns (λ n. HoldsKey A.order (box_items set.now) (A.at n)) (2 ^ A.WIDTH) result }
{
    Runs { ranges: set.iter() }
}

/// The first and the last of the addresses that follow each other around one in a set, as numbers,
/// or `None` where it is not in the set.
///
/// Costs one search. Allocates nothing.
///
/// ```
/// // of a set of the addresses 10.0.0.0 to 10.0.0.5
/// assert!(rt; run_around(&set, Ipv4(0x0a000003)) == Some((0x0a000000, 0x0a000005)));
/// ```
pub fn run_around<A: Address>(set: &AddressSet<A>, address: A) -> Option<(u128, u128)>
    ensures { MatchOption result (¬ HoldsKey A.order (box_items set.now) address)
        (λ run. IsRunAround (λ n. HoldsKey A.order (box_items set.now) (A.at n)) (2 ^ A.WIDTH)
        (A.number address) run) }
{
    address.known();
    let _ranges = set.iter();
    match set.get(address) {
        Some(range) => Some(span_of(range)),
        None => None,
    }
}
