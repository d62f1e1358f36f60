//! The prefixes of a set, in ascending order, as few as can be.

ghost use Rattle.std.specs.Prelude.{◌≡◌, ◌++◌, List, [], None, IfSome};
ghost use Rattle.std.specs.Iterator.{YieldsFirst, item_count};
ghost use Rattle.std.specs.List.{AllByRecursion};
ghost use Rattle.btree_range_map.specs.AnyRange.{AnyRange};
ghost use Rattle.btree_range_map.specs.FreeRanges.{item_ranges};
ghost use Rattle.btree_range_map.specs.Holding.{box_items};
ghost use Rattle.address_prefixes.specs.Prefixes.{AreAscending, AreFewest, HaveJust, IsPrefix};
ghost use Rattle.address_prefixes.specs.Runs.{IsSpan};
ghost use Rattle.address_prefixes.specs.Tiles.{part_tiles, run_tiles};

use crate::runs::{Runs, runs_of};
use address_keys::Address;
use address_prefixes::Prefix;
use address_prefixes::divide::divide;
use btree_range_map::RangeSet;
use std::marker::Model;

/// The prefixes of a set that are left, in order. A contract sees their list.
///
/// Each costs some steps for each bit of an address. Allocates nothing.
#[derive(Drop)]
pub struct Prefixes<'a, A: Address + 'a> {
    runs: Runs<'a, A>,
    part: Option<(u128, u128)>,
}

impl<'a, A: Address + 'a> Model for Prefixes<'a, A> {
    ghost use Rattle.std.specs.Prelude.{◌++◌, List, IfSome};
    ghost use Rattle.std.specs.List.{AllByRecursion};
    ghost use Rattle.address_prefixes.specs.declared.prefix.Prefix.{Prefix};
    ghost use Rattle.address_prefixes.specs.Runs.{IsSpan};
    ghost use Rattle.address_prefixes.specs.Tiles.{part_tiles, run_tiles};

    ghost Value = { List (Prefix A) };

    ghost view = { λ p. part_tiles A.at A.WIDTH p.part ++ run_tiles A.at A.WIDTH p.runs };

    ghost invariant = { λ p. IfSome p.part (IsSpan A.WIDTH)
        × AllByRecursion (IsSpan A.WIDTH) p.runs };
}

/// The first and last number of what is next to be divided into prefixes.
fn next_part<A: Address>(part: Option<(u128, u128)>, runs: &mut Runs<'_, A>) -> Option<(u128, u128)>
    requires part { IfSome part (IsSpan A.WIDTH) }
    requires runs { AllByRecursion (IsSpan A.WIDTH) runs.old }
    ensures part { IfSome result (IsSpan A.WIDTH) }
    ensures runs { AllByRecursion (IsSpan A.WIDTH) runs.new }
    ensures same { part_tiles A.at A.WIDTH part ++ run_tiles A.at A.WIDTH runs.old
        ≡ part_tiles A.at A.WIDTH result ++ run_tiles A.at A.WIDTH runs.new }
    ensures none { result ≡ None → (part ≡ None) × (runs.new ≡ []) }
{
    match part {
        Some(part) => Some(part),
        None => runs.next(),
    }
}

impl<'a, A: Address + 'a> Iterator for Prefixes<'a, A> {
    type Item = Prefix<A>;

    ghost next_gives = { YieldsFirst (λ rest. rest) };

    ghost remaining = { item_count (λ rest. rest) };

    fn next(&mut self) -> Option<Prefix<A>> {
        let (first, last) = next_part(self.part, &mut self.runs)?;
        let (prefix, part) = divide(first, last);
        self.part = part;
        Some(prefix)
    }
}

/// What a set of addresses is as prefixes.
pub trait PrefixSet<A: Address> {
    /// The ranges that hold the addresses of the set.
    ghost ranges: { Self → List (AnyRange A) };

    /// The prefixes that have just the addresses of the set, in ascending order and as few as can
    /// be. Allocates nothing.
    ///
    /// ```
    /// // of a set of the addresses 10.0.0.0 to 10.0.0.5
    /// assert!(rt; set.prefixes().count() == 2); // 10.0.0.0/30 and 10.0.0.4/31
    /// ```
    fn prefixes(&self) -> Prefixes<'_, A>
        ensures exact { HaveJust A.number A.order result (ranges self.now) }
        ensures whole { AllByRecursion (IsPrefix A.number A.WIDTH) result }
        ensures ascending { AreAscending A.number result }
        ensures fewest { AreFewest A.number A.order A.WIDTH result (ranges self.now) };
}

impl<A: Address> PrefixSet<A> for RangeSet<A> {
    ghost ranges = { λ set. item_ranges (box_items set) };

    fn prefixes(&self) -> Prefixes<'_, A>
        ensures exact { HaveJust A.number A.order result (item_ranges (box_items self.now)) }
        ensures whole { AllByRecursion (IsPrefix A.number A.WIDTH) result }
        ensures ascending { AreAscending A.number result }
        ensures fewest { AreFewest A.number A.order A.WIDTH result
            (item_ranges (box_items self.now)) }
    {
        Prefixes {
            runs: runs_of(self),
            part: None,
        }
    }
}
