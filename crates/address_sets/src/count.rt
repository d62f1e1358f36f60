//! How many addresses a set has.

ghost use Rattle.std.specs.Prelude.{◌≡◌, ◌≤◌, ◌^◌, map, MatchOption};
ghost use Rattle.std.specs.List.{AllByRecursion};
ghost use Rattle.btree_range_map.specs.KeySets.{HoldsKey};
ghost use Rattle.btree_range_map.specs.Numbers.{IsNumberOfKeys};
ghost use Rattle.address_prefixes.specs.Spans.{HasSpan, span};
ghost use Rattle.address_sets.specs.Counts.{total};

use address_keys::Address;
use address_prefixes::span::span_of;
use btree_range_map::AnyRange;
use btree_range_map::generic::set::{self, RangeSet};
use btree_range_map::storage::{Item, Storage};

/// How many addresses some ranges of a set have together, if they are fewer than 2^128.
fn counted<A: Address, C: Storage<Item<AnyRange<A>, ()>>>(
    mut ranges: set::Iter<'_, A, C>,
) -> Option<u128>
    requires { AllByRecursion (HasSpan A.number A.WIDTH) ranges }
    ensures { MatchOption result (2 ^ 128 ≤ total (map (span A.number A.WIDTH) ranges.entry))
        (λ n. n ≡ total (map (span A.number A.WIDTH) ranges.entry)) }
{
    let mut count = 0u128;
    while let Some(range) = ranges.next() {
        let (first, last) = span_of(range);
        count = count.checked_add(last - first)?.checked_add(1)?;
    }
    Some(count)
}

/// How many addresses a set has, or `None` for all 2^128 of IPv6.
///
/// Goes once over the stored ranges. Allocates nothing.
///
/// ```
/// // of a set of the addresses 10.0.0.0 to 10.0.0.5
/// assert!(rt; address_count(&set) == Some(6));
/// ```
pub fn address_count<A: Address, C: Storage<Item<AnyRange<A>, ()>>>(
    set: &RangeSet<A, C>,
) -> Option<u128>
    ensures { MatchOption result
        (IsNumberOfKeys A.order (HoldsKey A.order (C.items set.now)) (2 ^ 128))
        (λ n. IsNumberOfKeys A.order (HoldsKey A.order (C.items set.now)) n) }
{
    counted(set.iter())
}
