//! The ranges that the items of a container leave free.
ghost use Rattle.std.specs.Prelude.{◌≡◌, ◌++◌, [], Some};
ghost use Rattle.std.specs.declared.ops.Bound.TheVariants.{Unbounded};
ghost use Rattle.std.specs.Iterator.{YieldsFirstBy, item_count};
ghost use Rattle.std.specs.Option.{option_map};
ghost use Rattle.range_algebra.specs.References.{range_of};
ghost use Rattle.range_runs.specs.Window.{option_items};
ghost use Rattle.range_reads.specs.FreeRanges.{free_after, free_from};

use crate::iter::Iter;
use range_algebra::any::AnyRange;
use range_keys::traits::PartialEnum;
use range_runs::bounds::flip;
use range_runs::pieces::range_between;
use range_store::storage::{Item, Storage};
use std::marker::Model;
use std::ops::{Bound, RangeBounds};

/// The gaps that are left, in order: ranges over references to the keys that bound them. A contract
/// sees the list of what they refer to.
#[derive(Drop)]
pub struct Gaps<'a, K: PartialEnum + 'a, V: 'a, C: Storage<Item<AnyRange<K>, V>> + 'a> {
    items: Iter<'a, K, V, C>,
    start: Option<Bound<&'a K>>,
}

impl<'a, K: PartialEnum + 'a, V: 'a, C: Storage<Item<AnyRange<K>, V>> + 'a> Model
    for Gaps<'a, K, V, C> {
    ghost use Rattle.std.specs.Prelude.{List};
    ghost use Rattle.range_algebra.specs.declared.any.AnyRange.{AnyRange};
    ghost use Rattle.range_reads.specs.FreeRanges.{free_after};

    ghost Value = { List (AnyRange K) };

    ghost view = { λ g. free_after K.order g.start g.items };
}

impl<'a, K: PartialEnum + 'a, V: 'a, C: Storage<Item<AnyRange<K>, V>> + 'a> Gaps<'a, K, V, C> {
    /// All gaps of a container.
    pub fn new(stored: &'a C) -> Self
        ensures { result ≡ free_from K.order (Some Unbounded) (C.items stored.now) }
    {
        Gaps {
            items: Iter::new(stored),
            start: Some(Bound::Unbounded),
        }
    }
}

/// The next gap from a start on, and where the one after it starts.
fn next_gap<'a, K: PartialEnum, V, C: Storage<Item<AnyRange<K>, V>>>(
    items: &mut Iter<'a, K, V, C>,
    start: Option<Bound<&'a K>>,
) -> (Option<AnyRange<&'a K>>, Option<Bound<&'a K>>)
    ensures next { free_after K.order start.entry items.old
        ≡ option_items (option_map range_of result.0) ++ free_after K.order result.1 items.new }
    ensures last { result.0 ≡ None → free_after K.order result.1 items.new ≡ [] }
{
    let mut from = start;
    while let Some((range, _)) = items.next() {
        let gap = range_between(from, flip(range.start_bound()));
        from = flip(range.end_bound());
        if gap.is_some() {
            return (gap, from);
        }
    }
    (range_between(from, Some(Bound::Unbounded)), None)
}

impl<'a, K: PartialEnum + 'a, V: 'a, C: Storage<Item<AnyRange<K>, V>> + 'a> Iterator
    for Gaps<'a, K, V, C> {
    type Item = AnyRange<&'a K>;

    ghost next_gives = { YieldsFirstBy range_of (λ rest. rest) };

    ghost remaining = { item_count (λ rest. rest) };

    fn next(&mut self) -> Option<AnyRange<&'a K>> {
        let (gap, start) = next_gap(&mut self.items, self.start);
        self.start = start;
        gap
    }

    fn size_hint(&self) -> (usize, Option<usize>) {
        (0, None)
    }
}
