//! The parts of a range that the items of a container leave free.
ghost use Rattle.std.specs.Prelude.{◌≡◌, [], ◌++◌, None};
ghost use Rattle.std.specs.Iterator.{YieldsFirstBy, YieldsLastBy, item_count};
ghost use Rattle.std.specs.Option.{option_map};
ghost use Rattle.range_algebra.specs.References.{range_of};
ghost use Rattle.range_runs.specs.Window.{option_items};
ghost use Rattle.range_reads.specs.PieceLists.{free_ranges};

use range_algebra::any::AnyRange;
use range_keys::traits::PartialEnum;
use range_runs::pieces::Pieces;
use range_store::storage::{Item, Storage};
use std::marker::Model;

/// The free parts of a range that are left, in order: ranges over references to the keys that bound
/// them. A contract sees the list of what they refer to.
#[derive(Drop)]
pub struct GapsWithin<'a, K: PartialEnum + 'a, V: Eq + 'a, C: Storage<Item<AnyRange<K>, V>> + 'a> {
    pieces: Pieces<'a, K, V, C>,
}

impl<'a, K: PartialEnum + 'a, V: Eq + 'a, C: Storage<Item<AnyRange<K>, V>> + 'a> Model
    for GapsWithin<'a, K, V, C> {
    ghost use Rattle.std.specs.Prelude.{List};
    ghost use Rattle.range_algebra.specs.declared.any.AnyRange.{AnyRange};
    ghost use Rattle.range_reads.specs.PieceLists.{free_ranges};

    ghost Value = { List (AnyRange K) };

    ghost view = { λ g. free_ranges g.pieces };
}

impl<'a, K: PartialEnum + 'a, V: Eq + 'a, C: Storage<Item<AnyRange<K>, V>> + 'a> GapsWithin<
    'a,
    K,
    V,
    C,
> {
    /// The free ones of the pieces.
    pub fn new(pieces: Pieces<'a, K, V, C>) -> Self
        ensures { result ≡ free_ranges pieces.entry }
    {
        GapsWithin { pieces }
    }
}

/// The next free piece.
fn next_free<'a, K: PartialEnum, V: Eq, C: Storage<Item<AnyRange<K>, V>>>(
    pieces: &mut Pieces<'a, K, V, C>,
) -> Option<AnyRange<&'a K>>
    ensures next { free_ranges pieces.old
        ≡ option_items (option_map range_of result) ++ free_ranges pieces.new }
    ensures last { result ≡ None → free_ranges pieces.new ≡ [] }
{
    while let Some((range, value)) = pieces.next() {
        match value {
            None => return Some(range),
            Some(_) => (),
        }
    }
    None
}

/// The last free piece.
fn last_free<'a, K: PartialEnum, V: Eq, C: Storage<Item<AnyRange<K>, V>>>(
    pieces: &mut Pieces<'a, K, V, C>,
) -> Option<AnyRange<&'a K>>
    ensures next { free_ranges pieces.old
        ≡ free_ranges pieces.new ++ option_items (option_map range_of result) }
    ensures last { result ≡ None → free_ranges pieces.new ≡ [] }
{
    while let Some((range, value)) = pieces.next_back() {
        match value {
            None => return Some(range),
            Some(_) => (),
        }
    }
    None
}

impl<'a, K: PartialEnum + 'a, V: Eq + 'a, C: Storage<Item<AnyRange<K>, V>> + 'a> Iterator
    for GapsWithin<'a, K, V, C> {
    type Item = AnyRange<&'a K>;

    ghost next_gives = { YieldsFirstBy range_of (λ rest. rest) };

    ghost remaining = { item_count (λ rest. rest) };

    fn next(&mut self) -> Option<AnyRange<&'a K>> {
        next_free(&mut self.pieces)
    }

    fn size_hint(&self) -> (usize, Option<usize>) {
        (0, None)
    }
}

impl<'a, K: PartialEnum + 'a, V: Eq + 'a, C: Storage<Item<AnyRange<K>, V>> + 'a> DoubleEndedIterator
    for GapsWithin<'a, K, V, C> {
    ghost next_back_gives = { YieldsLastBy range_of (λ rest. rest) };

    fn next_back(&mut self) -> Option<AnyRange<&'a K>> {
        last_free(&mut self.pieces)
    }
}
