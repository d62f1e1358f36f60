//! Two lists of ranges as one list of pieces, on each of which both are constant.
ghost use Rattle.std.specs.Prelude.{◌≡◌, Option, Some, None};
ghost use Rattle.std.specs.declared.cmp.Ordering.TheVariants.{Equal};
ghost use Rattle.range_keys.specs.Position.{bound_of, position_cmp, end_position};
ghost use Rattle.range_algebra.specs.Cuts.{lower, past};
ghost use Rattle.range_algebra.specs.Intervals.{Lt};
ghost use Rattle.range_algebra.specs.Range.{IsBoundOfKey};
ghost use Rattle.range_algebra.specs.References.{range_of};
ghost use Rattle.range_algebra.specs.declared.any.AnyRange.{AnyRange};
ghost use Rattle.range_store.specs.declared.storage.Item.{Item};
ghost use Rattle.range_merge.specs.Merged.{IsPlaced, IsPartPast, IsFirstPieceOf, part_item};

use crate::comparing::{compare_ends, starts_past};
use range_algebra::any::AnyRange;
use range_keys::traits::PartialEnum;
use range_runs::bounds::flip;
use range_store::storage::Item;
use std::cmp::Ordering;
use std::ops::{Bound, RangeBounds};

/// What is left of a stored range, from a start on, with its value.
#[derive(Drop)]
pub struct Part<'a, K, V> {
    pub start: Bound<&'a K>,
    pub range: &'a AnyRange<K>,
    pub value: &'a V,
}

/// A piece, what binds it on either side, and what is left of the ranges that it was taken from.
#[derive(Drop)]
pub struct Piece<'a, K, V, W> {
    pub range: AnyRange<&'a K>,
    pub value: Option<&'a V>,
    pub other_value: Option<&'a W>,
    pub left: Option<Part<'a, K, V>>,
    pub right: Option<Part<'a, K, W>>,
}

/// What is left on two sides.
#[derive(Drop)]
pub struct Rests<'a, K, V, W> {
    pub left: Option<Part<'a, K, V>>,
    pub right: Option<Part<'a, K, W>>,
}

/// The keys of what is left of a stored range.
#[inline(always)]
pub fn keys_of<'a, K: PartialEnum, V>(part: Part<'a, K, V>) -> AnyRange<&'a K>
    ensures { range_of result ≡ (part_item part.entry).key }
{
    AnyRange::new(part.start, part.range.end_bound())
}

/// The first piece of two parts of which the first starts before the second.
#[inline(always)]
pub fn first_alone<'a, K: PartialEnum, V, W>(
    part: Part<'a, K, V>,
    later: Part<'a, K, W>,
) -> Piece<'a, K, V, W>
    requires part { IsPlaced K.order (part_item part).key }
    requires later { IsPlaced K.order (part_item later).key }
    requires before { Lt (position_cmp K.order.cmp) (lower K.order (part_item part).key)
        (lower K.order (part_item later).key) }
    ensures { IsFirstPieceOf K.order (Some (part_item part.entry)) (Some (part_item later.entry))
        result }
{
    let last = part.range.end_bound();
    let cut = if starts_past(later.start, last) {
        (last, None)
    } else {
        match flip(later.start) {
            Some(end) => (
                end,
                Some(Part {
                    start: later.start,
                    ..part
                }),
            ),
            None => unreachable!(),
        }
    };
    let (end, left) = cut;
    Piece {
        range: AnyRange::new(part.start, end),
        value: Some(part.value),
        other_value: None,
        left,
        right: Some(later),
    }
}

/// What is left of a part past an end that lies before its own.
#[inline(always)]
fn part_past<'a, K: PartialEnum, V>(part: &Part<'a, K, V>, end: Bound<&'a K>) -> Part<'a, K, V>
    requires part { IsPlaced K.order (part_item part.now).key }
    requires known { IsBoundOfKey K.order (bound_of end) }
    requires before { Lt (position_cmp K.order.cmp) (end_position K.order (bound_of end))
        (end_position K.order part.now.range.now.end) }
    ensures { IsPartPast K.order (part_item part.now)
        (past K.order (end_position K.order (bound_of end.entry))) (part_item result) }
{
    match flip(end) {
        Some(start) => Part { start, ..*part },
        None => unreachable!(),
    }
}

/// The first piece of two parts that start at one position, and what is left of either.
#[inline(always)]
pub fn first_of_both<'a, K: PartialEnum, V, W>(
    part: Part<'a, K, V>,
    other: Part<'a, K, W>,
) -> Piece<'a, K, V, W>
    requires part { IsPlaced K.order (part_item part).key }
    requires other { IsPlaced K.order (part_item other).key }
    requires alike { position_cmp K.order.cmp (lower K.order (part_item part).key)
        (lower K.order (part_item other).key) ≡ Equal }
    ensures { IsFirstPieceOf K.order (Some (part_item part.entry)) (Some (part_item other.entry))
        result }
{
    let end = part.range.end_bound();
    let other_end = other.range.end_bound();
    let cut = match compare_ends(end, other_end) {
        Ordering::Less => (end, None, Some(part_past(&other, end))),
        Ordering::Equal => (end, None, None),
        Ordering::Greater => (other_end, Some(part_past(&part, other_end)), None),
    };
    let (end, left, right) = cut;
    Piece {
        range: AnyRange::new(part.start, end),
        value: Some(part.value),
        other_value: Some(other.value),
        left,
        right,
    }
}

/// The piece with its two sides exchanged.
#[inline(always)]
fn swapped<'a, K: PartialEnum, V, W>(piece: Piece<'a, K, V, W>) -> Piece<'a, K, W, V>
    ensures { (left : Option (Item (AnyRange K) V)) → (right : Option (Item (AnyRange K) W))
        → IsFirstPieceOf K.order left right piece.entry
        → IsFirstPieceOf K.order right left result }
{
    Piece {
        range: piece.range,
        value: piece.other_value,
        other_value: piece.value,
        left: piece.right,
        right: piece.left,
    }
}

/// The first piece of a part with nothing on the other side: the whole part.
#[inline(always)]
pub fn whole_part<'a, K: PartialEnum, V, W>(part: Part<'a, K, V>) -> Piece<'a, K, V, W>
    requires { IsPlaced K.order (part_item part).key }
    ensures { IsFirstPieceOf K.order (Some (part_item part.entry)) None result }
{
    Piece {
        value: Some(part.value),
        other_value: None,
        range: keys_of(part),
        left: None,
        right: None,
    }
}

/// The first piece of two parts of which the second starts before the first.
#[inline(always)]
pub fn second_alone<'a, K: PartialEnum, V, W>(
    later: Part<'a, K, V>,
    other: Part<'a, K, W>,
) -> Piece<'a, K, V, W>
    requires later { IsPlaced K.order (part_item later).key }
    requires other { IsPlaced K.order (part_item other).key }
    requires before { Lt (position_cmp K.order.cmp) (lower K.order (part_item other).key)
        (lower K.order (part_item later).key) }
    ensures { IsFirstPieceOf K.order (Some (part_item later.entry)) (Some (part_item other.entry))
        result }
{
    swapped(first_alone(other, later))
}

/// The same of a part on the second side.
#[inline(always)]
pub fn whole_other<'a, K: PartialEnum, V, W>(other: Part<'a, K, W>) -> Piece<'a, K, V, W>
    requires { IsPlaced K.order (part_item other).key }
    ensures { IsFirstPieceOf K.order None (Some (part_item other.entry)) result }
{
    swapped(whole_part(other))
}
