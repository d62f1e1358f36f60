//! Replies of a line for each range.

ghost use Rattle.std.specs.Io.KnownBytes.{Appends};
ghost use Rattle.std.specs.Prelude.{OnOk, [], codes, cond};
ghost use Rattle.btree_range_map.specs.PieceLists.{shown_piece};
ghost use Rattle.btree_range_map.specs.References.{range_of};
ghost use Rattle.rangecalc.specs.Answers.{IsListed};
ghost use Rattle.rangecalc.specs.Ranges.{item_of};
ghost use Rattle.line_program.specs.Listing.{SpellsLines, Writes};
ghost use Rattle.rangecalc.specs.Replies.{SpellsGap, SpellsItem, SpellsPiece};

use crate::line::Listing;
use crate::number::{MapKey, NumberKey, span_between};
use crate::write::{write_free_line, write_gap_line, write_item, write_item_line};
use btree_range_map::AnyRange;
use btree_range_map::generic::map::{Gaps, GapsWithin, Iter, Overlapping, Pieces, RangeMap};
use btree_range_map::range::traits::Bounded;
use btree_range_map::storage::{Item, Storage};
use std::io::{self, Write};

/// Writes the line of a free range.
fn write_gap<K: NumberKey + Bounded, W: Write>(gap: AnyRange<&K>, out: &mut W) -> io::Result<()>
    ensures { OnOk result
        (Writes (W.contents out.old) (W.contents out.new) (SpellsGap (range_of gap.entry))) }
{
    let AnyRange { start, end } = gap;
    write_gap_line(span_between(start, end), out)
}

/// Writes the line of an empty listing, if it is one.
fn write_none<W: Write>(is_empty: bool, line: &[u8], out: &mut W) -> io::Result<()>
    ensures { OnOk result
        (Appends (W.contents out.old) (W.contents out.new) (cond is_empty line.now [])) }
{
    if is_empty {
        return out.write_all(line);
    }
    Ok(())
}

fn write_items<'a, K: NumberKey + Bounded + 'a, C: Storage<Item<AnyRange<K>, i64>> + 'a, W: Write>(
    mut items: Iter<'a, K, i64, C>,
    out: &mut W,
) -> io::Result<()>
    ensures { OnOk result
        (Writes (W.contents out.old) (W.contents out.new)
        (SpellsLines SpellsItem (codes "empty\n") items.entry)) }
{
    let mut is_empty = true;
    while let Some((range, value)) = items.next() {
        is_empty = false;
        write_item(range, value, out)?;
    }
    write_none(is_empty, b"empty\n", out)
}

fn write_gaps<'a, K: MapKey + 'a, C: Storage<Item<AnyRange<K>, i64>> + 'a, W: Write>(
    mut gaps: Gaps<'a, K, i64, C>,
    out: &mut W,
) -> io::Result<()>
    ensures { OnOk result
        (Writes (W.contents out.old) (W.contents out.new)
        (SpellsLines SpellsGap (codes "full\n") gaps.entry)) }
{
    let mut is_empty = true;
    while let Some(gap) = gaps.next() {
        is_empty = false;
        write_gap::<K, W>(gap, out)?;
    }
    write_none(is_empty, b"full\n", out)
}

fn write_met<'a, K: MapKey + 'a, C: Storage<Item<AnyRange<K>, i64>> + 'a, W: Write>(
    mut items: Overlapping<'a, K, i64, C>,
    out: &mut W,
) -> io::Result<()>
    ensures { OnOk result
        (Writes (W.contents out.old) (W.contents out.new)
        (SpellsLines SpellsItem (codes "empty\n") items.entry)) }
{
    let mut is_empty = true;
    while let Some((range, value)) = items.next() {
        is_empty = false;
        write_item(range, value, out)?;
    }
    write_none(is_empty, b"empty\n", out)
}

fn write_free<'a, K: MapKey + 'a, C: Storage<Item<AnyRange<K>, i64>> + 'a, W: Write>(
    mut gaps: GapsWithin<'a, K, i64, C>,
    out: &mut W,
) -> io::Result<()>
    ensures { OnOk result
        (Writes (W.contents out.old) (W.contents out.new)
        (SpellsLines SpellsGap (codes "full\n") gaps.entry)) }
{
    let mut is_empty = true;
    while let Some(gap) = gaps.next() {
        is_empty = false;
        write_gap::<K, W>(gap, out)?;
    }
    write_none(is_empty, b"full\n", out)
}

/// Writes the line of a piece.
fn write_piece<K: NumberKey + Bounded, W: Write>(
    piece: AnyRange<&K>,
    value: Option<&i64>,
    out: &mut W,
) -> io::Result<()>
    ensures { OnOk result
        (Writes (W.contents out.old) (W.contents out.new)
        (SpellsPiece (shown_piece (piece.entry, value.entry)))) }
{
    let AnyRange { start, end } = piece;
    let span = span_between(start, end);
    match value {
        Some(value) => write_item_line(&span, value, out),
        None => write_free_line(&span, out),
    }
}

fn write_pieces<'a, K: MapKey + 'a, C: Storage<Item<AnyRange<K>, i64>> + 'a, W: Write>(
    mut pieces: Pieces<'a, K, i64, C>,
    out: &mut W,
) -> io::Result<()>
    ensures { OnOk result
        (Writes (W.contents out.old) (W.contents out.new)
        (SpellsLines SpellsPiece (codes "empty\n") pieces.entry)) }
{
    let mut is_empty = true;
    while let Some((piece, value)) = pieces.next() {
        is_empty = false;
        write_piece::<K, W>(piece, value, out)?;
    }
    write_none(is_empty, b"empty\n", out)
}

/// Writes the ranges that a listing names, each on a line.
pub fn list<K: MapKey, C: Storage<Item<AnyRange<K>, i64>>, W: Write>(
    map: &RangeMap<K, i64, C>,
    listing: Listing<K>,
    out: &mut W,
) -> io::Result<()>
    ensures { OnOk result
        (Writes (W.contents out.old) (W.contents out.new)
        (IsListed K.order listing (C.items map.now))) }
{
    match listing {
        Listing::Show => write_items(map.iter(), out),
        Listing::Gaps => write_gaps(map.gaps(), out),
        Listing::Over(range) => write_met(map.overlapping(range), out),
        Listing::Free(range) => write_free(map.gaps_within(&range), out),
        Listing::Pieces(range) => write_pieces(map.pieces(&range), out),
    }
}
