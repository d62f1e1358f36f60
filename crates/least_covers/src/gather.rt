//! The rows of all blocks, from the bottom up.

ghost use Rattle.std.specs.Prelude.{◌≡◌, ◌+◌, ◌-◌, ◌≤◌, ◌<◌, ◌^◌, ◌∷◌, [], if◌then◌else◌, length, IfOk};
ghost use Rattle.least_covers.specs.Rows.{Falls, at};
ghost use Rattle.least_covers.specs.Runs.{AreLeft};
ghost use Rattle.least_covers.specs.Trees.{IsDivided, IsGathered, IsJoined};

use crate::marks::Marks;
use crate::rows::join_rows;
use crate::runs::{greatest_of, uniform};
use std::alloc::{AllocError, Global};

/// What is found of a block.
#[derive(Drop)]
pub(crate) struct Part {
    /// Its row, which is empty where the runs have no number of the block.
    pub row: Vec<u128>,
    /// How many of its numbers the runs do not have, where they have some.
    pub room: u128,
}

/// What is gathered of a block.
#[derive(Drop)]
pub(crate) struct Gathered<'a> {
    pub part: Part,
    /// The runs that end after it.
    pub left: &'a [(u128, u128)],
}

/// What is found of a block of which the runs have all numbers, or none.
fn whole_part(alloc: Global, is_held: bool) -> Result<Part, AllocError>
    ensures room { IfOk result (λ part. part.room ≡ 0) }
    ensures row { IfOk result (λ part. part.row.items ≡ (if is_held then 0 ∷ [] else [])) }
{
    let mut row = Vec::new(alloc);
    if is_held {
        row.push(0)?;
    }
    Ok(Part { row, room: 0 })
}

/// The part of a block whose halves have these, both with numbers of the runs.
fn join_both(
    alloc: Global,
    low: Part,
    high: Part,
    network: u128,
    free: u8,
    most: u32,
    marks: &mut Marks,
) -> Result<Part, AllocError>
    requires some { 0 < most }
    requires low { 1 ≤ length low.row.items }
    requires high { 1 ≤ length high.row.items }
    requires falls { Falls low.row.items }
    requires high_falls { Falls high.row.items }
    requires within { at low.row.items 1 ≤ low.room }
    requires high_within { at high.row.items 1 ≤ high.room }
    requires fits { low.room + high.room < 2 ^ 128 }
    ensures { IfOk result (λ part. IsDivided most network free marks.old marks.new part.room
        low.room high.room low.row.items high.row.items part.row.items) }
{
    let room = low.room + high.room;
    let joined = join_rows(alloc, low.row.as_slice(), high.row.as_slice(), room, most)?;
    marks.push_divided(network, free, joined.shares.as_slice())?;
    Ok(Part {
        row: joined.row,
        room,
    })
}

/// The part of a block whose halves have these.
fn join(
    alloc: Global,
    low: Part,
    high: Part,
    network: u128,
    free: u8,
    most: u32,
    marks: &mut Marks,
) -> Result<Part, AllocError>
    requires some { 0 < most }
    requires wide { 0 < free }
    requires small { free ≤ 128 }
    requires falls { Falls low.row.items }
    requires high_falls { Falls high.row.items }
    requires within { at low.row.items 1 ≤ low.room }
    requires high_within { at high.row.items 1 ≤ high.room }
    requires room { low.room < 2 ^ (free - 1) }
    requires high_room { high.room < 2 ^ (free - 1) }
    ensures { IfOk result (λ part. IsJoined most network free marks.old marks.new part.room
        low.room high.room low.row.items high.row.items part.row.items) }
{
    let half = greatest_of(free - 1) + 1;
    if low.row.is_empty() {
        let room = high.room + half;
        return Ok(Part {
            row: high.row,
            room,
        });
    }
    if high.row.is_empty() {
        let room = low.room + half;
        return Ok(Part { row: low.row, room });
    }
    join_both(alloc, low, high, network, free, most, marks)
}

/// Notes a block and its parts, and returns its row: how many numbers it takes in addition with one
/// prefix, with two, and so on, up to so many.
#[tactic(none)]
pub(crate) fn gather<'a>(
    alloc: Global,
    left: &'a [(u128, u128)],
    network: u128,
    free: u8,
    most: u32,
    marks: &mut Marks,
) -> Result<Gathered<'a>, AllocError>
    requires left { AreLeft network left.now }
    requires some { 0 < most }
    requires small { free ≤ 128 }
    requires fits { network + 2 ^ free ≤ 2 ^ 128 }
    ensures { IfOk result (λ found. IsGathered most left.now free network marks.old marks.new
        found.part.room found.part.row.items found.left.now) }
{
    if let Some(all) = uniform(left, network, free) {
        let part = whole_part(alloc, all.is_held)?;
        marks.push_if(all.is_held, network, free)?;
        let left = all.left;
        return Ok(Gathered { part, left });
    }
    let middle = network + greatest_of(free - 1) + 1;
    let low = gather(alloc, left, network, free - 1, most, marks)?;
    let high = gather(alloc, low.left, middle, free - 1, most, marks)?;
    let part = join(alloc, low.part, high.part, network, free, most, marks)?;
    let left = high.left;
    Ok(Gathered { part, left })
}
