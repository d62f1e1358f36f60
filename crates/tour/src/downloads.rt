//! Which bytes of a file have come, and which are missing.

ghost use Rattle.std.specs.Prelude.{◌≡◌, min, ◌⊎◌, ◌≤◌, ◌<◌, ◌↔◌, ℕ, IsTrue, MatchOption, OnErr, OnOk};
ghost use Rattle.btree_range_map.specs.Names.{u64_order};
ghost use Rattle.btree_range_map.specs.Position.{bound_of};
ghost use Rattle.tour.specs.Coverage.{HasCome, IsMissing, IsWhole, first_of, past_of};

use btree_range_map::{MapError, RangeSet};
use std::alloc::Global;
use std::marker::Model;
use std::ops::{Bound, Range};

/// Which bytes of a file have come. A contract sees its size and their ranges.
#[derive(Drop)]
pub struct Coverage {
    size: u64,
    come: RangeSet<u64>,
}

impl Model for Coverage {
    ghost use Rattle.std.specs.Prelude.{◌≤◌};
    ghost use Rattle.btree_range_map.specs.Holding.{box_items};
    ghost use Rattle.btree_range_map.specs.KeySets.{IsStoredSet};
    ghost use Rattle.btree_range_map.specs.Names.{u64_order};
    ghost use Rattle.tour.specs.Coverage.{Bytes};

    ghost Value = { Bytes };

    ghost view = { λ c. record { size = c.size; come = box_items c.come } };

    ghost invariant = { λ c. (c.size ≤ 18446744073709551615)
        × IsStoredSet u64_order (box_items c.come) };
}

/// The first byte of a piece.
fn first_byte(start: Bound<&u64>) -> u64
    requires { first_of (bound_of start) ≤ 18446744073709551615 }
    ensures { result ≡ first_of (bound_of start.entry) }
{
    match start {
        Bound::Included(first) => *first,
        Bound::Excluded(before) => *before + 1,
        Bound::Unbounded => 0,
    }
}

/// The byte after the last one of a piece, or the size where that is less.
fn end_byte(end: Bound<&u64>, size: u64) -> u64
    ensures { result ≡ min (past_of (bound_of end.entry)) size }
{
    match end {
        Bound::Included(last) if *last < size => *last + 1,
        Bound::Excluded(end) if *end < size => *end,
        _ => size,
    }
}

impl Coverage {
    /// A file of so many bytes, none of which has come. Allocates nothing.
    pub fn new(alloc: Global, size: u64) -> Coverage
        ensures size { result.size ≡ size }
        ensures none { (byte : ℕ) → ¬ HasCome result byte }
    {
        Coverage {
            size,
            come: RangeSet::new(alloc),
        }
    }

    /// Takes in what a `Content-Range` says: the bytes from the first to the last, from 0 on.
    ///
    /// They may come in any order, and again. Where an allocation fails nothing is changed. Costs
    /// what `insert` of a set does.
    pub fn add(&mut self, first: u64, last: u64) -> Result<(), MapError>
        ensures added { OnOk result ((byte : ℕ) → u64_order.is_key byte → HasCome self.new byte
            ↔ (HasCome self.old byte ⊎ ((first ≤ byte) × (byte ≤ last)))) }
        ensures size { self.new.size ≡ self.old.size }
        ensures refused { OnErr result (self.new ≡ self.old) }
    {
        self.come.insert(first..=last)
    }

    /// Whether all bytes of the file have come. Allocates nothing.
    pub fn is_whole(&self) -> bool
        ensures { IsTrue result ↔ IsWhole self.now }
    {
        self.come.covers(0..self.size)
    }

    /// The first bytes of the file that are missing, or `None` where it is whole.
    ///
    /// Costs two searches, and a few comparisons for each range that has come before these bytes.
    /// Allocates nothing.
    pub fn missing(&self) -> Option<Range<u64>>
        ensures { MatchOption result (IsWhole self.now) (IsMissing self.now) }
    {
        let file = 0..self.size;
        let gap = self.come.gaps_within(&file).next()?;
        Some(first_byte(gap.start)..end_byte(gap.end, self.size))
    }
}
