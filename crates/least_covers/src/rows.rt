//! Rows: how many numbers a block takes in addition, for each number of prefixes from one on.

ghost use Rattle.std.specs.Prelude.{◌≡◌, ◌+◌, ◌-◌, ◌≤◌, ◌<◌, ◌^◌, ℕ, IfOk, length, min};
ghost use Rattle.least_covers.specs.Rows.{Falls, IsJoinedSoFar, at};

use std::alloc::{AllocError, Global};

/// How some prefixes are shared between the halves of a block.
#[derive(Clone, Copy)]
pub(crate) struct Share {
    /// How many the first half takes.
    pub first: usize,
    /// How many numbers both halves add.
    pub added: u128,
}

/// How many numbers the halves add, where the first takes so many of the prefixes.
fn added_by(low: &[u128], high: &[u128], prefixes: usize, first: usize) -> u128
    requires some { 1 ≤ first }
    requires rest { first < prefixes }
    requires low { first ≤ length low.now }
    requires high { prefixes ≤ first + length high.now }
    requires falls { Falls low.now }
    requires high_falls { Falls high.now }
    requires fits { at low.now 1 + at high.now 1 < 2 ^ 128 }
    ensures { result ≡ at low.now first + at high.now (prefixes - first) }
{
    low[first - 1] + high[prefixes - first - 1]
}

/// The share by which two halves add the fewest numbers.
fn best_share(low: &[u128], high: &[u128], prefixes: usize) -> Share
    requires some { 2 ≤ prefixes }
    requires low { 1 ≤ length low.now }
    requires high { 1 ≤ length high.now }
    requires all { prefixes ≤ length low.now + length high.now }
    requires falls { Falls low.now }
    requires high_falls { Falls high.now }
    requires fits { at low.now 1 + at high.now 1 < 2 ^ 128 }
    ensures some { 1 ≤ result.first }
    ensures rest { result.first < prefixes }
    ensures added { result.added ≡ at low.now result.first + at high.now (prefixes - result.first) }
    ensures least { (i : ℕ) → 1 ≤ i → i < prefixes
        → result.added ≤ at low.now i + at high.now (prefixes - i) }
{
    let start = prefixes.saturating_sub(high.len()).max(1);
    let end = low.len().min(prefixes - 1);
    let mut best = Share {
        first: start,
        added: added_by(low, high, prefixes, start),
    };
    for first in start + 1..end + 1 {
        let added = added_by(low, high, prefixes, first);
        if added < best.added {
            best = Share { first, added };
        }
    }
    best
}

/// A row, and what the first half takes of each number of prefixes: none of them, where one prefix
/// is for the whole block.
#[derive(Drop)]
pub(crate) struct Joined {
    /// How many numbers are added.
    pub row: Vec<u128>,
    /// What the first half takes.
    pub shares: Vec<u32>,
}

/// The row of a block by those of its halves, up to so many prefixes.
pub(crate) fn join_rows(
    alloc: Global,
    low: &[u128],
    high: &[u128],
    room: u128,
    most: u32,
) -> Result<Joined, AllocError>
    requires some { 0 < most }
    requires low { 1 ≤ length low.now }
    requires high { 1 ≤ length high.now }
    requires falls { Falls low.now }
    requires high_falls { Falls high.now }
    requires fits { at low.now 1 + at high.now 1 ≤ room }
    ensures joined { IfOk result (λ joined. IsJoinedSoFar room low.now high.now
        joined.shares.items joined.row.items) }
    ensures whole { IfOk result (λ joined. length joined.row.items
        ≡ min most (length low.now + length high.now)) }
{
    let count = low.len().saturating_add(high.len()).min(most as usize);
    let mut row = Vec::with_capacity(alloc, count)?;
    let mut shares = Vec::with_capacity(alloc, count)?;
    row.push(room)?;
    shares.push(0)?;
    for prefixes in 2..count + 1 {
        let best = best_share(low, high, prefixes);
        row.push(best.added)?;
        shares.push(best.first as u32)?;
    }
    Ok(Joined { row, shares })
}
