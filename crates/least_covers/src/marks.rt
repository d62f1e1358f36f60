//! Blocks, each noted after its halves, with how prefixes are shared between these.

ghost use Rattle.std.specs.Prelude.{◌≡◌, ◌+◌, ◌≤◌, ◌<◌, ◌++◌, ◌∷◌, [], true, false, if◌then◌else◌, length, vec_len, IsTrue, OnOk};
ghost use Rattle.least_covers.specs.Trees.{IsPopped, high_of, is_own, low_of};

use std::alloc::{AllocError, Global};

/// A block.
#[derive(Clone, Copy)]
pub(crate) struct Node {
    /// Its first number.
    pub network: u128,
    /// How many bits differ among its numbers.
    pub free: u8,
    /// Whether its halves are noted before it.
    pub is_divided: bool,
    /// How many shares it has.
    pub shares: u32,
}

/// What is noted of some blocks.
#[derive(Drop)]
pub(crate) struct Marks {
    pub nodes: Vec<Node>,
    /// The shares of all nodes.
    pub shares: Vec<u32>,
}

/// What becomes of a block that has so many prefixes.
#[derive(Clone, Copy)]
pub(crate) struct Taken {
    /// Its first number.
    pub network: u128,
    /// How many bits differ among its numbers.
    pub free: u8,
    /// Whether its halves are noted before it.
    pub is_divided: bool,
    /// Whether one prefix is for all of it.
    pub is_own: bool,
    /// How many prefixes its first half has.
    pub low: u32,
    /// How many its second half has.
    pub high: u32,
}

impl Marks {
    pub(crate) fn new(alloc: Global) -> Marks
        ensures nodes { result.nodes.items ≡ [] }
        ensures shares { result.shares.items ≡ [] }
    {
        Marks {
            nodes: Vec::new(alloc),
            shares: Vec::new(alloc),
        }
    }

    /// Notes a block of which the runs have all numbers; where they have none, nothing.
    pub(crate) fn push_if(
        &mut self,
        is_held: bool,
        network: u128,
        free: u8,
    ) -> Result<(), AllocError>
        ensures nodes { OnOk result (self.new.nodes.items ≡ (if is_held
            then self.old.nodes.items ++ record {
              network = network;
              free = free;
              is_divided = false;
              shares = 0;
            } ∷ []
            else self.old.nodes.items)) }
        ensures shares { self.new.shares ≡ self.old.shares }
    {
        if !is_held {
            return Ok(());
        }
        self.nodes.push(Node {
            network,
            free,
            is_divided: false,
            shares: 0,
        })?;
        Ok(())
    }

    /// Notes a block whose halves are noted. Fails, too, where its shares are 2^32 or more.
    pub(crate) fn push_divided(
        &mut self,
        network: u128,
        free: u8,
        shares: &[u32],
    ) -> Result<(), AllocError>
        ensures nodes { OnOk result (self.new.nodes.items ≡ self.old.nodes.items ++ record {
          network = network;
          free = free;
          is_divided = true;
          shares = length shares.now;
        } ∷ []) }
        ensures shares { OnOk result (self.new.shares.items
            ≡ self.old.shares.items ++ shares.now) }
    {
        let Ok(count) = u32::try_from(shares.len()) else {
            return Err(AllocError);
        };
        self.shares.extend_from_slice(shares)?;
        self.nodes.push(Node {
            network,
            free,
            is_divided: true,
            shares: count,
        })?;
        Ok(())
    }

    /// Takes the last block out, with so many prefixes for it.
    pub(crate) fn pop(&mut self, prefixes: u32) -> Taken
        ensures popped { IsPopped prefixes self.old self.new result }
        ensures fewer { vec_len self.new.nodes ≤ vec_len self.old.nodes }
        ensures divided { IsTrue result.is_divided
            → vec_len self.new.nodes < vec_len self.old.nodes }
    {
        let Some(node) = self.nodes.pop() else {
            return Taken {
                network: 0,
                free: 0,
                is_divided: false,
                is_own: false,
                low: 0,
                high: 0,
            };
        };
        let start = self.shares.len().saturating_sub(node.shares as usize);
        let taken = taken_of(node, &self.shares[start..], prefixes);
        self.shares.truncate(start);
        taken
    }
}

/// The share of the first half, where a block has so many prefixes.
fn low_share(shares: &[u32], prefixes: u32) -> u32
    ensures { result ≡ low_of shares.now prefixes }
{
    if prefixes == 0 {
        return 0;
    }
    let place = shares.len().min(prefixes as usize).saturating_sub(1);
    shares.get(place).copied().unwrap_or(0)
}

/// The share of the second half.
fn high_share(shares: &[u32], prefixes: u32, low: u32) -> u32
    requires { low ≡ low_of shares.now prefixes }
    ensures { result ≡ high_of shares.now prefixes }
{
    if low == 0 {
        return 0;
    }
    let all = shares.len().min(prefixes as usize);
    all.saturating_sub(low as usize) as u32
}

fn taken_of(node: Node, shares: &[u32], prefixes: u32) -> Taken
    ensures network { result.network ≡ node.network }
    ensures free { result.free ≡ node.free }
    ensures divided { result.is_divided ≡ node.is_divided }
    ensures own { result.is_own ≡ is_own shares.now prefixes }
    ensures low { result.low ≡ low_of shares.now prefixes }
    ensures high { result.high ≡ high_of shares.now prefixes }
{
    let low = low_share(shares, prefixes);
    Taken {
        network: node.network,
        free: node.free,
        is_divided: node.is_divided,
        is_own: low == 0 && prefixes > 0,
        low,
        high: high_share(shares, prefixes, low),
    }
}
