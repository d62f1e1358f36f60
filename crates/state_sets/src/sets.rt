//! Sets of states that are found again by their numbers.
ghost use Rattle.std.specs.Prelude.{◌≡◌, ◌+◌, ◌<◌, ◌≤◌, ◌^◌, [], vec_len, IfOk, IfSome, IfNone, OnOk};
ghost use Rattle.state_sets.specs.Found.{AreFound};
ghost use Rattle.state_sets.specs.Listed.{AddsLike, IsIndexOf, IsNewTo, KeepsAll};

use std::alloc::{AllocError, Global};
use std::collections::{BTreeMap, BTreeSet};

/// Sets of states in the order in which they were added, and the index at which each is found again.
#[derive(Drop)]
pub struct Sets {
    pub listed: Vec<BTreeSet<u32>>,
    pub indices: BTreeMap<BTreeSet<u32>, u32>,
}

impl Sets {
    /// No set. Allocates nothing.
    pub fn new(alloc: Global) -> Sets
        ensures none { result.listed.items ≡ [] }
        ensures found { AreFound result }
    {
        Sets {
            listed: Vec::new(alloc),
            indices: BTreeMap::new(alloc),
        }
    }

    /// The index of the set with the same states, if there is one. Allocates nothing.
    pub fn find(&self, set: &BTreeSet<u32>) -> Option<u32>
        requires { AreFound self.now }
        ensures found { IfSome result (IsIndexOf self.now.listed.items set.now) }
        ensures none { IfNone result (IsNewTo self.now.listed.items set.now) }
    {
        let _ascending = set.len();
        self.indices.get(set).copied()
    }

    /// Adds a set that is new, behind the others, and returns its index. Allocates.
    pub fn add(&mut self, set: &BTreeSet<u32>) -> Result<u32, AllocError>
        requires few { vec_len self.old.listed < 2 ^ 32 }
        requires new { IsNewTo self.old.listed.items set.now }
        requires found { AreFound self.old }
        ensures index { IfOk result (IsIndexOf self.new.listed.items set.now) }
        ensures added { OnOk result (AddsLike self.old.listed.items self.new.listed.items set.now) }
        ensures found { OnOk result (AreFound self.new) }
        ensures kept { KeepsAll self.old.listed.items self.new.listed.items }
        ensures longer { vec_len self.old.listed ≤ vec_len self.new.listed }
        ensures one { vec_len self.new.listed ≤ vec_len self.old.listed + 1 }
    {
        let _ascending = set.len();
        let index = self.listed.len() as u32;
        self.indices.insert(set.clone()?, index)?;
        self.listed.push(set.clone()?)?;
        Ok(index)
    }
}
