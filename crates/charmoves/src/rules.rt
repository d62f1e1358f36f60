//! Rules, start states and accepting states.
ghost use Rattle.std.specs.Prelude.{ℕ, OnOk, OnErr};
ghost use Rattle.std.specs.Option.{option_copied};
ghost use Rattle.charmoves.specs.Automata.{HasRule, AreTargets, IsStart, IsAccepting, KeepsRules, KeepsStarts, KeepsAccepting, HasRuleAlso, StartsAlsoAt, AcceptsAlsoAt};

use btree_range_map::generic::map::MapError;
use btree_range_map::{IntoRange, RangeMultiMap};
use std::alloc::Global;
use std::collections::{BTreeMap, BTreeSet};

/// The rules of an automaton, the states in which a text starts, and those in which it may end.
///
/// A rule leads from a state to a state by each character of a range.
pub struct Rules {
    pub(crate) transitions: BTreeMap<u32, RangeMultiMap<char, BTreeSet<u32>>>,
    pub(crate) starts: BTreeSet<u32>,
    pub(crate) accepting: BTreeSet<u32>,
    pub(crate) alloc: Global,
}

// Written out: the borrow checker makes no proof for the drop of a multimap inside a `BTreeMap`.
impl Drop for Rules {
    fn drop(self) {
        let Rules {
            mut transitions,
            starts: _starts,
            accepting: _accepting,
            alloc: _,
        } = self;
        while let Some((_, _of_state)) = transitions.pop_first() {}
        transitions.destroy_empty();
    }
}

impl Rules {
    /// No rules, and no state that starts or accepts. Allocates nothing.
    pub fn new(alloc: Global) -> Rules
        ensures rules { (p c q : ℕ) → ¬ HasRule result p c q }
        ensures starts { (p : ℕ) → ¬ IsStart result p }
        ensures accepting { (p : ℕ) → ¬ IsAccepting result p }
    {
        Rules {
            transitions: BTreeMap::new(alloc),
            starts: BTreeSet::new(alloc),
            accepting: BTreeSet::new(alloc),
            alloc,
        }
    }

    /// Adds a rule: each character of the range leads from the one state to the other. An empty
    /// range, such as `'z'..='a'`, adds none.
    ///
    /// Costs one look-up of the state, and one search among its ranges with a step for each range
    /// that it meets or touches. The set of the states to which a range leads is copied for each
    /// range that it meets. So `n` rules from one state by one range, added one by one, copy `n * n
    /// / 2` states in all. Allocates. After an error the rules are as they were.
    pub fn add<R: IntoRange<Item = char>>(
        &mut self,
        from: u32,
        range: R,
        to: u32,
    ) -> Result<(), MapError>
        ensures added { OnOk result (HasRuleAlso self.old self.new from (R.range range) to) }
        ensures starts { KeepsStarts self.old self.new }
        ensures accepting { KeepsAccepting self.old self.new }
        ensures refused { OnErr result (KeepsRules self.old self.new) }
    {
        if let Some(transitions) = self.transitions.get_mut(&from) {
            return transitions.insert(range, to);
        }
        let mut transitions = RangeMultiMap::new(self.alloc);
        transitions.insert(range, to)?;
        match self.transitions.insert(from, transitions) {
            Ok(_) => Ok(()),
            Err(_) => Err(MapError::Memory),
        }
    }

    /// Lets a text start in the state.
    ///
    /// Allocates. After an error the start states are as they were.
    pub fn start(&mut self, state: u32) -> Result<(), MapError>
        ensures started { OnOk result (StartsAlsoAt self.old self.new state) }
        ensures rules { KeepsRules self.old self.new }
        ensures accepting { KeepsAccepting self.old self.new }
        ensures refused { OnErr result (KeepsStarts self.old self.new) }
    {
        match self.starts.insert(state) {
            Ok(_) => Ok(()),
            Err(_) => Err(MapError::Memory),
        }
    }

    /// Lets a text end in the state, which then accepts.
    ///
    /// Allocates. After an error the accepting states are as they were.
    pub fn accept(&mut self, state: u32) -> Result<(), MapError>
        ensures accepting { OnOk result (AcceptsAlsoAt self.old self.new state) }
        ensures rules { KeepsRules self.old self.new }
        ensures starts { KeepsStarts self.old self.new }
        ensures refused { OnErr result (KeepsAccepting self.old self.new) }
    {
        match self.accepting.insert(state) {
            Ok(_) => Ok(()),
            Err(_) => Err(MapError::Memory),
        }
    }

    /// The states that rules lead to from a state by a character, where there are some.
    pub(crate) fn targets(&self, state: u32, c: char) -> Option<&BTreeSet<u32>>
        ensures { AreTargets self.now state c (option_copied result) }
    {
        let transitions = self.transitions.get(&state)?;
        transitions.get::<u32>(c)
    }
}
