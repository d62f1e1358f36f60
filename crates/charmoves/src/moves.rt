//! Following the rules.
ghost use Rattle.std.specs.Prelude.{◌≡◌, ◌↔◌, IsTrue, IfOk};
ghost use Rattle.std.specs.Str.{chars};
ghost use Rattle.charmoves.specs.Automata.{rules_of, Accepts, AreReached, AreStarts, AcceptsAmong, LeadsAmong};

use crate::rules::Rules;
use btree_range_map::RangeMultiMap;
use btree_range_map::generic::map::MapError;
use state_sets::{Automaton, follow};
use std::alloc::Global;
use std::collections::BTreeSet;

/// An automaton that follows its rules.
#[derive(Drop)]
pub struct Moves {
    rules: Rules,
}

impl Moves {
    /// The automaton of the rules. Allocates nothing.
    pub fn build(rules: Rules) -> Moves
        ensures { rules_of result ≡ rules }
    {
        Moves { rules }
    }

    /// The states that some rule leads to from one of the given by the character.
    ///
    /// Looks each given state up once, and its ranges once. Allocates.
    pub fn step(&self, states: &BTreeSet<u32>, c: char) -> Result<BTreeSet<u32>, MapError>
        ensures reached { IfOk result (AreReached (rules_of self.now) states.now c) }
    {
        let mut reached = BTreeSet::new(self.rules.alloc);
        for state in states {
            if let Some(targets) = self.rules.targets(*state, c) {
                reached.extend(targets)?;
            }
        }
        Ok(reached)
    }

    /// The states in which a text starts. Allocates.
    pub fn starts(&self) -> Result<BTreeSet<u32>, MapError>
        ensures starts { IfOk result (AreStarts (rules_of self.now)) }
    {
        Ok(self.rules.starts.clone()?)
    }

    /// Whether a text may end in one of the states. Allocates nothing.
    pub fn is_accepting(&self, states: &BTreeSet<u32>) -> bool
        ensures accepting { IsTrue result ↔ AcceptsAmong (rules_of self.now) states.now }
    {
        !states.is_disjoint(&self.rules.accepting)
    }

    /// The characters by which some rule leads on from one of the states, with the states that it
    /// leads to. Allocates.
    pub fn leads(
        &self,
        states: &BTreeSet<u32>,
    ) -> Result<RangeMultiMap<char, BTreeSet<u32>>, MapError>
        ensures leads { IfOk result (LeadsAmong (rules_of self.now) states.now) }
    {
        let mut leads = RangeMultiMap::new(self.rules.alloc);
        for state in states {
            if let Some(more) = self.rules.transitions.get(state) {
                leads = leads.union::<u32, _>(more)?;
            }
        }
        Ok(leads)
    }

    /// Whether the text can be read from a start state on, one rule a character, so that it ends
    /// in an accepting state. The empty text is accepted where a start state accepts.
    ///
    /// Makes one step a character, from all states that were reached. Allocates.
    pub fn accepts(&self, text: &str) -> Result<bool, MapError>
        ensures path { IfOk result (λ b. IsTrue b ↔ Accepts (rules_of self.now) (chars text.now)) }
    {
        let states = follow(self, text)?;
        Ok(self.is_accepting(&states))
    }
}

impl Automaton for Moves {
    ghost use Rattle.charmoves.specs.Automata.{rules_of, HasRule, IsStart};

    type Error = MapError;

    ghost has_step = { λ moves. HasRule (rules_of moves) };

    ghost is_start = { λ moves. IsStart (rules_of moves) };

    fn starts(&self) -> Result<BTreeSet<u32>, MapError> {
        Moves::starts(self)
    }

    fn step(&self, states: &BTreeSet<u32>, c: char) -> Result<BTreeSet<u32>, MapError> {
        Moves::step(self, states, c)
    }
}
