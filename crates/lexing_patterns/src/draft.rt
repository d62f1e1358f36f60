//! The automata of several rules, side by side.
ghost use Rattle.std.specs.Prelude.{ℕ, ◌≡◌, ◌↔◌, ◌⊎◌, [], ◌∷◌, ◌++◌, List, length, IfErr, OnOk};
ghost use Rattle.regex_hir.specs.Re.{Re};
ghost use Rattle.regex_hir.specs.Meaning.{meaning};
ghost use Rattle.lexing_patterns.specs.Drafts.{HasEnd, IsDraft};
ghost use Rattle.lexing_patterns.specs.Faults.{IsFaultBehind};
ghost use Rattle.lexing_patterns.specs.Parts.{IsAmong};

use crate::builder::Builder;
use crate::error::PatternError;
use crate::part::{Edge, Part, link, states_with};
use regex_hir::Hir;
use std::alloc::{AllocError, Global};

/// How many steps the patterns of one lexer may take: states, ranges and edges.
const BUDGET: usize = 1_000_000;

/// A state in which texts of a rule may end.
#[derive(Clone, Copy)]
pub(crate) struct End {
    pub(crate) state: u32,
    pub(crate) rule: u32,
}

/// The automata of several rules, each with a start state of its own.
#[derive(Drop)]
pub(crate) struct Draft {
    pub(crate) edges: Vec<Edge>,
    pub(crate) starts: Vec<u32>,
    pub(crate) ends: Vec<End>,
    builder: Builder,
}

impl Draft {
    pub(crate) fn new(alloc: Global) -> Draft
        ensures { IsDraft result [] }
    {
        Draft {
            edges: Vec::new(alloc),
            starts: Vec::new(alloc),
            ends: Vec::new(alloc),
            builder: Builder {
                alloc,
                next: 0,
                budget: BUDGET,
            },
        }
    }

    /// Adds the automaton of a pattern, for the next rule.
    pub(crate) fn add(&mut self, hir: &Hir, rule: u32) -> Result<(), PatternError>
        ensures added { OnOk result ((res : List Re) → rule ≡ length res → IsDraft self.old res
            → IsDraft self.new (res ++ meaning hir.now ∷ [])) }
        ensures refused { (res : List Re) → IsDraft self.old res
            → IfErr result (IsFaultBehind res (meaning hir.now)) }
    {
        let part = self.builder.part(hir)?;
        let start = self.builder.state()?;
        let Part {
            leads,
            ends,
            edges,
            empty,
        } = part;
        let states = states_with(ends, &[start], empty)?;
        self.edges.extend_from_slice(&edges)?;
        link(&mut self.edges, start, &leads)?;
        self.starts.push(start)?;
        add_ends(&mut self.ends, &states, rule)?;
        Ok(())
    }
}

/// Lets texts of the rule end in the states.
fn add_ends(ends: &mut Vec<End>, states: &[u32], rule: u32) -> Result<(), AllocError>
    ensures { OnOk result ((q r : ℕ) → HasEnd ends.new.items q r
        ↔ (HasEnd ends.old.items q r ⊎ (IsAmong q states.now × (r ≡ rule)))) }
{
    for state in states {
        ends.push(End {
            state: *state,
            rule,
        })?;
    }
    Ok(())
}
