//! How a machine is built: by the subset construction.
ghost use Rattle.std.specs.Prelude.{◌≡◌, ◌+◌, ◌<◌, ◌≤◌, ◌↔◌, length, IsTrue, IfOk, IfErr, IfSome, IfNone, OnOk, vec_len};
ghost use Rattle.std.specs.Ordering.{nat_cmp};
ghost use Rattle.std.specs.BTreeSet.{contains};
ghost use Rattle.charmoves.specs.declared.rules.Rules.{Rules};
ghost use Rattle.lexing.specs.declared.error.BuildError.TheVariants.{Memory};
ghost use Rattle.lexing.specs.Lexers.{rules_in};
ghost use Rattle.lexing.specs.Machines.{AreStates, IsMachine};
ghost use Rattle.lexing.specs.MachineSteps.{lexer_of, state_count};
ghost use Rattle.lexing.specs.Budgets.{IsReached, AreMet, IsBuildReason};
ghost use Rattle.lexing.specs.Building.{AreFirst, IsRowAt};
ghost use Rattle.state_sets.specs.Found.{AreFound};
ghost use Rattle.state_sets.specs.Listed.{IsIndexOf, KeepsAll};

use crate::error::BuildError;
use crate::lexer::Lexer;
use crate::machine::Machine;
use crate::states::States;
use btree_range_map::RangeMap;
use btree_range_map::generic::map::stored_lists_are_coarse;
use btree_range_map::generic::multimap::stored_sets_have_all_values;
use state_sets::{Sets, first_rule};
use std::alloc::Global;
use std::collections::BTreeSet;

impl Machine {
    /// The machine of the lexer, by the subset construction, or `TooLarge` where it has more states
    /// than the budget.
    ///
    /// A machine may have exponentially many states: one for each set of states of the lexer that
    /// some text reaches. Each set is looked for in a search tree of those that were met: a machine
    /// of `n` states with `m` ranges in all costs about `m * log n` comparisons of sets. Allocates.
    /// It has at most 16,777,216 states: beyond that, building fails as without memory.
    ///
    /// ```
    /// // of a lexer
    /// let machine = Machine::build(alloc, lexer, 1000)?;
    /// let mut tokens = machine.tokens("12 345");
    /// ```
    pub fn build(alloc: Global, lexer: Lexer, budget: u32) -> Result<Machine, BuildError>
        ensures lexer { IfOk result (λ machine. lexer_of machine ≡ lexer) }
        ensures few { IfOk result (λ machine. state_count machine ≤ budget) }
        ensures refused { IfErr result (IsBuildReason (rules_in lexer) budget) }
    {
        let states = states_of(alloc, &lexer, budget)?;
        Ok(Machine { lexer, states })
    }
}

/// The states: one for each set of the lexer's states that some text reaches.
fn states_of(alloc: Global, lexer: &Lexer, budget: u32) -> Result<States, BuildError>
    ensures sound { IfOk result (IsMachine lexer.now) }
    ensures few { IfOk result (λ states. vec_len states.rows ≤ budget) }
    ensures refused { IfErr result (IsBuildReason (rules_in lexer.now) budget) }
{
    let mut sets = started(alloc, lexer)?;
    if budget == 0 {
        return Err(BuildError::TooLarge);
    }
    let mut states = States::new(alloc);
    while states.rows.len() < sets.listed.len() {
        grow(alloc, lexer, &mut sets, &mut states, budget)?;
    }
    Ok(states)
}

/// The first set, that of the start states.
fn started(alloc: Global, lexer: &Lexer) -> Result<Sets, BuildError>
    ensures first { IfOk result (λ sets. AreFirst (rules_in lexer.now) sets.listed.items) }
    ensures found { IfOk result AreFound }
    ensures refused { IfErr result (λ e. e ≡ Memory) }
{
    let starts = lexer.moves.starts()?;
    let mut sets = Sets::new(alloc);
    sets.add(&starts)?;
    Ok(sets)
}

/// Adds the state of the next set, and the sets that it leads to.
fn grow(
    alloc: Global,
    lexer: &Lexer,
    sets: &mut Sets,
    states: &mut States,
    budget: u32,
) -> Result<(), BuildError>
    requires states { AreStates lexer.now sets.old.listed.items states.old }
    requires more { vec_len states.old.rows < vec_len sets.old.listed }
    requires few { vec_len sets.old.listed ≤ budget }
    requires met { AreMet (rules_in lexer.now) sets.old.listed.items }
    requires found { AreFound sets.old }
    ensures states { OnOk result (AreStates lexer.now sets.new.listed.items states.new) }
    ensures one { OnOk result (vec_len states.new.rows ≡ vec_len states.old.rows + 1) }
    ensures few { vec_len sets.new.listed ≤ budget }
    ensures met { OnOk result (AreMet (rules_in lexer.now) sets.new.listed.items) }
    ensures found { OnOk result (AreFound sets.new) }
    ensures refused { IfErr result (IsBuildReason (rules_in lexer.now) budget) }
{
    let at = states.rows.len();
    let row = row_of(alloc, lexer, sets, at, budget)?;
    let first_rule = first_rule(&lexer.rule_at, &sets.listed[at]);
    states.add(row, first_rule)?;
    Ok(())
}

/// Where the set at the index leads; sets that are new are added.
fn row_of(
    alloc: Global,
    lexer: &Lexer,
    sets: &mut Sets,
    at: usize,
    budget: u32,
) -> Result<RangeMap<char, u32>, BuildError>
    requires within { at < vec_len sets.old.listed }
    requires few { vec_len sets.old.listed ≤ budget }
    requires met { AreMet (rules_in lexer.now) sets.old.listed.items }
    requires found { AreFound sets.old }
    ensures row { IfOk result
        (IsRowAt (rules_in lexer.now) sets.old.listed.items sets.new.listed.items at) }
    ensures kept { KeepsAll sets.old.listed.items sets.new.listed.items }
    ensures longer { vec_len sets.old.listed ≤ vec_len sets.new.listed }
    ensures few { vec_len sets.new.listed ≤ budget }
    ensures met { OnOk result (AreMet (rules_in lexer.now) sets.new.listed.items) }
    ensures found { OnOk result (AreFound sets.new) }
    ensures refused { IfErr result (IsBuildReason (rules_in lexer.now) budget) }
{
    let leads = lexer.moves.leads(&sets.listed[at])?;
    stored_sets_have_all_values::<char, u32, BTreeSet<u32>>();
    stored_lists_are_coarse::<char, BTreeSet<u32>>();
    let mut row = RangeMap::new(alloc);
    let mut entries = leads.iter();
    while let Some((range, targets)) = entries.next() {
        let next = index_of(sets, targets, budget)?;
        row.insert(*range, next)?;
    }
    Ok(row)
}

/// The index of the set, which is added where it is not among the sets.
fn index_of(sets: &mut Sets, set: &BTreeSet<u32>, budget: u32) -> Result<u32, BuildError>
    requires few { vec_len sets.old.listed ≤ budget }
    requires found { AreFound sets.old }
    ensures index { IfOk result (IsIndexOf sets.new.listed.items set.now) }
    ensures found { OnOk result (AreFound sets.new) }
    ensures kept { KeepsAll sets.old.listed.items sets.new.listed.items }
    ensures longer { vec_len sets.old.listed ≤ vec_len sets.new.listed }
    ensures few { vec_len sets.new.listed ≤ budget }
    ensures met { (rules : Rules) → AreMet rules sets.old.listed.items → IsReached rules set.now
        → OnOk result (AreMet rules sets.new.listed.items) }
    ensures refused { (rules : Rules) → AreMet rules sets.old.listed.items → IsReached rules set.now
        → IfErr result (IsBuildReason rules budget) }
{
    if let Some(index) = sets.find(set) {
        return Ok(index);
    }
    if sets.listed.len() == budget as usize {
        return Err(BuildError::TooLarge);
    }
    Ok(sets.add(set)?)
}
