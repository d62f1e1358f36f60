//! Automata in parts, and how parts are put together.
ghost use Rattle.std.specs.Prelude.{ℕ, ◌≤◌, ◌<◌, ◌+◌, ◌≡◌, ◌↔◌, ◌⊎◌, [], ◌∷◌, List, length, true, if◌then◌else◌, IsTrue, IfOk, OnOk, vec_len};
ghost use Rattle.std.specs.Str.{all_scalars};
ghost use Rattle.regex_class.specs.Ranges.{in_ranges};
ghost use Rattle.lexing_classes.specs.Leads.{Leads};
ghost use Rattle.lexing_patterns.specs.Languages.{InTurn, OneOf, RoundsOf};
ghost use Rattle.lexing_patterns.specs.Parts.{HasEdge, IsAmong, Reads, IsWithin};
ghost use Rattle.lexing_patterns.specs.Sizes.{HasSize, Size, choice_size, class_size, empty_size, rounds_size, turn_size};

use lexing_classes::{Lead, leads_of};
use regex_class::ClassRange;
use std::alloc::{AllocError, Global};

/// A state from which characters lead on.
#[derive(Clone, Copy)]
pub(crate) struct Edge {
    pub(crate) from: u32,
    pub(crate) lead: Lead,
}

/// An automaton without a start state: `leads` are the ways in, `ends` the states in which a text
/// may end.
#[derive(Drop)]
pub(crate) struct Part {
    pub(crate) leads: Vec<Lead>,
    pub(crate) ends: Vec<u32>,
    pub(crate) edges: Vec<Edge>,
    /// Whether the empty text is accepted.
    pub(crate) empty: bool,
}

/// Accepts no text.
pub(crate) fn nothing(alloc: Global) -> Part
    ensures reads { (w : List ℕ) → ¬ Reads result w }
    ensures within { (low high : ℕ) → IsWithin result low high }
    ensures size { HasSize result (class_size []) }
{
    Part {
        leads: Vec::new(alloc),
        ends: Vec::new(alloc),
        edges: Vec::new(alloc),
        empty: false,
    }
}

/// Accepts one character of the ranges, which leads to the state.
pub(crate) fn one_of(alloc: Global, ranges: &[ClassRange], state: u32) -> Result<Part, AllocError>
    requires { 0 < length ranges.now }
    ensures reads { IfOk result (λ r. (w : List ℕ) → all_scalars w ≡ true
        → Reads r w ↔ OneOf (in_ranges ranges.now) w) }
    ensures within { IfOk result (λ r. IsWithin r state (state + 1)) }
    ensures size { IfOk result (λ r. HasSize r (class_size ranges.now)) }
{
    let leads = leads_of(alloc, ranges, state)?;
    let ends = Vec::from_slice(alloc, &[state])?;
    Ok(Part {
        leads,
        ends,
        edges: Vec::new(alloc),
        empty: false,
    })
}

/// Accepts the empty text too.
pub(crate) fn or_empty(part: Part) -> Part
    ensures reads { (w : List ℕ) → Reads result w ↔ (Reads part w ⊎ (w ≡ [])) }
    ensures within { (low high : ℕ) → IsWithin part low high → IsWithin result low high }
    ensures size { (a : Size) → HasSize part a → HasSize result (choice_size a empty_size) }
{
    let Part {
        leads,
        ends,
        edges,
        empty: _,
    } = part;
    Part {
        leads,
        ends,
        edges,
        empty: true,
    }
}

/// Accepts what either part does. The parts share no state.
pub(crate) fn either(one: Part, other: Part) -> Result<Part, AllocError>
    ensures reads { IfOk result (λ r. (low middle high : ℕ) → IsWithin other low middle
        → IsWithin one middle high → (w : List ℕ) → Reads r w ↔ (Reads one w ⊎ Reads other w)) }
    ensures within { IfOk result (λ r. (low middle high : ℕ) → low ≤ middle → middle ≤ high
        → IsWithin other low middle → IsWithin one middle high → IsWithin r low high) }
    ensures size { IfOk result
        (λ r. (a b : Size) → HasSize one a → HasSize other b → HasSize r (choice_size a b)) }
{
    let Part {
        mut leads,
        mut ends,
        mut edges,
        empty,
    } = other;
    leads.extend_from_slice(&one.leads)?;
    ends.extend_from_slice(&one.ends)?;
    edges.extend_from_slice(&one.edges)?;
    let empty = empty || one.empty;
    Ok(Part {
        leads,
        ends,
        edges,
        empty,
    })
}

/// Accepts a text of the front and then one of the back. The parts share no state.
pub(crate) fn in_turn(front: Part, back: Part) -> Result<Part, AllocError>
    ensures reads { IfOk result (λ r. (low middle high : ℕ) → IsWithin back low middle
        → IsWithin front middle high → (w : List ℕ)
        → Reads r w ↔ InTurn (Reads front) (Reads back) w) }
    ensures within { IfOk result (λ r. (low middle high : ℕ) → low ≤ middle → middle ≤ high
        → IsWithin back low middle → IsWithin front middle high → IsWithin r low high) }
    ensures size { IfOk result
        (λ r. (a b : Size) → HasSize front a → HasSize back b → HasSize r (turn_size a b)) }
{
    let Part {
        leads: leads_of_back,
        ends,
        mut edges,
        empty,
    } = back;
    edges.extend_from_slice(&front.edges)?;
    link_all(&mut edges, &front.ends, &leads_of_back)?;
    let ends = states_with(ends, &front.ends, empty)?;
    let leads = leads_with(front.leads, &leads_of_back, front.empty)?;
    let empty = front.empty && empty;
    Ok(Part {
        leads,
        ends,
        edges,
        empty,
    })
}

/// Accepts one text of the part or several, one after the other.
pub(crate) fn repeated(part: Part) -> Result<Part, AllocError>
    ensures reads { IfOk result (λ r. (w : List ℕ) → Reads r w ↔ RoundsOf (Reads part) w) }
    ensures within { IfOk result (λ r. (low high : ℕ) → IsWithin part low high
        → IsWithin r low high) }
    ensures size { IfOk result (λ r. (a : Size) → HasSize part a → HasSize r (rounds_size a)) }
{
    let Part {
        leads,
        ends,
        mut edges,
        empty,
    } = part;
    link_all(&mut edges, &ends, &leads)?;
    Ok(Part {
        leads,
        ends,
        edges,
        empty,
    })
}

/// The leads, with others behind them where these are wanted.
fn leads_with(mut leads: Vec<Lead>, more: &[Lead], wanted: bool) -> Result<Vec<Lead>, AllocError>
    ensures members { IfOk result (λ r. (c q : ℕ) → Leads r.items c q
        ↔ (Leads leads.items c q ⊎ (IsTrue wanted × Leads more.now c q))) }
    ensures len { IfOk result
        (λ r. vec_len r ≡ vec_len leads + (if wanted then length more.now else 0)) }
{
    if wanted {
        leads.extend_from_slice(more)?;
    }
    Ok(leads)
}

/// The states, with others behind them where these are wanted.
pub(crate) fn states_with(
    mut states: Vec<u32>,
    more: &[u32],
    wanted: bool,
) -> Result<Vec<u32>, AllocError>
    ensures members { IfOk result (λ r. (q : ℕ) → IsAmong q r.items
        ↔ (IsAmong q states.items ⊎ (IsTrue wanted × IsAmong q more.now))) }
    ensures len { IfOk result
        (λ r. vec_len r ≡ vec_len states + (if wanted then length more.now else 0)) }
{
    if wanted {
        states.extend_from_slice(more)?;
    }
    Ok(states)
}

/// Adds edges that lead on from each of the states by each lead.
fn link_all(edges: &mut Vec<Edge>, states: &[u32], leads: &[Lead]) -> Result<(), AllocError>
    ensures { OnOk result ((p c q : ℕ) → HasEdge edges.new.items p c q
        ↔ (HasEdge edges.old.items p c q ⊎ (IsAmong p states.now × Leads leads.now c q))) }
{
    for state in states {
        link(edges, *state, leads)?;
    }
    Ok(())
}

/// Adds edges that lead on from the state by each lead.
pub(crate) fn link(edges: &mut Vec<Edge>, from: u32, leads: &[Lead]) -> Result<(), AllocError>
    ensures { OnOk result ((p c q : ℕ) → HasEdge edges.new.items p c q
        ↔ (HasEdge edges.old.items p c q ⊎ ((p ≡ from) × Leads leads.now c q))) }
{
    for lead in leads {
        edges.push(Edge { from, lead: *lead })?;
    }
    Ok(())
}
