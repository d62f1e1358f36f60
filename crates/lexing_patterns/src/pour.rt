//! The automata of several rules as one lexer's.
ghost use Rattle.std.specs.Prelude.{ℕ, ◌≡◌, ◌↔◌, ◌⊎◌, IfErr, IfOk, OnOk};
ghost use Rattle.btree_range_map.specs.Characters.{IsCharacter};
ghost use Rattle.charmoves.specs.Automata.{HasRule, IsStart, KeepsStarts, KeepsRules};
ghost use Rattle.lexing.specs.Lexers.{Accepts, rules_in, rule_count};
ghost use Rattle.lexing_patterns.specs.Drafts.{HasEnd, EndsAtOne};
ghost use Rattle.lexing_patterns.specs.Parts.{HasEdge, IsAmong};
ghost use Rattle.lexing_patterns.specs.declared.error.PatternError.TheVariants.{Memory};

use crate::draft::{Draft, End};
use crate::error::PatternError;
use crate::part::Edge;
use charmoves::Rules;
use lexing::Lexer;
use std::alloc::Global;

/// The rules of the automata.
pub(crate) fn rules_of(alloc: Global, draft: &Draft) -> Result<Rules, PatternError>
    ensures edges { IfOk result (λ r. (p c q : ℕ) → IsCharacter c
        → HasRule r p c q ↔ HasEdge draft.now.edges.items p c q) }
    ensures starts { IfOk result (λ r. (p : ℕ) → IsStart r p ↔ IsAmong p draft.now.starts.items) }
    ensures memory { IfErr result (λ error. error ≡ Memory) }
{
    let mut rules = Rules::new(alloc);
    add_edges(&mut rules, &draft.edges)?;
    add_starts(&mut rules, &draft.starts)?;
    Ok(rules)
}

fn add_edges(rules: &mut Rules, edges: &[Edge]) -> Result<(), PatternError>
    ensures edges { OnOk result ((p c q : ℕ) → IsCharacter c
        → HasRule rules.new p c q ↔ (HasRule rules.old p c q ⊎ HasEdge edges.now p c q)) }
    ensures starts { KeepsStarts rules.old rules.new }
    ensures memory { IfErr result (λ error. error ≡ Memory) }
{
    for edge in edges {
        let lead = edge.lead;
        rules.add(edge.from, lead.first..=lead.last, lead.to)?;
    }
    Ok(())
}

fn add_starts(rules: &mut Rules, states: &[u32]) -> Result<(), PatternError>
    ensures starts { OnOk result ((p : ℕ) → IsStart rules.new p
        ↔ (IsStart rules.old p ⊎ IsAmong p states.now)) }
    ensures rules { KeepsRules rules.old rules.new }
    ensures memory { IfErr result (λ error. error ≡ Memory) }
{
    for state in states {
        rules.start(*state)?;
    }
    Ok(())
}

/// Lets tokens of the lexer's rules end where the automata do.
pub(crate) fn accept_all(lexer: &mut Lexer, ends: &[End]) -> Result<(), PatternError>
    ensures accepting { OnOk result (EndsAtOne ends.now → ((q r : ℕ) → ¬ Accepts lexer.old q r)
        → (q r : ℕ) → Accepts lexer.new q r ↔ HasEnd ends.now q r) }
    ensures automaton { rules_in lexer.new ≡ rules_in lexer.old }
    ensures count { rule_count lexer.new ≡ rule_count lexer.old }
    ensures memory { IfErr result (λ error. error ≡ Memory) }
{
    for end in ends {
        lexer.accept(end.state, end.rule)?;
    }
    Ok(())
}
