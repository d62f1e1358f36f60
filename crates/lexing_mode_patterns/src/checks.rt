//! Rules that are not taken.
ghost use Rattle.std.specs.Prelude.{ℕ, IfErr, IfSome};
ghost use Rattle.lexing_mode_patterns.specs.Refusals.{IsRefusalOf, NamesUnknown};

use crate::error::ModeRuleError;
use crate::rules::{ModeRule, patterns_of};
use lexing_patterns::lexer;
use std::alloc::Global;

/// Why some of the patterns are not taken: by the first of all rules that is not.
pub(crate) fn fault_in(alloc: Global, rules: &[ModeRule]) -> ModeRuleError
    ensures refused { (count budget : ℕ) → IsRefusalOf rules.now count budget result }
{
    let Ok(patterns) = patterns_of(alloc, rules) else {
        return ModeRuleError::Memory;
    };
    match lexer(alloc, &patterns) {
        Err(error) => ModeRuleError::Rule(error),
        Ok(_) => ModeRuleError::Memory,
    }
}

/// The first mode that the rule names and that is not among so many.
fn unknown_mode(rule: &ModeRule, count: u32) -> Option<u32>
    ensures { IfSome result (NamesUnknown count rule.now) }
{
    for at in 0..rule.modes.len() {
        let mode = rule.modes[at];
        if count <= mode {
            return Some(mode);
        }
    }
    match rule.change.mode() {
        Some(mode) if count <= mode => Some(mode),
        _ => None,
    }
}

/// Whether all modes that the rules name are among so many.
pub(crate) fn check_modes(rules: &[ModeRule], count: u32) -> Result<(), ModeRuleError>
    ensures refused { (budget : ℕ) → IfErr result (IsRefusalOf rules.now count budget) }
{
    for rule in 0..rules.len() {
        if let Some(mode) = unknown_mode(&rules[rule], count) {
            return Err(ModeRuleError::UnknownMode { rule, mode });
        }
    }
    Ok(())
}
