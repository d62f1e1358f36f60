//! The machine of rules.
ghost use Rattle.std.specs.Prelude.{◌≤◌, ℕ, IfErr, IfOk};
ghost use Rattle.lexing.specs.MachineSteps.{lexer_of, state_count};
ghost use Rattle.lexer_handles.specs.Refusals.{IsOfPattern, IsRefusalOf};
ghost use Rattle.lexer_handles.specs.Rules.{IsLexerOf};

use crate::refusal::{BadRule, Reason, Refusal};
use crate::rules::{Rule, texts_of};
use lexing::{BuildError, Lexer, Machine};
use lexing_patterns::{PatternError, PatternRule, RuleError, lexer};
use std::alloc::Global;

/// The machine of the rules, of at most so many states.
///
/// A token is the longest piece of the text from its place on that one of the patterns matches, by
/// the first such pattern. Rules are numbered from 0, as they stand. The first that is not taken is
/// named. Allocates; costs as `lexing_patterns::lexer` and `Machine::build`.
pub fn machine_of(alloc: Global, rules: &[Rule], budget: u32) -> Result<Machine, Refusal>
    ensures machine { IfOk result (λ machine. IsLexerOf rules.now (lexer_of machine)) }
    ensures few { IfOk result (λ machine. state_count machine ≤ budget) }
    ensures refused { IfErr result (IsRefusalOf rules.now budget) }
{
    let lexer = read_lexer(alloc, rules)?;
    match Machine::build(alloc, lexer, budget) {
        Ok(machine) => Ok(machine),
        Err(BuildError::TooLarge) => Err(Refusal::TooLarge),
        Err(BuildError::Memory) => Err(Refusal::Memory),
    }
}

/// The lexer of the rules.
fn read_lexer(alloc: Global, rules: &[Rule]) -> Result<Lexer, Refusal>
    ensures lexer { IfOk result (IsLexerOf rules.now) }
    ensures refused { (budget : ℕ) → IfErr result (IsRefusalOf rules.now budget) }
{
    let Ok(texts) = texts_of(alloc, rules) else {
        return Err(Refusal::Memory);
    };
    match lexer(alloc, &texts) {
        Err(error) => Err(refusal_of(error)),
        Ok(_) if texts.len() < rules.len() => Err(Refusal::Rule(BadRule {
            rule: texts.len(),
            reason: Reason::NotText,
        })),
        Ok(lexer) => Ok(lexer),
    }
}

/// The refusal of a rule whose pattern is not taken.
fn refusal_of(error: RuleError) -> Refusal
    ensures { IsOfPattern error result }
{
    match error.error {
        PatternError::Memory => Refusal::Memory,
        reason => Refusal::Rule(BadRule {
            rule: error.rule,
            reason: Reason::Pattern(reason),
        }),
    }
}
