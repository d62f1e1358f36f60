//! A lexer of several patterns.
ghost use Rattle.std.specs.Prelude.{ℕ, ◌≤◌, ◌≡◌, ◌≢◌, ◌⊎◌, ◌↔◌, ◌∷◌, [], ◌++◌, List, length, IfErr, IfOk, OnOk};
ghost use Rattle.regex_hir.specs.Re.{Re};
ghost use Rattle.lexing.specs.Lexers.{Accepts, rules_in, rule_count};
ghost use Rattle.regex_syntax.specs.declared.error.ErrorKind.TheVariants.{OutOfMemory};
ghost use Rattle.lexing_patterns.specs.Drafts.{IsDraft};
ghost use Rattle.lexing_patterns.specs.Faults.{AreTaken, IsFault, IsRefusal};
ghost use Rattle.lexing_patterns.specs.Patterns.{IsReadAs, AreReadAs, IsPoured, IsLexerOf, HasNamesOf, SkipsAs};
ghost use Rattle.lexing_patterns.specs.Sizes.{step_budget};
ghost use Rattle.lexing_patterns.specs.declared.error.PatternError.TheVariants.{Memory, Syntax};

use crate::draft::Draft;
use crate::error::{PatternError, RuleError};
use crate::pour::{accept_all, rules_of};
use charmoves::Moves;
use lexing::Lexer;
use regex_syntax::{Config, ErrorKind};
use std::alloc::Global;

/// A rule of a lexer: how it is called, what its tokens match, and whether they are skipped.
#[derive(Clone, Copy)]
pub struct PatternRule<'a> {
    pub name: &'a str,
    pub pattern: &'a str,
    pub skipped: bool,
}

/// The lexer of the rules.
///
/// Each token is the longest piece of the text from its place on that one of the patterns matches,
/// by the first such pattern. The patterns are those of the crate `regex_syntax`, without
/// assertions. The rules are numbered from 0, as they stand. An error names the first rule that is
/// not taken, and why. The patterns together may take a million steps: one for each state, range and
/// edge of their automata.
///
/// Costs a state for each character or class of the patterns, after `{m,n}` is written out.
/// Allocates.
pub fn lexer(alloc: Global, rules: &[PatternRule]) -> Result<Lexer, RuleError>
    ensures count { IfOk result (λ lexer. rule_count lexer ≡ length rules.now) }
    ensures named { IfOk result (HasNamesOf rules.now) }
    ensures skips { IfOk result (SkipsAs rules.now) }
    ensures tokens { IfOk result (IsLexerOf rules.now) }
    ensures taken { IfOk result (λ lexer. (patterns : List Re) × AreTaken rules.now patterns) }
    ensures refused { IfErr result (IsRefusal rules.now) }
{
    let draft = draft_of(alloc, rules)?;
    match assembled(alloc, &draft, rules) {
        Ok(lexer) => Ok(lexer),
        Err(error) => Err(RuleError {
            rule: rules.len(),
            error,
        }),
    }
}

/// The automata of the rules.
fn draft_of(alloc: Global, rules: &[PatternRule]) -> Result<Draft, RuleError>
    ensures drafted { IfOk result
        (λ draft. (res : List Re) × AreReadAs rules.now res × IsDraft draft res) }
    ensures refused { IfErr result (IsRefusal rules.now) }
{
    let mut draft = Draft::new(alloc);
    for i in 0..rules.len() {
        match add_pattern(&mut draft, alloc, rules[i].pattern, i) {
            Ok(()) => {}
            Err(error) => return Err(RuleError { rule: i, error }),
        }
    }
    Ok(draft)
}

/// Adds the automaton of the pattern, for the rule of this number.
fn add_pattern(
    draft: &mut Draft,
    alloc: Global,
    pattern: &str,
    number: usize,
) -> Result<(), PatternError>
    requires { number ≤ step_budget }
    ensures added { OnOk result ((res : List Re) → number ≡ length res → IsDraft draft.old res
        → (re : Re) × IsReadAs pattern.now re × IsDraft draft.new (res ++ re ∷ [])) }
    ensures refused { (res : List Re) → IsDraft draft.old res
        → IfErr result (IsFault res pattern.now) }
{
    let rule = number as u32;
    match regex_syntax::parse(alloc, pattern, &Config::default()) {
        Ok(parsed) => draft.add(&parsed.hir, rule),
        Err(error) => Err(fault(error)),
    }
}

fn fault(error: regex_syntax::Error) -> PatternError
    ensures { (result ≡ Memory) ⊎ ((result ≡ Syntax error) × (error.kind ≢ OutOfMemory)) }
{
    match error.kind {
        ErrorKind::OutOfMemory => PatternError::Memory,
        _ => PatternError::Syntax(error),
    }
}

fn assembled(alloc: Global, draft: &Draft, rules: &[PatternRule]) -> Result<Lexer, PatternError>
    ensures count { IfOk result (λ lexer. rule_count lexer ≡ length rules.now) }
    ensures named { IfOk result (HasNamesOf rules.now) }
    ensures skips { IfOk result (SkipsAs rules.now) }
    ensures poured { IfOk result (IsPoured draft.now) }
    ensures memory { IfErr result (λ error. error ≡ Memory) }
{
    let moves = Moves::build(rules_of(alloc, draft)?);
    let mut lexer = Lexer::new(alloc, moves);
    accept_all(&mut lexer, &draft.ends)?;
    name_all(&mut lexer, rules)?;
    Ok(lexer)
}

/// Adds the rules to a lexer that has none.
fn name_all(lexer: &mut Lexer, rules: &[PatternRule]) -> Result<(), PatternError>
    requires { rule_count lexer.old ≡ 0 }
    ensures count { OnOk result (rule_count lexer.new ≡ length rules.now) }
    ensures named { OnOk result (HasNamesOf rules.now lexer.new) }
    ensures skips { OnOk result (SkipsAs rules.now lexer.new) }
    ensures automaton { rules_in lexer.new ≡ rules_in lexer.old }
    ensures accepting { (q r : ℕ) → Accepts lexer.new q r ↔ Accepts lexer.old q r }
    ensures memory { IfErr result (λ error. error ≡ Memory) }
{
    for rule in rules {
        lexer.add_rule(rule.name, rule.skipped)?;
    }
    Ok(())
}
