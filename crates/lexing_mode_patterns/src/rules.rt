//! Rules, and those that hold in a mode.
ghost use Rattle.std.specs.Prelude.{◌≡◌, ◌++◌, ◌∷◌, [], IfOk, OnOk};
ghost use Rattle.lexing_mode_patterns.specs.Rules.{holds_in, patterns_of, rules_in};

use lexing_modes::ModeChange;
use lexing_patterns::PatternRule;
use std::alloc::{AllocError, Global};

/// A rule of a lexer with modes.
#[derive(Clone, Copy)]
pub struct ModeRule<'a> {
    /// How it is called, what its tokens match, and whether they are skipped.
    pub rule: PatternRule<'a>,
    /// The modes in which it holds.
    pub modes: &'a [u32],
    /// What it does to the mode, behind its tokens.
    pub change: ModeChange,
}

/// Whether the rule holds in the mode.
fn holds_in(rule: &ModeRule, mode: u32) -> bool
    ensures { result ≡ holds_in mode rule.now }
{
    rule.modes.contains(&mode)
}

/// The rules that hold in the mode, in their order.
pub(crate) fn rules_in<'a>(
    alloc: Global,
    rules: &[ModeRule<'a>],
    mode: u32,
) -> Result<Vec<ModeRule<'a>>, AllocError>
    ensures { IfOk result (λ found. found.items ≡ rules_in rules.now mode) }
{
    let mut found = Vec::new(alloc);
    for at in 0..rules.len() {
        let rule = rules[at];
        if holds_in(&rule, mode) {
            push_copy(&mut found, rule)?;
        }
    }
    Ok(found)
}

/// The names and patterns of the rules.
pub(crate) fn patterns_of<'a>(
    alloc: Global,
    rules: &[ModeRule<'a>],
) -> Result<Vec<PatternRule<'a>>, AllocError>
    ensures { IfOk result (λ found. found.items ≡ patterns_of rules.now) }
{
    let mut found = Vec::new(alloc);
    for at in 0..rules.len() {
        push_copy(&mut found, rules[at].rule)?;
    }
    Ok(found)
}

fn push_copy<T: Copy + Drop>(items: &mut Vec<T>, item: T) -> Result<(), AllocError>
    ensures { OnOk result (items.new.items ≡ items.old.items ++ item ∷ []) }
{
    match items.push(item) {
        Ok(()) => Ok(()),
        Err(_) => Err(AllocError),
    }
}
