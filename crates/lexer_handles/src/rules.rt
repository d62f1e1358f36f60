//! Rules as they cross to C.
ghost use Rattle.std.specs.Prelude.{◌≡◌, ◌++◌, ◌∷◌, [], ◌<◌, ◌≤◌, IfOk, MatchOption, OnOk, length, take};
ghost use Rattle.lexer_handles.specs.Rules.{AreRead, IsReadAs, IsText, StopsAtNoText};

use lexing_patterns::PatternRule;
use std::alloc::{AllocError, Global};

/// A rule of a lexer: how it is called, what its tokens match, and whether they are skipped.
#[repr(C)]
#[derive(Clone, Copy)]
pub struct Rule<'a> {
    pub name: &'a [u8],
    pub pattern: &'a [u8],
    pub is_skipped: bool,
}

/// The rule, if both its name and its pattern are UTF-8.
fn pattern_of<'a>(rule: &Rule<'a>) -> Option<PatternRule<'a>>
    ensures { MatchOption result (¬ IsText rule.now) (IsReadAs rule.now) }
{
    let Ok(name) = str::from_utf8(rule.name) else {
        return None;
    };
    let Ok(pattern) = str::from_utf8(rule.pattern) else {
        return None;
    };
    Some(PatternRule {
        name,
        pattern,
        skipped: rule.is_skipped,
    })
}

/// The rules up to the first that is no UTF-8. Allocates.
pub(crate) fn texts_of<'a>(
    alloc: Global,
    rules: &[Rule<'a>],
) -> Result<Vec<PatternRule<'a>>, AllocError>
    ensures read { IfOk result
        (λ found. AreRead (take (length found.items) rules.now) found.items) }
    ensures within { IfOk result (λ found. length found.items ≤ length rules.now) }
    ensures stop { IfOk result (λ found. length found.items < length rules.now
        → StopsAtNoText rules.now (length found.items)) }
{
    let mut found = Vec::new(alloc);
    for at in 0..rules.len() {
        let Some(rule) = pattern_of(&rules[at]) else {
            return Ok(found);
        };
        push_copy(&mut found, rule)?;
    }
    Ok(found)
}

fn push_copy<T: Copy + Drop>(items: &mut Vec<T>, item: T) -> Result<(), AllocError>
    ensures { OnOk result (items.new.items ≡ items.old.items ++ item ∷ []) }
{
    match items.push(item) {
        Ok(()) => Ok(()),
        Err(_) => Err(AllocError),
    }
}
