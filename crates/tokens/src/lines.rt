//! Lines of rules.
ghost use Rattle.std.specs.Prelude.{◌≡◌, ◌≤◌, ◌^◌, IfOk, MatchOption, length, map, vec_len};
ghost use Rattle.std.specs.Str.Lines.{lines};
ghost use Rattle.tokens.specs.Heads.{AreHeadsOf, HasNumbers, texts_of};
ghost use Rattle.tokens.specs.Reading.{Says};
ghost use Rattle.tokens.specs.Rules.{AreNumbered, AreRead, IsNoPattern, IsPattern, says_nothing};

use crate::heads::{Heads, behind_modes, push_copy};
use crate::tails::parts_of;
use lexing_mode_patterns::ModeRule;
use lexing_patterns::PatternRule;
use line_program::line::split_at;
use std::alloc::{AllocError, Global};

/// Rules, and the number of the line of each, up to the first line that is none, if there is one.
#[derive(Drop)]
pub(crate) struct Rules<'a> {
    pub(crate) rules: Vec<ModeRule<'a>>,
    pub(crate) numbers: Vec<usize>,
    pub(crate) no_rule: Option<usize>,
    /// The words of that line that name no mode, if that is why it is none.
    pub(crate) no_mode: Option<&'a str>,
}

/// What a line says.
#[derive(Clone, Copy)]
enum Line<'a> {
    Nothing,
    Rule(ModeRule<'a>),
    /// It is no rule, or these words behind its arrow name no mode.
    Bad(Option<&'a str>),
}

/// Whether the line is blank or a comment.
fn says_nothing(line: &str) -> bool
    ensures { result ≡ says_nothing line.now }
{
    line.is_empty() || line.starts_with('#')
}

/// The name and the pattern of a rule, if the text has both.
fn pattern_of(text: &str) -> Option<PatternRule>
    ensures { MatchOption result (IsNoPattern text.now) (IsPattern text.now) }
{
    if says_nothing(text) {
        return None;
    }
    let (name, rest) = split_at(text, b' ')?;
    Some(PatternRule {
        name,
        pattern: rest.trim(),
        skipped: name == "skip",
    })
}

/// What a line says that has no spaces around it, and whose rule holds in these modes.
fn line_of<'a>(names: &[&str], modes: &'a [u32], line: &'a str) -> Line<'a>
    requires few { length names.now ≤ 2 ^ 32 }
    requires modes { HasNumbers (texts_of names.now) line.now modes.now }
    ensures { Says (texts_of names.now) line.now result }
{
    if says_nothing(line) {
        return Line::Nothing;
    }
    let Some(rest) = behind_modes(line) else {
        return Line::Bad(None);
    };
    let (text, change) = match parts_of(names, rest) {
        Ok(parts) => parts,
        Err(words) => return Line::Bad(Some(words)),
    };
    match pattern_of(text.trim()) {
        Some(rule) => Line::Rule(ModeRule {
            rule,
            modes,
            change,
        }),
        None => Line::Bad(None),
    }
}

pub(crate) fn lines_of(alloc: Global, text: &str) -> Result<Vec<&str>, AllocError>
    ensures { IfOk result (λ all. texts_of all.items ≡ lines text.now) }
{
    text.lines().collect(alloc)
}

/// The rules of lines with these modes, up to the first line that is none.
pub(crate) fn rules_in<'a>(
    alloc: Global,
    lines: &[&'a str],
    heads: &'a Heads,
) -> Result<Rules<'a>, AllocError>
    requires few { length heads.now.names.items ≤ 2 ^ 32 }
    requires heads { AreHeadsOf (texts_of lines.now) (texts_of heads.now.names.items)
        (map (λ numbers. numbers.items) heads.now.modes.items) }
    ensures rules { IfOk result (λ found. AreRead (texts_of heads.now.names.items)
        (texts_of lines.now) found.no_rule found.rules.items) }
    ensures count { IfOk result (λ found. vec_len found.numbers ≡ vec_len found.rules) }
    ensures numbers { IfOk result (λ found. AreNumbered (texts_of heads.now.names.items)
        (texts_of lines.now) found.numbers.items found.rules.items) }
{
    let mut rules = Vec::new(alloc);
    let mut numbers = Vec::new(alloc);
    for at in 0..lines.len() {
        match line_of(&heads.names, &heads.modes[at], lines[at].trim()) {
            Line::Nothing => {}
            Line::Rule(rule) => {
                push_copy(&mut rules, rule)?;
                push_copy(&mut numbers, at + 1)?;
            }
            Line::Bad(words) => {
                return Ok(Rules {
                    rules,
                    numbers,
                    no_rule: Some(at + 1),
                    no_mode: words,
                });
            }
        }
    }
    Ok(Rules {
        rules,
        numbers,
        no_rule: None,
        no_mode: None,
    })
}
