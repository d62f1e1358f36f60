//! What a rule does to the mode, as it stands behind it.
ghost use Rattle.std.specs.Prelude.{◌≤◌, ◌^◌, MatchOption, MatchResult, length};
ghost use Rattle.tokens.specs.Heads.{texts_of};
ghost use Rattle.tokens.specs.Tails.{EndsWith, LeadsNowhere, Tells, TellsNothing};

use crate::heads::mode_called;
use lexing_modes::ModeChange;
use line_program::line::split_at;

/// What a rule does by the words behind its arrow, unless they name no mode or say nothing.
pub(crate) fn change_of(names: &[&str], words: &str) -> Option<ModeChange>
    requires few { length names.now ≤ 2 ^ 32 }
    ensures { MatchOption result (TellsNothing (texts_of names.now) words.now)
        (Tells (texts_of names.now) words.now) }
{
    match split_at(words, b' ') {
        Some((verb, name)) => {
            if verb != "push" {
                return None;
            }
            let mode = mode_called(names, name.trim())?;
            Some(ModeChange::Push(mode))
        }
        None => {
            if words == "pop" {
                return Some(ModeChange::Pop);
            }
            let mode = mode_called(names, words)?;
            Some(ModeChange::Enter(mode))
        }
    }
}

/// The text of a rule and what it does, or the words behind its arrow that say nothing.
pub(crate) fn parts_of<'a>(names: &[&str], rest: &'a str) -> Result<(&'a str, ModeChange), &'a str>
    requires few { length names.now ≤ 2 ^ 32 }
    ensures { MatchResult result
        (λ parts. EndsWith (texts_of names.now) rest.now parts.0.now parts.1)
        (λ words. LeadsNowhere (texts_of names.now) rest.now) }
{
    let Some((text, words)) = rest.split_once(" -> ") else {
        return Ok((rest, ModeChange::Stay));
    };
    let words = words.trim();
    match change_of(names, words) {
        Some(change) => Ok((text, change)),
        None => Err(words),
    }
}
