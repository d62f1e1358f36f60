//! The token that a text begins with.
ghost use Rattle.std.specs.Prelude.{IfOk, MatchOption};
ghost use Rattle.state_sets.specs.Tokens.{BeginsWithNone, IsAcceptedBy, IsRuleAt, IsToken};

use crate::automaton::Automaton;
use crate::first::first_rule;
use std::collections::BTreeMap;

/// What a text begins with: a rule, and how many bytes it accepts.
#[derive(Clone, Copy, Debug, PartialEq, Eq, Drop)]
pub struct Match {
    pub rule: u32,
    pub len: usize,
}

/// The token that the text begins with: the longest beginning that some rule accepts, by the first
/// such rule; none where each beginning that a rule accepts is empty.
///
/// A rule accepts a text that leads to a state of the rule, by the map. Makes one step a character,
/// up to the first at which no state is reached.
pub fn longest_match<A: Automaton>(
    automaton: &A,
    rule_at: &BTreeMap<u32, u32>,
    text: &str,
) -> Result<Option<Match>, A::Error>
    ensures longest { IfOk result (λ found.
        let accepts = IsAcceptedBy (A.has_step automaton.now) (A.is_start automaton.now)
        (IsRuleAt rule_at.now) in
        MatchOption found (BeginsWithNone accepts text.now)
        (λ m. IsToken accepts text.now m.rule m.len)) }
{
    let mut states = automaton.starts()?;
    let mut len = 0;
    let mut longest = None;
    for c in text.chars() {
        states = automaton.step(&states, c)?;
        if states.is_empty() {
            return Ok(longest);
        }
        len += c.len_utf8();
        if let Some(rule) = first_rule(rule_at, &states) {
            longest = Some(Match { rule, len });
        }
    }
    Ok(longest)
}
