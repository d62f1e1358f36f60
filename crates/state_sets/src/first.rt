//! The first rule of a set of states.
ghost use Rattle.std.specs.Prelude.{◌≡◌, ◌≤◌, ◌⊎◌, Some, IfSome};
ghost use Rattle.state_sets.specs.Tokens.{IsFirstAmong, IsRuleAt};

use std::collections::{BTreeMap, BTreeSet};

/// The first rule of which a token may end in one of the states. A state has at most one rule, by
/// the map.
pub fn first_rule(rule_at: &BTreeMap<u32, u32>, states: &BTreeSet<u32>) -> Option<u32>
    ensures { IsFirstAmong (IsRuleAt rule_at.now) states.now result }
{
    let mut first = None;
    for state in states {
        if let Some(rule) = rule_at.get(state) {
            first = Some(lesser(first, *rule));
        }
    }
    first
}

/// The lesser of the two rules, if there are two.
fn lesser(first: Option<u32>, rule: u32) -> u32
    ensures below { result ≤ rule }
    ensures least { IfSome first (λ other. result ≤ other) }
    ensures one { (result ≡ rule) ⊎ (first ≡ Some result) }
{
    match first {
        Some(other) => other.min(rule),
        None => rule,
    }
}
