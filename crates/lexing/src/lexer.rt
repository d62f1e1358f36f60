//! An automaton whose accepting states belong to rules.
ghost use Rattle.std.specs.Prelude.{◌≡◌, ◌+◌, ◌↔◌, ◌≤◌, ℕ, List, IsTrue, IfOk, OnOk, OnErr, MatchOption, ⊤};
ghost use Rattle.charmoves.specs.Automata.{rules_of};
ghost use Rattle.lexing.specs.Lexers.{rules_in, rule_count, Accepts, IsSkipped, IsNameOf, KeepsRules, AcceptsAlso};
ghost use Rattle.lexing.specs.Tokens.{IsToken, BeginsWithNone};

use crate::scanner::Scanner;
use crate::token::LexError;
use btree_range_map::MapError;
use charmoves::Moves;
use state_sets::{Match, longest_match};
use std::alloc::Global;
use std::collections::BTreeMap;

/// A rule: how it is called, and whether its tokens are skipped.
#[derive(Drop)]
struct Kind {
    name: String,
    skipped: bool,
}

/// Several rules, in an order, each of which accepts texts.
///
/// The rules share one automaton. A rule accepts the texts along which the automaton leads from a
/// start state to a state of the rule.
#[derive(Drop)]
pub struct Lexer {
    pub(crate) moves: Moves,
    pub(crate) rule_at: BTreeMap<u32, u32>,
    kinds: Vec<Kind>,
    alloc: Global,
}

impl Lexer {
    /// A lexer without a rule, over the automaton. Allocates nothing.
    ///
    /// The states in which the automaton itself accepts are of no account here.
    pub fn new(alloc: Global, moves: Moves) -> Lexer
        ensures automaton { rules_in result ≡ rules_of moves }
        ensures count { rule_count result ≡ 0 }
        ensures accepting { (q rule : ℕ) → ¬ Accepts result q rule }
    {
        Lexer {
            moves,
            rule_at: BTreeMap::new(alloc),
            kinds: Vec::new(alloc),
            alloc,
        }
    }

    /// Adds a rule behind the others, and returns its number, which counts from 0.
    ///
    /// Tokens of a rule that is `skipped` are left out of what `tokens` gives. Allocates. After an
    /// error the rules are as they were.
    pub fn add_rule(&mut self, name: &str, skipped: bool) -> Result<u32, LexError>
        ensures number { IfOk result (λ n. n ≡ rule_count self.old) }
        ensures count { OnOk result (rule_count self.new ≡ rule_count self.old + 1) }
        ensures named { IfOk result (λ n. IsNameOf self.new n name.now) }
        ensures skips { IfOk result (λ n. IsSkipped self.new n ↔ IsTrue skipped) }
        ensures kept { KeepsRules self.old self.new }
        ensures refused { OnErr result (rule_count self.new ≡ rule_count self.old) }
    {
        let Ok(number) = u32::try_from(self.kinds.len()) else {
            return Err(LexError::Memory);
        };
        let name = String::from_str(self.alloc, name)?;
        self.kinds.push(Kind { name, skipped })?;
        Ok(number)
    }

    /// Lets a token of the rule end in the state. Of several calls for a state the last counts.
    ///
    /// Allocates. After an error nothing is changed.
    pub fn accept(&mut self, state: u32, rule: u32) -> Result<(), LexError>
        ensures accepting { OnOk result (AcceptsAlso self.old self.new state rule) }
        ensures automaton { rules_in self.new ≡ rules_in self.old }
        ensures count { rule_count self.new ≡ rule_count self.old }
        ensures skips { (n : ℕ) → IsSkipped self.new n ↔ IsSkipped self.old n }
        ensures names { (n : ℕ) (name : List ℕ)
            → IsNameOf self.new n name ↔ IsNameOf self.old n name }
        ensures refused { OnErr result
            ((q n : ℕ) → Accepts self.new q n ↔ Accepts self.old q n) }
    {
        match self.rule_at.insert(state, rule) {
            Ok(_) => Ok(()),
            Err(_) => Err(LexError::Memory),
        }
    }

    /// How many rules there are. Allocates nothing.
    pub fn rule_count(&self) -> usize
        ensures { result ≡ rule_count self.now }
    {
        self.kinds.len()
    }

    /// The name of the rule, if there is one of this number. Allocates nothing.
    pub fn name(&self, rule: u32) -> Option<&str>
        ensures { MatchOption result (rule_count self.now ≤ rule)
            (λ name. IsNameOf self.now rule name.now) }
    {
        match self.kinds.get(rule as usize) {
            Some(kind) => Some(kind.name.as_str()),
            None => None,
        }
    }
}

impl Scanner for Lexer {
    ghost lexer = { λ lexer. lexer };

    ghost may_refuse = { λ _. ⊤ };

    /// Makes one step a character, up to the first at which no state is reached. Allocates.
    fn longest_match(&self, text: &str) -> Result<Option<Match>, MapError> {
        longest_match(&self.moves, &self.rule_at, text)
    }

    fn is_skipped(&self, rule: u32) -> bool {
        match self.kinds.get(rule as usize) {
            Some(kind) => kind.skipped,
            None => false,
        }
    }
}
