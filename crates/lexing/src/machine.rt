//! An automaton with one state at a time, made from that of a lexer.
ghost use Rattle.std.specs.Prelude.{◌≡◌, ◌*◌, ◌<◌, Some, false, length, IfSome, MatchOption, slice_get, vec_len};
ghost use Rattle.lexing.specs.Machines.{IsMachine};

use crate::lexer::Lexer;
use crate::scanner::Scanner;
use crate::states::States;
use crate::step::STEPS;
use crate::tokens::character_at;
use btree_range_map::MapError;
use btree_range_map::range::traits::MaybeBounded;
use state_sets::Match;

/// The machine of a lexer: it finds the same tokens, by one look-up a character, and allocates
/// nothing.
///
/// A state stands for a set of states of the lexer's automaton, the first for its start states.
#[derive(Drop)]
pub struct Machine {
    pub(crate) lexer: Lexer,
    pub(crate) states: States,
    ghost full: { vec_len states.steps ≡ 256 * vec_len states.rows },
    ghost marked: { vec_len states.first_rules ≡ vec_len states.rows },
    ghost sound: { ∥ IsMachine lexer states ∥₁ },
}

impl Machine {
    ghost use Rattle.lexing.specs.MachineSteps.{GoesTo, lexer_of, state_count};
    ghost use Rattle.lexing.specs.Settled.{LeadsNowhere};
    ghost use Rattle.lexing.specs.Tokens.{BeginsWithNone, IsToken};

    /// The lexer that the machine was built from. Allocates nothing.
    pub fn lexer(&self) -> &Lexer
        ensures { result.now ≡ lexer_of self.now }
    {
        &self.lexer
    }

    /// How many states there are. Allocates nothing.
    pub fn state_count(&self) -> usize
        ensures { result ≡ state_count self.now }
    {
        self.states.rows.len()
    }

    /// The state that the character leads to from the state, if there is one.
    fn next(&self, state: usize, c: char) -> Option<usize>
        requires { state < state_count self.now }
        ensures goes { GoesTo self.now state c result }
        ensures known { IfSome result (λ next. next < state_count self.now) }
    {
        c.known();
        if c.is_ascii() {
            let first = self.states.steps[STEPS * state + c as usize].first()?;
            Some(first / STEPS)
        } else {
            let next = self.states.rows[state].get(c).copied()?;
            Some(next as usize)
        }
    }

    /// The token that ends where the text leads no further, if one ends there. Notes nothing on the
    /// way.
    #[inline(always)]
    fn furthest_match(&self, text: &str) -> Option<Match>
        ensures token { IfSome result
            (λ m. IsToken (lexer_of self.now) text.now m.rule m.len) }
        ensures settled { IfSome result (λ m. m.len < length text.now
            → LeadsNowhere (lexer_of self.now) text.now) }
    {
        let mut first = 0;
        let mut at = 0;
        while at < text.len() {
            let byte = text.as_bytes()[at];
            if let Some(next) = self.states.steps[first + byte as usize].first() {
                first = next;
                at += 1;
            } else if byte < 128 {
                return self.match_in(first / STEPS, at);
            } else {
                let c = character_at(text, at);
                let Some(next) = self.next(first / STEPS, c) else {
                    return self.match_in(first / STEPS, at);
                };
                first = STEPS * next;
                at += c.len_utf8();
            }
        }
        self.match_in(first / STEPS, at)
    }

    /// So many bytes as a token of the rule of the state; none where there are none.
    fn match_in(&self, state: usize, len: usize) -> Option<Match>
        requires { state < state_count self.now }
        ensures some { IfSome result (λ _. 0 < len) }
        ensures len { IfSome result (λ m. m.len ≡ len) }
        ensures rule { IfSome result (λ m.
            slice_get self.now.states.first_rules.items state ≡ Some (Some m.rule)) }
    {
        if len == 0 {
            return None;
        }
        let rule = self.states.first_rules[state]?;
        Some(Match { rule, len })
    }

    /// The token that the text begins with. Each place where one ends is noted, since the text may
    /// lead further.
    #[inline(never)]
    fn noted_match(&self, text: &str) -> Option<Match>
        ensures { MatchOption result (BeginsWithNone (lexer_of self.now) text.now)
            (λ m. IsToken (lexer_of self.now) text.now m.rule m.len) }
    {
        let mut state = 0;
        let mut len = 0;
        let mut longest = None;
        for c in text.chars() {
            match self.next(state, c) {
                Some(next) => state = next,
                None => return longest,
            }
            len += c.len_utf8();
            if let Some(rule) = self.states.first_rules[state] {
                longest = Some(Match { rule, len });
            }
        }
        longest
    }

    /// Whether the text leads to a state.
    #[inline(never)]
    fn leads_on(&self, text: &str) -> bool
        ensures { result ≡ false → LeadsNowhere (lexer_of self.now) text.now }
    {
        let mut state = 0;
        for c in text.chars() {
            match self.next(state, c) {
                Some(next) => state = next,
                None => return false,
            }
        }
        true
    }

    /// The token that the text begins with, as `longest_match` finds it, where that is settled: each
    /// text that begins with this one begins with the same token, or with none. `None` where it
    /// depends on what follows. Allocates nothing.
    ///
    /// So a text can be cut that comes in pieces: of a piece that ends within a token more is
    /// wanted. Costs as much as `longest_match`, and one look-up more for each character where no
    /// token ends just before the first that leads nowhere.
    pub fn settled_match(&self, text: &str) -> Option<Option<Match>>
        ensures longest { IfSome result
            (λ found. MatchOption found (BeginsWithNone (lexer_of self.now) text.now)
            (λ m. IsToken (lexer_of self.now) text.now m.rule m.len)) }
        ensures settled { IfSome result (λ _. LeadsNowhere (lexer_of self.now) text.now) }
    {
        match self.furthest_match(text) {
            Some(found) if found.len < text.len() => Some(Some(found)),
            Some(_) => None,
            None if self.leads_on(text) => None,
            None => Some(self.noted_match(text)),
        }
    }
}

impl Scanner for Machine {
    ghost use Rattle.lexing.specs.MachineSteps.{lexer_of};

    ghost lexer = { λ machine. lexer_of machine };

    ghost may_refuse = { λ _. ⊥ };

    /// Costs one look-up a character, up to the first that leads nowhere; two where no token ends
    /// just before that. Allocates nothing.
    fn longest_match(&self, text: &str) -> Result<Option<Match>, MapError> {
        match self.furthest_match(text) {
            Some(found) => Ok(Some(found)),
            None => Ok(self.noted_match(text)),
        }
    }

    fn is_skipped(&self, rule: u32) -> bool {
        self.lexer.is_skipped(rule)
    }
}
