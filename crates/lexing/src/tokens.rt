//! The tokens of a text, one after the other.
ghost use Rattle.std.specs.Prelude.{◌≡◌, ◌+◌, ◌-◌, ◌<◌, ◌≤◌, length, IsTrue, IfSome, OnSome, MatchResult};
ghost use Rattle.std.specs.Char.{len_utf8};
ghost use Rattle.std.specs.Str.{IsCharBoundary};
ghost use Rattle.std.specs.Iterator.{at_most};
ghost use Rattle.lexing.specs.Given.{GivesNext};
ghost use Rattle.lexing.specs.Places.{BeginsAt};
ghost use Rattle.lexing.specs.Runs.{IsNext, IsTokenAt, IsReasonAt, IsBehindOne, IsCharacterAt};

use crate::scanner::Scanner;
use crate::token::{LexError, Token};
use std::iter::FusedIterator;
use std::marker::Model;

/// The tokens that are left of a text. See [`Scanner::tokens`]. A contract sees the scanner, the
/// text and the place.
///
/// Where no token begins, `next` gives `NoToken` with the place, and the next call goes on behind
/// the character there. After `Memory` nothing is left.
#[derive(Drop)]
pub struct Tokens<'a, S: Scanner> {
    scanner: &'a S,
    text: &'a str,
    at: usize,
}

impl<'a, S: Scanner> Model for Tokens<'a, S> {
    ghost use Rattle.std.specs.Str.{IsCharBoundary};
    ghost use Rattle.lexing.specs.Left.{Left};

    ghost Value = { Left S };

    ghost view = { λ t. record { scanner = t.scanner.now; text = t.text.now; place = t.at } };

    ghost invariant = { λ t. IsCharBoundary t.text.now t.at };
}

impl<'a, S: Scanner> Tokens<'a, S> {
    pub(crate) fn new(scanner: &'a S, text: &'a str) -> Self
        ensures scanner { result.scanner ≡ scanner.now }
        ensures text { result.text ≡ text.now }
        ensures start { result.place ≡ 0 }
    {
        Tokens {
            scanner,
            text,
            at: 0,
        }
    }

    /// The place in bytes from which the text is still to be cut. Allocates nothing.
    pub fn place(&self) -> usize
        ensures { result ≡ self.now.place }
    {
        self.at
    }
}

impl<'a, S: Scanner> Iterator for Tokens<'a, S> {
    type Item = Result<Token, LexError>;

    ghost next_gives = { GivesNext S.lexer S.may_refuse };

    ghost remaining = { λ s. at_most (length s.text - s.place) };

    fn next(&mut self) -> Option<Result<Token, LexError>> {
        let step = next_from(self.scanner, self.text, self.at);
        self.at = step.after;
        step.item
    }
}

impl<'a, S: Scanner> FusedIterator for Tokens<'a, S> {}

/// What comes next, the place where it begins, and the place after it.
#[derive(Drop)]
pub(crate) struct Step {
    pub(crate) item: Option<Result<Token, LexError>>,
    pub(crate) begin: usize,
    pub(crate) after: usize,
}

pub(crate) fn next_from<S: Scanner>(scanner: &S, text: &str, start: usize) -> Step
    requires { IsCharBoundary text.now start }
    ensures next { IsNext (S.lexer scanner.now) text.now (S.may_refuse scanner.now) start
        result.item result.after }
    ensures begins { IfSome result.item (λ item. BeginsAt item result.begin) }
    ensures order { start ≤ result.begin }
    ensures behind { result.begin ≤ result.after }
    ensures within { result.after ≤ length text.now }
    ensures boundary { IsCharBoundary text.now result.after }
    ensures further { OnSome result.item (start < result.after) }
{
    let mut at = start;
    while at < text.len() {
        match token_at(scanner, text, at) {
            Ok(token) => {
                at = token.end;
                if !scanner.is_skipped(token.rule) {
                    return Step {
                        item: Some(Ok(token)),
                        begin: token.start,
                        after: at,
                    };
                }
            }
            Err(LexError::NoToken(place)) => {
                return Step {
                    item: Some(Err(LexError::NoToken(place))),
                    begin: at,
                    after: behind_one(text, at),
                };
            }
            Err(LexError::Memory) => {
                return Step {
                    item: Some(Err(LexError::Memory)),
                    begin: at,
                    after: text.len(),
                };
            }
        }
    }
    Step {
        item: None,
        begin: at,
        after: at,
    }
}

/// The token at the place.
pub(crate) fn token_at<S: Scanner>(scanner: &S, text: &str, at: usize) -> Result<Token, LexError>
    requires { IsCharBoundary text.now at }
    ensures { MatchResult result (IsTokenAt (S.lexer scanner.now) text.now at)
        (IsReasonAt (S.lexer scanner.now) text.now (S.may_refuse scanner.now) at) }
{
    match scanner.longest_match(&text[at..]) {
        Ok(Some(found)) => Ok(Token {
            rule: found.rule,
            start: at,
            end: at + found.len,
        }),
        Ok(None) => Err(LexError::NoToken(at)),
        Err(_) => Err(LexError::Memory),
    }
}

/// The place behind the character at the place.
fn behind_one(text: &str, at: usize) -> usize
    requires boundary { IsCharBoundary text.now at }
    requires within { at < length text.now }
    ensures one { IsBehindOne text.now at result }
    ensures boundary { IsCharBoundary text.now result }
    ensures further { at < result }
{
    at + character_at(text, at).len_utf8()
}

/// The character at the place.
pub(crate) fn character_at(text: &str, at: usize) -> char
    requires boundary { IsCharBoundary text.now at }
    requires within { at < length text.now }
    ensures one { IsCharacterAt text.now at result }
    ensures boundary { IsCharBoundary text.now (at + len_utf8 result) }
{
    match text[at..].chars().next() {
        Some(c) => c,
        None => unreachable!(),
    }
}
