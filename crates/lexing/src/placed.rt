//! The tokens of a text, each with its line and column.
ghost use Rattle.std.specs.Prelude.{◌≡◌, ◌≤◌, ◌-◌, length};
ghost use Rattle.std.specs.Iterator.{at_most};
ghost use Rattle.lexing.specs.Places.{GivesPlaced, place_at};

use crate::place::Place;
use crate::scanner::Scanner;
use crate::token::{LexError, Token};
use crate::tokens::next_from;
use std::iter::FusedIterator;
use std::marker::Model;

/// A token, or why there is none, with the line and the column where it begins.
#[derive(Clone, Copy, Debug, PartialEq, Eq, Drop)]
pub struct Placed {
    pub token: Result<Token, LexError>,
    pub place: Place,
}

/// The tokens that are left of a text, with their lines and columns. See
/// [`Scanner::placed_tokens`]. A contract sees the scanner, the text and the byte that is next.
#[derive(Drop)]
pub struct PlacedTokens<'a, S: Scanner> {
    scanner: &'a S,
    text: &'a str,
    at: usize,
    place: Place,
}

impl<'a, S: Scanner> Model for PlacedTokens<'a, S> {
    ghost use Rattle.std.specs.Prelude.{◌≡◌};
    ghost use Rattle.std.specs.Str.{IsCharBoundary};
    ghost use Rattle.lexing.specs.Left.{Left};
    ghost use Rattle.lexing.specs.Places.{place_at};

    ghost Value = { Left S };

    ghost view = { λ t. record { scanner = t.scanner.now; text = t.text.now; place = t.at } };

    ghost invariant = { λ t. IsCharBoundary t.text.now t.at
        × (t.place ≡ place_at t.text.now t.at) };
}

impl<'a, S: Scanner> PlacedTokens<'a, S> {
    pub(crate) fn new(scanner: &'a S, text: &'a str) -> Self
        ensures scanner { result.scanner ≡ scanner.now }
        ensures text { result.text ≡ text.now }
        ensures start { result.place ≡ 0 }
    {
        PlacedTokens {
            scanner,
            text,
            at: 0,
            place: Place::first(),
        }
    }
}

impl<'a, S: Scanner> Iterator for PlacedTokens<'a, S> {
    type Item = Placed;

    ghost next_gives = { GivesPlaced S.lexer S.may_refuse };

    ghost remaining = { λ s. at_most (length s.text - s.place) };

    fn next(&mut self) -> Option<Placed> {
        let step = next_from(self.scanner, self.text, self.at);
        let place = further(self.text, self.place, self.at, step.begin);
        self.place = further(self.text, place, step.begin, step.after);
        self.at = step.after;
        match step.item {
            Some(token) => Some(Placed { token, place }),
            None => None,
        }
    }
}

impl<'a, S: Scanner> FusedIterator for PlacedTokens<'a, S> {}

/// The place of a byte further on in the text.
fn further(text: &str, place: Place, from: usize, to: usize) -> Place
    requires here { place ≡ place_at text.now from }
    requires order { from ≤ to }
    requires within { to ≤ length text.now }
    ensures { result ≡ place_at text.now to }
{
    place.behind(&text.as_bytes()[from..to])
}
