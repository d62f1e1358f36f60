//! The tokens of a text by modes, one after the other.
ghost use Rattle.std.specs.Prelude.{length};
ghost use Rattle.lexing_modes.specs.States.{IsStateOf, state_of};

use crate::cursor::Cursor;
use crate::error::TokenError;
use crate::modes::Modes;
use crate::step::next_from;
use crate::token::ModeToken;
use lexing::Scanner;
use std::iter::FusedIterator;

/// The tokens that are left of a text. See [`Modes::tokens`].
///
/// Where no token begins, `next` gives `NoToken`, and the next call goes on behind the character
/// there. Behind `NothingPushed` it goes on behind the token. In both cases the mode stays. After
/// `Memory` nothing is left.
#[derive(Drop)]
pub struct ModeTokens<'a, S> {
    modes: &'a Modes<S>,
    text: &'a str,
    cursor: Cursor,
    ghost state: { IsStateOf (length modes.now.modes.items) text.now (state_of cursor) },
}

impl<S: Scanner> Modes<S> {
    ghost use Rattle.std.specs.Prelude.{◌≡◌, List, None, Result};
    ghost use Rattle.std.specs.Iterator.{YieldsThen};
    ghost use Rattle.lexing_modes.specs.declared.error.TokenError.{TokenError};
    ghost use Rattle.lexing_modes.specs.declared.token.ModeToken.{ModeToken};
    ghost use Rattle.lexing_modes.specs.declared.tokens.ModeTokens.{ModeTokens};
    ghost use Rattle.lexing_modes.specs.Given.{AreGiven};
    ghost use Rattle.lexing_modes.specs.Left.{GivesNext, modes_of, state_at, text_of};
    ghost use Rattle.lexing_modes.specs.States.{first_state};

    /// The tokens of the text, but for those that are skipped. Allocates as the scanners do, and
    /// for modes that are pushed.
    ///
    /// In each mode a token is the longest piece of the text from its place on that a rule of the
    /// mode accepts, by the first such rule. With what is skipped, and with the pieces at which
    /// there is an error, the tokens are the whole text, unless an allocation fails.
    pub fn tokens<'a>(&'a self, text: &'a str) -> ModeTokens<'a, S>
        ensures modes { modes_of result ≡ self.now }
        ensures text { text_of result ≡ text.now }
        ensures start { state_at result ≡ first_state }
        ensures whole { (items : List (Result ModeToken TokenError)) (last : ModeTokens S)
            → YieldsThen (GivesNext S.lexer S.may_refuse) result items None last
            → AreGiven S.lexer self.now text.now S.may_refuse first_state items }
    {
        ModeTokens {
            modes: self,
            text,
            cursor: Cursor::new(self.alloc),
        }
    }
}

impl<'a, S> ModeTokens<'a, S> {
    ghost use Rattle.std.specs.Prelude.{◌≡◌, length};
    ghost use Rattle.lexing_modes.specs.Left.{state_at};

    /// The place in bytes from which the text is still to be cut. Allocates nothing.
    pub fn place(&self) -> usize
        ensures { result ≡ (state_at self.now).place }
    {
        self.cursor.place
    }

    /// The mode that holds there. At the end of a text it tells what was left open, as a comment.
    /// Allocates nothing.
    pub fn mode(&self) -> u32
        ensures { result ≡ (state_at self.now).mode }
    {
        self.cursor.mode
    }

    /// How many modes lie below it. Allocates nothing.
    pub fn depth(&self) -> usize
        ensures { result ≡ length (state_at self.now).below }
    {
        self.cursor.below.len()
    }
}

impl<'a, S: Scanner> Iterator for ModeTokens<'a, S> {
    type Item = Result<ModeToken, TokenError>;

    ghost use Rattle.std.specs.Prelude.{◌-◌, length};
    ghost use Rattle.std.specs.Iterator.{at_most};
    ghost use Rattle.lexing_modes.specs.Left.{GivesNext, state_at, text_of};

    ghost next_gives = { GivesNext S.lexer S.may_refuse };

    ghost remaining = { λ t. at_most (length (text_of t) - (state_at t).place) };

    fn next(&mut self) -> Option<Result<ModeToken, TokenError>> {
        next_from(self.modes, self.text, &mut self.cursor)
    }
}

impl<'a, S: Scanner> FusedIterator for ModeTokens<'a, S> {}
