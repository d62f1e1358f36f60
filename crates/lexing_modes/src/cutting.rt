//! A whole text cut into tokens by modes.
ghost use Rattle.std.specs.Prelude.{◌≡◌, IfOk, IfErr, length};
ghost use Rattle.lexing_modes.specs.Runs.{AreTokens, IsReason};
ghost use Rattle.lexing_modes.specs.States.{State, first_state};

use crate::cursor::Cursor;
use crate::error::TokenError;
use crate::modes::Modes;
use crate::step::take_token;
use crate::token::ModeToken;
use lexing::Scanner;

impl<S: Scanner> Modes<S> {
    /// All tokens of the text, one after the other, those that are skipped among them. The first
    /// begins where the text does, each other where the one before it ends, and the last ends with
    /// the text.
    ///
    /// The error is that of the first place at which no token is taken. Allocates.
    pub fn cut(&self, text: &str) -> Result<Vec<ModeToken>, TokenError>
        ensures tokens { IfOk result (λ tokens. (last : State)
            × AreTokens S.lexer self.now text.now first_state tokens.items last
            × (last.place ≡ length text.now)) }
        ensures stuck { IfErr result (IsReason S.lexer self.now text.now S.may_refuse) }
    {
        let mut tokens = Vec::new(self.alloc);
        let mut cursor = Cursor::new(self.alloc);
        while cursor.place < text.len() {
            let found = match take_token(self, text, &mut cursor) {
                Ok(found) => found,
                Err(error) => return Err(error),
            };
            tokens.push(found)?;
        }
        Ok(tokens)
    }
}
