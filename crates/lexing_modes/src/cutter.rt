//! The tokens by modes of a text that comes in pieces.
ghost use Rattle.std.specs.Prelude.{◌≡◌, [], false, true, length, IfSome, IsSome, MatchOption};
ghost use Rattle.lexing.specs.MachineSteps.{lexer_of};
ghost use Rattle.lexing.specs.Settled.{LeadsNowhere};
ghost use Rattle.lexing.specs.Tokens.{BeginsWithNone, IsToken};
ghost use Rattle.lexing_modes.specs.States.{IsStateOf, state_of};

use crate::cursor::Cursor;
use crate::error::TokenError;
use crate::modes::Modes;
use crate::step::{behind_one, is_left_out, take};
use crate::token::ModeToken;
use lexing::{Machine, Match, Scanner, Token};

/// What stands where a text is cut. Places count from there.
#[derive(Clone, Copy, Debug, PartialEq, Eq, Drop)]
pub enum Taken {
    /// A token.
    Given(ModeToken),
    /// A token that is skipped.
    Skipped(ModeToken),
    /// No token is taken. The text goes on behind so many bytes, in the same modes.
    Failed(TokenError, usize),
    /// What stands here depends on what follows the piece.
    Open,
}

/// Cuts a text that comes in pieces, token by token. See [`Modes::cutter`].
///
/// It holds the modes alone, and no text. So a text needs no more memory than its longest token.
#[derive(Drop)]
pub struct Cutter<'a> {
    modes: &'a Modes<Machine>,
    cursor: Cursor,
    ghost state: { IsStateOf (length modes.now.modes.items) [] (state_of cursor) },
}

impl Modes<Machine> {
    ghost use Rattle.std.specs.Prelude.{◌≡◌};
    ghost use Rattle.lexing_modes.specs.Cutting.{cutter_modes, cutter_state};
    ghost use Rattle.lexing_modes.specs.States.{first_state};

    /// Cuts a text, from its start, as [`Modes::tokens`] does. Allocates nothing.
    ///
    /// ```
    /// let mut cutter = modes.cutter();
    /// // of a text of which `piece` has come, and is cut up to `at`
    /// match cutter.take(&piece[at..], is_last) {
    ///     Taken::Given(found) => at += found.token.end,
    ///     Taken::Open => {} // more of the text is wanted behind the piece
    ///     // and so on
    /// }
    /// ```
    pub fn cutter<'a>(&'a self) -> Cutter<'a>
        ensures modes { cutter_modes result ≡ self.now }
        ensures start { cutter_state result ≡ first_state }
    {
        Cutter {
            modes: self,
            cursor: Cursor::new(self.alloc),
        }
    }
}

impl<'a> Cutter<'a> {
    ghost use Rattle.std.specs.Prelude.{◌≡◌, ◌≢◌, ◌<◌, ◌++◌, List, ℕ, [], true, IfSome, length};
    ghost use Rattle.lexing.specs.MachineSteps.{lexer_of};
    ghost use Rattle.lexing_modes.specs.declared.cutter.Taken.TheVariants.{Open};
    ghost use Rattle.lexing_modes.specs.Cutting.{IsTaken, at_place, cutter_modes, cutter_state, end_of};

    /// Takes what stands at the start of the rest of the text, of which a piece is given: all of
    /// it, where that is the last one.
    ///
    /// It is what stands there whatever follows the piece. After `Open` and `Failed` the modes are
    /// as they were, but after `Memory`. Costs as much as to find the token, at `Open` as much as to
    /// look at the piece. Allocates for modes that are pushed.
    pub fn take(&mut self, piece: &str, is_last: bool) -> Taken
        requires some { 0 < length piece.now }
        ensures modes { cutter_modes self.new ≡ cutter_modes self.old }
        ensures taken { (more : List ℕ) → (is_last ≡ true → more ≡ [])
            → IsTaken lexer_of (cutter_modes self.old) (piece.now ++ more) (λ machine. ⊥)
            (at_place 0 (cutter_state self.old)) result (cutter_state self.new) }
        ensures further { IfSome (end_of result) (λ end. 0 < end) }
        ensures last { is_last ≡ true → result ≢ Open }
    {
        let mode = self.cursor.mode;
        let machine = &self.modes.modes[mode as usize].scanner;
        let Some(found) = match_in(machine, piece, is_last) else {
            return Taken::Open;
        };
        let Some(found) = found else {
            let error = TokenError::NoToken { mode, place: 0 };
            return Taken::Failed(error, behind_one(piece, 0));
        };
        let token = Token {
            rule: found.rule,
            start: 0,
            end: found.len,
        };
        let taken = take(self.modes, piece, &mut self.cursor, token);
        let end = self.cursor.place;
        self.cursor.place = 0;
        let found = match taken {
            Ok(found) => found,
            Err(error) => return Taken::Failed(error, end),
        };
        if is_left_out(self.modes, &found) {
            Taken::Skipped(found)
        } else {
            Taken::Given(found)
        }
    }
}

/// The token that the piece begins with, or `None` where that depends on what follows it.
fn match_in(machine: &Machine, piece: &str, is_last: bool) -> Option<Option<Match>>
    ensures longest { IfSome result
        (λ found. MatchOption found (BeginsWithNone (lexer_of machine.now) piece.now)
        (λ m. IsToken (lexer_of machine.now) piece.now m.rule m.len)) }
    ensures settled { IfSome result
        (λ _. is_last ≡ false → LeadsNowhere (lexer_of machine.now) piece.now) }
    ensures last { is_last ≡ true → IsSome result }
{
    if is_last {
        machine.longest_match(piece).ok()
    } else {
        machine.settled_match(piece)
    }
}
