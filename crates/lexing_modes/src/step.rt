//! One token, and the state behind it.
ghost use Rattle.std.specs.Prelude.{◌<◌, ◌↔◌, length, IsTrue, MatchResult, OnSome};
ghost use Rattle.std.specs.Str.{IsCharBoundary};
ghost use Rattle.lexing.specs.Runs.{IsBehindOne};
ghost use Rattle.lexing_modes.specs.Given.{IsLeftOut, IsNext};
ghost use Rattle.lexing_modes.specs.Modes.{mode_count};
ghost use Rattle.lexing_modes.specs.Runs.{Fails, IsTokenOf, Takes};
ghost use Rattle.lexing_modes.specs.States.{IsStateOf, state_of};

use crate::cursor::{Cursor, Unchanged};
use crate::error::TokenError;
use crate::modes::Modes;
use crate::token::ModeToken;
use lexing::{Scanner, Token};

/// What comes next from the cursor on, which goes on behind it.
pub(crate) fn next_from<S: Scanner>(
    modes: &Modes<S>,
    text: &str,
    cursor: &mut Cursor,
) -> Option<Result<ModeToken, TokenError>>
    requires state { IsStateOf (mode_count modes.now) text.now (state_of cursor.old) }
    ensures next { IsNext S.lexer modes.now text.now S.may_refuse (state_of cursor.old) result
        (state_of cursor.new) }
    ensures state { IsStateOf (mode_count modes.now) text.now (state_of cursor.new) }
    ensures further { OnSome result (cursor.old.place < cursor.new.place) }
{
    while cursor.place < text.len() {
        match take_token(modes, text, cursor) {
            Ok(found) => {
                if !is_left_out(modes, &found) {
                    return Some(Ok(found));
                }
            }
            Err(error) => return Some(Err(error)),
        }
    }
    None
}

/// Whether tokens of the rule are skipped in the mode.
pub(crate) fn is_left_out<S: Scanner>(modes: &Modes<S>, found: &ModeToken) -> bool
    requires { found.now.mode < mode_count modes.now }
    ensures { IsTrue result ↔ IsLeftOut S.lexer modes.now found.now }
{
    let scanner = &modes.modes[found.mode as usize].scanner;
    scanner.is_skipped(found.token.rule)
}

/// Takes the token at the cursor, and goes on behind it.
pub(crate) fn take_token<S: Scanner>(
    modes: &Modes<S>,
    text: &str,
    cursor: &mut Cursor,
) -> Result<ModeToken, TokenError>
    requires state { IsStateOf (mode_count modes.now) text.now (state_of cursor.old) }
    requires more { cursor.old.place < length text.now }
    ensures taken { let before = state_of cursor.old in let after = state_of cursor.new in
        MatchResult result
        (λ found. Takes S.lexer modes.now text.now before found after)
        (λ error. Fails S.lexer modes.now text.now S.may_refuse before error after) }
    ensures state { IsStateOf (mode_count modes.now) text.now (state_of cursor.new) }
    ensures further { cursor.old.place < cursor.new.place }
{
    let place = cursor.place;
    let mode = cursor.mode;
    let scanner = &modes.modes[mode as usize].scanner;
    match scanner.longest_match(&text[place..]) {
        Ok(Some(found)) => {
            let token = Token {
                rule: found.rule,
                start: place,
                end: place + found.len,
            };
            take(modes, text, cursor, token)
        }
        Ok(None) => {
            cursor.place = behind_one(text, place);
            Err(TokenError::NoToken { mode, place })
        }
        Err(_) => {
            cursor.place = text.len();
            Err(TokenError::Memory)
        }
    }
}

/// Takes this token, which stands at the cursor.
pub(crate) fn take<S: Scanner>(
    modes: &Modes<S>,
    text: &str,
    cursor: &mut Cursor,
    token: Token,
) -> Result<ModeToken, TokenError>
    requires state { IsStateOf (mode_count modes.now) text.now (state_of cursor.old) }
    requires more { cursor.old.place < length text.now }
    requires token { IsTokenOf S.lexer modes.now text.now cursor.old.mode cursor.old.place token }
    ensures taken { let before = state_of cursor.old in let after = state_of cursor.new in
        MatchResult result
        (λ found. Takes S.lexer modes.now text.now before found after)
        (λ error. Fails S.lexer modes.now text.now S.may_refuse before error after) }
    ensures state { IsStateOf (mode_count modes.now) text.now (state_of cursor.new) }
    ensures further { cursor.old.place < cursor.new.place }
{
    let mode = cursor.mode;
    match cursor.change(modes.change_after(mode, token.rule)) {
        Ok(()) => {
            cursor.place = token.end;
            Ok(ModeToken { mode, token })
        }
        Err(Unchanged::NothingPushed) => {
            cursor.place = token.end;
            Err(TokenError::NothingPushed {
                mode,
                place: token.start,
            })
        }
        Err(Unchanged::Memory) => {
            cursor.place = text.len();
            Err(TokenError::Memory)
        }
    }
}

/// The place behind the character at the place.
pub(crate) fn behind_one(text: &str, at: usize) -> usize
    requires boundary { IsCharBoundary text.now at }
    requires within { at < length text.now }
    ensures one { IsBehindOne text.now at result }
    ensures boundary { IsCharBoundary text.now result }
    ensures further { at < result }
{
    match text[at..].chars().next() {
        Some(c) => at + c.len_utf8(),
        None => text.len(),
    }
}
