//! The tokens of a text as they cross to C.
ghost use Rattle.std.specs.Prelude.{◌≡◌, ◌≢◌, ◌⊎◌, ◌↔◌, Err, IsUtf8, drop};
ghost use Rattle.lexing.specs.declared.token.LexError.TheVariants.{Memory};
ghost use Rattle.lexing.specs.MachineSteps.{lexer_of};
ghost use Rattle.lexer_handles.specs.Tokens.{AreWritten, IsPut, placed_of};

use crate::status::NOT_TEXT;
use lexing::{LexError, Machine, Place, Placed, Scanner};
use range_ffi::status::DONE;

/// A token: its bytes in the text, from `start` up to `end`, the line and the column where it
/// begins, each from 1, and the number of its rule. Where no token begins, `is_token` is false, both
/// `start` and `end` are that place, and there is no rule.
#[repr(C)]
#[derive(Clone, Copy, Drop)]
pub struct TokenParts {
    pub start: usize,
    pub end: usize,
    pub line: usize,
    pub column: usize,
    pub rule: u32,
    pub is_token: bool,
}

/// The token as it crosses. A machine allocates nothing, so that memory is never the reason.
fn parts_of(placed: Placed) -> TokenParts
    requires { placed.token ≢ Err Memory }
    ensures { placed_of result ≡ placed }
{
    let Place { line, column } = placed.place;
    let (rule, start, end, is_token) = match placed.token {
        Ok(token) => (token.rule, token.start, token.end, true),
        Err(LexError::NoToken(at)) => (0, at, at, false),
        Err(LexError::Memory) => (0, 0, 0, false),
    };
    TokenParts {
        start,
        end,
        line,
        column,
        rule,
        is_token,
    }
}

/// Writes to the slot, if there is one of this number.
fn put(tokens: &mut [TokenParts], at: usize, parts: TokenParts)
    ensures { IsPut at parts tokens.old tokens.new }
{
    if at < tokens.len() {
        tokens[at] = parts;
    }
}

/// Writes the tokens of the text in their order, as many as the array takes, and how many there are
/// in all.
///
/// What is skipped is left out. Where no token begins, this is written in place of one, and the text
/// goes on behind the character there. What lies behind the tokens in the array stays as it was.
/// Allocates nothing. Costs as `Scanner::tokens`, and a check that the bytes are UTF-8.
pub fn tokens_of(
    machine: &Machine,
    text: &[u8],
    tokens: &mut [TokenParts],
    count: &mut usize,
) -> u32
    ensures tokens { result ≡ DONE
        → AreWritten (lexer_of machine.now) text.now tokens.new count.new }
    ensures behind { drop count.new tokens.new ≡ drop count.new tokens.old }
    ensures no_text { result ≡ NOT_TEXT ↔ ¬ IsUtf8 text.now }
    ensures unwritten { result ≢ DONE → (tokens.new ≡ tokens.old) × (count.new ≡ count.old) }
    ensures answer { (result ≡ DONE) ⊎ (result ≡ NOT_TEXT) }
{
    match str::from_utf8(text) {
        Ok(text) => {
            *count = write_tokens(machine, text, tokens);
            DONE
        }
        Err(_) => NOT_TEXT,
    }
}

/// Writes the tokens of the text, as many as the array takes. Returns how many there are in all.
fn write_tokens(machine: &Machine, text: &str, tokens: &mut [TokenParts]) -> usize
    ensures tokens { AreWritten (lexer_of machine.now) text.now tokens.new result }
    ensures behind { drop result tokens.new ≡ drop result tokens.old }
{
    let mut count = 0;
    for placed in machine.placed_tokens(text) {
        put(tokens, count, parts_of(placed));
        count += 1;
    }
    count
}
