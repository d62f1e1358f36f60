//! A whole text cut into tokens.
ghost use Rattle.std.specs.Prelude.{IfOk, IfErr, length};
ghost use Rattle.lexing.specs.Runs.{AreTokens, IsReason};

use crate::scanner::Scanner;
use crate::token::{LexError, Token};
use crate::tokens::token_at;
use std::alloc::Global;

/// All tokens of the text, one after the other, those that are skipped among them. The first begins
/// where the text does, each other where the one before it ends, and the last ends with the text.
///
/// Where no token begins, the error names the place. Allocates.
pub fn cut<S: Scanner>(alloc: Global, scanner: &S, text: &str) -> Result<Vec<Token>, LexError>
    ensures tokens { IfOk result
        (λ tokens. AreTokens (S.lexer scanner.now) text.now 0 tokens.items (length text.now)) }
    ensures stuck { IfErr result (IsReason (S.lexer scanner.now) text.now) }
{
    let mut tokens = Vec::new(alloc);
    let mut at = 0;
    while at < text.len() {
        let token = match token_at(scanner, text, at) {
            Ok(token) => token,
            Err(error) => return Err(error),
        };
        tokens.push(token)?;
        at = token.end;
    }
    Ok(tokens)
}
