//! Rules of which there is no token.
ghost use Rattle.std.specs.Prelude.{◌≡◌, OnOk, vec_len};
ghost use Rattle.line_program.specs.Listing.{Writes};
ghost use Rattle.lexing.specs.declared.lexer.Lexer.{Lexer};
ghost use Rattle.lexing.specs.Tables.{IsTableOf};
ghost use Rattle.tokens.specs.Warnings.{IsWarned, Warns};

use crate::lines::Rules;
use lexing::Table;
use std::io::{self, ErrorKind, Write};

/// Says so where no token is of the rule, which stands on the line of this number.
fn warn_of<E: Write>(
    path: &str,
    table: &Table,
    rule: usize,
    number: usize,
    name: &str,
    err: &mut E,
) -> io::Result<()>
    ensures { (lexer : Lexer) → IsTableOf lexer table.now.states.items
        → OnOk result (Writes (E.contents err.old) (E.contents err.new)
        (Warns lexer table.now.states.items path.now rule number name.now)) }
{
    let Ok(rule) = u32::try_from(rule) else {
        return Err(io::Error::from(ErrorKind::InvalidData));
    };
    if table.has_token_of(rule) {
        return Ok(());
    }
    writeln!(
        err,
        "{path}:{number}: warning: no token is of the rule {name}: all texts that it matches are \
         empty or earlier rules match them"
    )
}

/// Says of which of the rules there is no token, and on which line each stands.
pub(crate) fn warn<E: Write>(
    path: &str,
    table: &Table,
    rules: &Rules,
    err: &mut E,
) -> io::Result<()>
    requires { vec_len rules.now.numbers ≡ vec_len rules.now.rules }
    ensures { (lexer : Lexer) → IsTableOf lexer table.now.states.items
        → OnOk result (Writes (E.contents err.old) (E.contents err.new)
        (IsWarned lexer table.now.states.items path.now 0 rules.now.numbers.items
        rules.now.rules.items)) }
{
    for at in 0..rules.rules.len() {
        let number = rules.numbers[at];
        let rule = rules.rules[at];
        warn_of(path, table, at, number, rule.rule.name, err)?;
    }
    Ok(())
}
