//! Files of rules.
ghost use Rattle.std.specs.Prelude.{◌≡◌, ◌≢◌, ◌∷◌, ◌++◌, [], List, ℕ, Some, ⊤, IfOk, IfSome, IfNone, IsNone, OnOk, length, vec_len};
ghost use Rattle.std.specs.Str.Lines.{lines};
ghost use Rattle.std.specs.Io.KnownBytes.{Appends};
ghost use Rattle.line_program.specs.Listing.{Writes};
ghost use Rattle.lexing.specs.declared.machine.Machine.{Machine};
ghost use Rattle.lexing.specs.declared.table.TableState.{TableState};
ghost use Rattle.lexing.specs.MachineSteps.{lexer_of};
ghost use Rattle.lexing.specs.Tables.{IsTableOf};
ghost use Rattle.lexing_modes.specs.Modes.{IsScannerOf, mode_count};
ghost use Rattle.lexing_mode_patterns.specs.Rules.{patterns_of};
ghost use Rattle.lexing_mode_patterns.specs.declared.rules.ModeRule.{ModeRule};
ghost use Rattle.lexing_patterns.specs.Faults.{IsRefusal};
ghost use Rattle.tokens.specs.Complaints.{IsComplaint, IsRefused, TellsOfFirst};
ghost use Rattle.tokens.specs.Heads.{AreModesOf, texts_of};
ghost use Rattle.tokens.specs.Rules.{AreModesBy, AreNumbered, AreRead, AreRulesOf, TellsOfLine, line_place};
ghost use Rattle.tokens.specs.Warnings.{AreWarnings, IsWarned};

use crate::fault::mark;
use crate::heads::{heads_of, push_copy};
use crate::lines::{Rules, lines_of, rules_in};
use crate::texts::begins_with_mark;
use crate::warnings::warn;
use lexing::Machine;
use lexing_mode_patterns::{ModeRule, ModeRuleError, modes};
use lexing_modes::Modes;
use lexing_patterns::{PatternError, PatternRule, RuleError, lexer};
use std::alloc::{AllocError, Global};
use std::io::{self, ErrorKind, Write};

/// How many states the machine of a mode may have.
const STATES: u32 = 10_000;

/// Says which line is bad.
fn show_line<E: Write>(path: &str, number: usize, err: &mut E) -> io::Result<()>
    ensures { OnOk result (Appends (E.contents err.old) (E.contents err.new)
        (line_place path.now number)) }
{
    write!(err, "{path}:{number}: ")
}

/// Says that a line is no rule, or that these words behind its arrow name no mode.
fn show_no_rule<E: Write>(
    path: &str,
    number: usize,
    words: Option<&str>,
    err: &mut E,
) -> io::Result<()>
    ensures { OnOk result (Writes (E.contents err.old) (E.contents err.new)
        (TellsOfLine path.now number)) }
{
    show_line(path, number, err)?;
    match words {
        Some(words) => writeln!(err, "no rule holds in the mode {words}"),
        None => err.write_all(b"a rule is NAME PATTERN\n"),
    }
}

/// Says what is wrong with a pattern, and marks the place.
fn show_pattern<E: Write>(
    alloc: Global,
    pattern: &str,
    error: PatternError,
    err: &mut E,
) -> io::Result<()>
    ensures { OnOk result (Writes (E.contents err.old) (E.contents err.new) (λ more. ⊤)) }
{
    match error {
        PatternError::Syntax(fault) => {
            let message = fault.kind.message();
            writeln!(err, "{message}\n  {pattern}")?;
            mark(pattern.get(..fault.span.start).unwrap_or(""), err)
        }
        _ => {
            let message = format!(in alloc; "{error}")?;
            writeln!(err, "{message}\n  {pattern}")
        }
    }
}

/// Says which rule is not taken, and why. Where memory ran out, that is the error.
fn show_bad_rule<E: Write>(
    alloc: Global,
    path: &str,
    rules: &Rules,
    bad: RuleError,
    err: &mut E,
) -> io::Result<()>
    requires { IsRefusal (patterns_of rules.now.rules.items) bad }
    ensures { (all names : List (List ℕ)) → AreModesOf all names
        → AreNumbered names all rules.now.numbers.items rules.now.rules.items
        → OnOk result (Writes (E.contents err.old) (E.contents err.new)
        (TellsOfFirst path.now all)) }
{
    match (rules.numbers.get(bad.rule), rules.rules.get(bad.rule)) {
        (Some(number), Some(rule)) if bad.error != PatternError::Memory => {
            show_line(path, *number, err)?;
            show_pattern(alloc, rule.rule.pattern, bad.error, err)
        }
        _ => Err(io::Error::from(ErrorKind::OutOfMemory)),
    }
}

/// The names and patterns of the rules.
fn patterns_of<'a>(
    alloc: Global,
    rules: &[ModeRule<'a>],
) -> Result<Vec<PatternRule<'a>>, AllocError>
    ensures { IfOk result (λ found. found.items ≡ patterns_of rules.now) }
{
    let mut found = Vec::new(alloc);
    for at in 0..rules.len() {
        push_copy(&mut found, rules[at].rule)?;
    }
    Ok(found)
}

/// Says which line is not taken, the line of this number or one before it.
fn refuse<E: Write>(
    alloc: Global,
    path: &str,
    rules: &Rules,
    number: usize,
    err: &mut E,
) -> io::Result<()>
    requires { rules.now.no_rule ≡ Some number }
    ensures { (all names : List (List ℕ)) → AreModesOf all names
        → AreRead names all rules.now.no_rule rules.now.rules.items
        → AreNumbered names all rules.now.numbers.items rules.now.rules.items
        → OnOk result (Writes (E.contents err.old) (E.contents err.new)
        (TellsOfFirst path.now all)) }
{
    let patterns = patterns_of(alloc, &rules.rules)?;
    match lexer(alloc, &patterns) {
        Ok(_) => show_no_rule(path, number, rules.no_mode, err),
        Err(bad) => show_bad_rule(alloc, path, rules, bad, err),
    }
}

/// The modes of the rules, or none where a pattern is not taken or a machine would have too many
/// states, which is said.
fn built<E: Write>(
    alloc: Global,
    path: &str,
    count: usize,
    rules: &Rules,
    err: &mut E,
) -> io::Result<Option<Modes<Machine>>>
    requires { IsNone rules.now.no_rule }
    ensures modes { IfOk result
        (λ found. IfSome found (AreModesBy rules.now.rules.items count)) }
    ensures silent { IfOk result (λ found. IfSome found (λ modes. err.new ≡ err.old)) }
    ensures refused { (all names : List (List ℕ)) → count ≡ length names → AreModesOf all names
        → AreRead names all rules.now.no_rule rules.now.rules.items
        → AreNumbered names all rules.now.numbers.items rules.now.rules.items
        → IfOk result (λ found. IfNone found
        (Writes (E.contents err.old) (E.contents err.new) (IsComplaint path.now all))) }
{
    let Ok(count) = u32::try_from(count) else {
        return Err(io::Error::from(ErrorKind::OutOfMemory));
    };
    match modes(alloc, count, &rules.rules, STATES) {
        Ok(modes) => Ok(Some(modes)),
        Err(ModeRuleError::Rule(bad)) => {
            show_bad_rule(alloc, path, rules, bad, err)?;
            Ok(None)
        }
        Err(ModeRuleError::TooManyStates(_)) => {
            writeln!(err, "{path}: the rules need more than {STATES} states")?;
            Ok(None)
        }
        Err(_) => Err(io::Error::from(ErrorKind::OutOfMemory)),
    }
}

/// The modes of the rules, or none where a line is not taken or a machine would have too many states,
/// which is said.
fn modes_of<E: Write>(
    alloc: Global,
    path: &str,
    count: usize,
    rules: &Rules,
    err: &mut E,
) -> io::Result<Option<Modes<Machine>>>
    ensures modes { IfOk result (λ found. IfSome found (λ modes. IsNone rules.now.no_rule
        × AreModesBy rules.now.rules.items count modes)) }
    ensures silent { IfOk result (λ found. IfSome found (λ modes. err.new ≡ err.old)) }
    ensures refused { (all names : List (List ℕ)) → count ≡ length names → AreModesOf all names
        → AreRead names all rules.now.no_rule rules.now.rules.items
        → AreNumbered names all rules.now.numbers.items rules.now.rules.items
        → IfOk result (λ found. IfNone found
        (Writes (E.contents err.old) (E.contents err.new) (IsComplaint path.now all))) }
{
    match rules.no_rule {
        None => built(alloc, path, count, rules, err),
        Some(number) => {
            refuse(alloc, path, rules, number, err)?;
            Ok(None)
        }
    }
}

/// Says of which of the rules there is no token, where they have one mode.
fn warn_of_one<E: Write>(
    alloc: Global,
    path: &str,
    modes: &Modes<Machine>,
    rules: &Rules,
    err: &mut E,
) -> io::Result<()>
    requires { vec_len rules.now.numbers ≡ vec_len rules.now.rules }
    ensures one { mode_count modes.now ≡ 1 → OnOk result ((machine : Machine)
        × (table : List TableState) × IsScannerOf modes.now 0 machine
        × IsTableOf (lexer_of machine) table
        × Writes (E.contents err.old) (E.contents err.new)
        (IsWarned (lexer_of machine) table path.now 0 rules.now.numbers.items
        rules.now.rules.items)) }
    ensures several { mode_count modes.now ≢ 1 → err.new ≡ err.old }
{
    match modes.scanner(0) {
        Some(machine) if modes.mode_count() == 1 => {
            let table = machine.table(alloc)?;
            warn(path, &table, rules, err)
        }
        _ => Ok(()),
    }
}

/// The modes of the rules of a text, or none where a line is not taken or a machine would have too
/// many states, which is said. It is the first line that is not taken. Of rules that have one mode it
/// is said which have no token.
///
/// A line is `NAME PATTERN`, or `skip PATTERN` for what is left out. Before it may stand the modes in
/// which the rule holds, as `<MODE,MODE>`, and behind it what it does to the mode: `-> MODE`,
/// `-> push MODE` or `-> pop`. Without modes it holds in `initial`, in which a text begins. Blank
/// lines and lines that begin with `#` say nothing, and spaces around a line or a pattern are none of
/// it. A byte order mark is not taken.
pub(crate) fn read<E: Write>(
    alloc: Global,
    path: &str,
    text: &str,
    err: &mut E,
) -> io::Result<Option<Modes<Machine>>>
    ensures modes { IfOk result (λ found. IfSome found (λ modes. (names : List (List ℕ))
        × (rules : List ModeRule) × AreRulesOf text.now names rules
        × AreModesBy rules (length names) modes)) }
    ensures warned { IfOk result (λ found. IfSome found (λ modes. mode_count modes ≡ 1
        → (machine : Machine) × IsScannerOf modes 0 machine × Writes (E.contents err.old)
        (E.contents err.new) (AreWarnings path.now text.now (lexer_of machine)))) }
    ensures silent { IfOk result (λ found. IfSome found (λ modes. mode_count modes ≢ 1
        → err.new ≡ err.old)) }
    ensures refused { IfOk result (λ found. IfNone found (Writes (E.contents err.old)
        (E.contents err.new) (IsRefused path.now text.now))) }
{
    if begins_with_mark(text) {
        writeln!(err, "{path}:1:1: a byte order mark stands before the rules")?;
        return Ok(None);
    }
    let lines = lines_of(alloc, text)?;
    let heads = heads_of(alloc, &lines)?;
    let count = heads.names.len();
    let rules = rules_in(alloc, &lines, &heads)?;
    match modes_of(alloc, path, count, &rules, err)? {
        Some(modes) => {
            warn_of_one(alloc, path, &modes, &rules, err)?;
            Ok(Some(modes))
        }
        None => Ok(None),
    }
}
