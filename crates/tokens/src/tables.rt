//! Machines written as tables.
ghost use Rattle.std.specs.Prelude.{◌≡◌, ◌<◌, ◌^◌, List, IsTrue, ◌↔◌, OnOk, flat_map};
ghost use Rattle.std.specs.Io.KnownBytes.{Appends};
ghost use Rattle.line_program.specs.Listing.{Writes};
ghost use Rattle.lexing.specs.MachineSteps.{lexer_of};
ghost use Rattle.lexing.specs.Tables.{IsTableOf};
ghost use Rattle.lexing_patterns.specs.declared.patterns.PatternRule.{PatternRule};
ghost use Rattle.lexing_mode_patterns.specs.Rules.{IsOfRules};
ghost use Rattle.tokens.specs.TableTexts.{IsTableText, WritesRule, hex_digit, lead_text, number_text, quoted_byte, rule_lines, stands_for_itself, state_line};

use crate::language::Language;
use lexing::{Lead, Lexer, Machine, Scanner, Table, TableState};
use std::alloc::Global;
use std::io::{self, ErrorKind, Write};

/// Whether the byte stands for itself in a string.
fn stands_for_itself(byte: u8) -> bool
    ensures { result ≡ stands_for_itself byte }
{
    byte >= b' ' && byte != b'"' && byte != b'?' && byte != b'\\' && byte != 127
}

fn hex_digit(digit: u8) -> u8
    requires { digit < 16 }
    ensures { result ≡ hex_digit digit }
{
    if digit < 10 {
        b'0' + digit
    } else {
        b'a' + (digit - 10)
    }
}

/// Writes a byte of a string.
fn write_byte<W: Write>(language: &Language, byte: u8, out: &mut W) -> io::Result<()>
    ensures { OnOk result (Appends (W.contents out.old) (W.contents out.new)
        (quoted_byte language.now byte)) }
{
    if stands_for_itself(byte) {
        return out.write_all(&[byte]);
    }
    out.write_all(&[b'\\', b'x', hex_digit(byte / 16), hex_digit(byte % 16)])?;
    out.write_all(language.byte_close.as_bytes())
}

/// Writes a name as it stands in a string.
fn write_name<W: Write>(language: &Language, name: &str, out: &mut W) -> io::Result<()>
    ensures { OnOk result (Appends (W.contents out.old) (W.contents out.new)
        (flat_map (quoted_byte language.now) name.now)) }
{
    let bytes = name.as_bytes();
    for at in 0..bytes.len() {
        write_byte(language, bytes[at], out)?;
    }
    Ok(())
}

/// Writes a rule of the lexer.
fn write_rule<W: Write>(
    language: &Language,
    lexer: &Lexer,
    rule: usize,
    out: &mut W,
) -> io::Result<()>
    ensures { OnOk result (Writes (W.contents out.old) (W.contents out.new)
        (WritesRule language.now lexer.now rule)) }
{
    let Ok(rule) = u32::try_from(rule) else {
        return Err(io::Error::from(ErrorKind::InvalidData));
    };
    let Some(name) = lexer.name(rule) else {
        return Err(io::Error::from(ErrorKind::InvalidData));
    };
    out.write_all(language.rule_open.as_bytes())?;
    write_name(language, name, out)?;
    if lexer.is_skipped(rule) {
        out.write_all(language.skipped.as_bytes())
    } else {
        out.write_all(language.kept.as_bytes())
    }
}

fn write_rules<W: Write>(language: &Language, lexer: &Lexer, out: &mut W) -> io::Result<()>
    ensures { (rules : List PatternRule) → IsOfRules rules lexer.now
        → OnOk result (Appends (W.contents out.old) (W.contents out.new)
        (rule_lines language.now rules)) }
{
    for rule in 0..lexer.rule_count() {
        write_rule(language, lexer, rule, out)?;
    }
    Ok(())
}

fn write_lead<W: Write>(language: &Language, lead: Lead, out: &mut W) -> io::Result<()>
    ensures { OnOk result (Appends (W.contents out.old) (W.contents out.new)
        (lead_text language.now lead)) }
{
    let (open, close) = (language.lead_open, language.lead_close);
    let (first, last, next) = (lead.first as u32, lead.last as u32, lead.next);
    write!(out, "{open}{first},{last},{next}{close}")
}

fn write_leads<W: Write>(language: &Language, state: &TableState, out: &mut W) -> io::Result<()>
    ensures { OnOk result (Appends (W.contents out.old) (W.contents out.new)
        (flat_map (lead_text language.now) state.now.leads.items)) }
{
    for at in 0..state.leads.len() {
        write_lead(language, state.leads[at], out)?;
    }
    Ok(())
}

/// Writes the rule of a state, or that it has none.
fn write_number<W: Write>(language: &Language, rule: Option<u32>, out: &mut W) -> io::Result<()>
    ensures { OnOk result (Appends (W.contents out.old) (W.contents out.new)
        (number_text language.now rule)) }
{
    match rule {
        Some(rule) => {
            let (open, close) = (language.number_open, language.number_close);
            write!(out, "{open}{rule}{close}")
        }
        None => out.write_all(language.no_rule.as_bytes()),
    }
}

fn write_state<W: Write>(language: &Language, state: &TableState, out: &mut W) -> io::Result<()>
    ensures { OnOk result (Appends (W.contents out.old) (W.contents out.new)
        (state_line language.now state.now)) }
{
    out.write_all(language.state_open.as_bytes())?;
    write_leads(language, state, out)?;
    out.write_all(language.leads_close.as_bytes())?;
    write_number(language, state.rule, out)?;
    out.write_all(language.state_close.as_bytes())
}

fn write_states<W: Write>(language: &Language, table: &Table, out: &mut W) -> io::Result<()>
    ensures { OnOk result (Appends (W.contents out.old) (W.contents out.new)
        (flat_map (state_line language.now) table.now.states.items)) }
{
    for at in 0..table.states.len() {
        write_state(language, &table.states[at], out)?;
    }
    Ok(())
}

/// Writes the machine as a table of the language, with what finds tokens by it. Allocates.
///
/// The states of the table lead to the first rule that matches a text, for each text.
pub(crate) fn write_table<W: Write>(
    alloc: Global,
    language: &Language,
    machine: &Machine,
    out: &mut W,
) -> io::Result<()>
    ensures { (rules : List PatternRule) → IsOfRules rules (lexer_of machine.now)
        → OnOk result (Writes (W.contents out.old) (W.contents out.new)
        (IsTableText language.now rules (lexer_of machine.now))) }
{
    let table = machine.table(alloc)?;
    out.write_all(language.head.as_bytes())?;
    write_rules(language, machine.lexer(), out)?;
    out.write_all(language.middle.as_bytes())?;
    write_states(language, &table, out)?;
    out.write_all(language.tail.as_bytes())
}
