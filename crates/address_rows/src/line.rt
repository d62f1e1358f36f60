//! What a line of a table says.

ghost use Rattle.std.specs.Prelude.{◌≡◌, ◌↔◌, ◌∷◌, ◌<◌, ◌^◌, ℕ, List, [], IfOk, IfSome, IsTrue, MatchOption, length, option_map, position};
ghost use Rattle.std.specs.Char.{is_ascii_whitespace};
ghost use Rattle.std.specs.List.{before_first};
ghost use Rattle.csv.specs.Machine.{next_record};
ghost use Rattle.csv.specs.Reading.{default_config, strip_bom};
ghost use Rattle.csv.specs.Records.{fields_of};
ghost use Rattle.csv.specs.declared.parser.State.TheVariants as st;
ghost use Rattle.address_text.specs.Lines.{AreAddresses, trimmed};
ghost use Rattle.address_text.specs.Texts.{width};
ghost use Rattle.address_text.specs.declared.family.Family.{Family};
ghost use Rattle.address_text.specs.declared.line.Line.{Line};
ghost use Rattle.address_text.specs.declared.line.Line.TheVariants.{Addresses};
ghost use Rattle.address_rows.specs.Lines.{AreEnds, IsBits, IsDecimalRow, IsEnd, IsRow, IsSkipped, IsValue, SaysRow, behind_word, first_word, is_comma};
ghost use Rattle.address_rows.specs.Rows.{Row};
ghost use Rattle.address_rows.specs.declared.line.Layout.TheVariants as Laid;

use address_text::fault::fault_of;
use address_text::{Expected, Family, Line, content_of, line_of};
use csv::{ByteRecord, ReaderBuilder};
use std::alloc::{AllocError, Global};
use std::fmt;

/// How the lines of a table are laid out.
#[derive(Clone, Copy, PartialEq, Eq, Debug)]
pub enum Layout {
    /// Addresses as in a list, white space, and a value: `10.0.0.0/8 US`.
    Lines,
    /// Two fields of CSV (RFC 4180): `10.0.0.0/8,US`.
    Csv,
    /// The first address, the last and a value, with commas: `167772160,184549375,US`. Those of
    /// IPv4 are numbers or texts, those of IPv6 texts.
    Decimal,
}

/// What was expected where a line of a table is wrong.
#[derive(Clone, Copy, PartialEq, Eq, Debug)]
pub enum RowFault {
    /// Addresses as in a list.
    Addresses(Expected),
    /// Two fields.
    TwoFields,
    /// Three fields.
    ThreeFields,
    /// The first address, by a number of 32 bits or a text.
    First,
    /// The last address, of the same family and not before the first.
    Last,
    /// A value of UTF-8 that is not empty.
    Value,
}

impl fmt::Display for RowFault {
    fn fmt<W: fmt::Write>(&self, f: &mut fmt::Formatter<W>) -> fmt::Result {
        match self {
            RowFault::Addresses(expected) => write!(f, "{expected}"),
            RowFault::TwoFields => write!(f, "two fields, addresses and their value"),
            RowFault::ThreeFields => write!(f, "three fields, two addresses and a value"),
            RowFault::First => write!(f, "an address, or a number of 32 bits"),
            RowFault::Last => write!(f, "an address of the same family, not before the first"),
            RowFault::Value => write!(f, "a value"),
        }
    }
}

/// Where a line is wrong: the number of the byte, from 1, and what was expected there.
#[derive(Clone, Copy)]
pub struct Wrong {
    pub column: usize,
    pub expected: RowFault,
}

/// A text without the white space around it.
pub fn trimmed_of(text: &[u8]) -> &[u8]
    ensures { result.now ≡ trimmed text.now }
{
    text.trim_ascii()
}

fn first_blank(text: &[u8]) -> Option<usize>
    ensures { result ≡ position is_ascii_whitespace text.now }
{
    text.iter().position(|byte| byte.is_ascii_whitespace())
}

/// The text up to the first white space.
fn word_of(text: &[u8]) -> &[u8]
    ensures { result.now ≡ first_word text.now }
{
    match first_blank(text) {
        Some(at) => &text[..at],
        None => text,
    }
}

/// The text up to the first white space, and what stands behind it.
pub fn split_word(text: &[u8]) -> (&[u8], &[u8])
    ensures word { result.0.now ≡ first_word text.now }
    ensures rest { result.1.now ≡ behind_word text.now }
{
    let word = word_of(text);
    (word, trimmed_of(&text[word.len()..]))
}

fn first_comma(text: &[u8]) -> Option<usize>
    ensures { result ≡ position is_comma text.now }
{
    text.iter().position(|byte| *byte == b',')
}

/// The text up to the first comma.
fn before_comma(text: &[u8]) -> &[u8]
    ensures { result.now ≡ before_first is_comma text.now }
{
    match first_comma(text) {
        Some(at) => &text[..at],
        None => text,
    }
}

/// Whether a line is left alone: it is blank or a comment, or its first field is the name of a
/// column. No name is empty.
pub fn is_skipped(line: &[u8], header: &str) -> bool
    ensures { IsTrue result ↔ IsSkipped header.now line.now }
{
    if content_of(line).is_empty() {
        return true;
    }
    if header.is_empty() {
        return false;
    }
    before_comma(trimmed_of(line)) == header.as_bytes()
}

/// A value, if it is one: text that is not empty.
fn value_of(bytes: &[u8]) -> Option<&str>
    ensures { MatchOption result (¬ IsValue bytes.now)
        (λ text. IsValue bytes.now × (text.now ≡ bytes.now)) }
{
    match str::from_utf8(bytes) {
        Ok("") => None,
        Ok(text) => Some(text),
        Err(_) => None,
    }
}

/// What a text says that stands for addresses, as a line of a list does.
fn addresses_of(text: &[u8], strict: bool) -> Option<Line>
    ensures cases { MatchOption result
        ((value : List ℕ) (row : Row) → ¬ IsRow strict text.now value row)
        (λ line. (value : List ℕ) → IsValue value
        → IsRow strict text.now value (record { addresses = line; value = value })) }
    ensures fits { IfSome result AreAddresses }
{
    if content_of(text).is_empty() {
        return None;
    }
    line_of(text, strict)
}

/// Where the addresses are wrong that stand behind so many bytes of a line.
fn wrong_addresses(before: usize, text: &[u8]) -> Wrong {
    let fault = fault_of(text);
    Wrong {
        column: before.saturating_add(fault.column),
        expected: RowFault::Addresses(fault.expected),
    }
}

/// What two parts of a line say, the one of which stands for addresses and the other is their value.
pub fn row_of_parts<'a>(addresses: &[u8], value: &'a [u8], strict: bool) -> Option<(Line, &'a str)>
    ensures cases { MatchOption result ((row : Row) → ¬ IsRow strict addresses.now value.now row)
        (λ found. IsRow strict addresses.now value.now
        (record { addresses = found.0; value = found.1.now })) }
    ensures fits { IfSome result (λ found. AreAddresses found.0) }
{
    let line = addresses_of(addresses, strict)?;
    let text = value_of(value)?;
    Some((line, text))
}

/// A number of decimal digits below 2^32.
fn number_of(digits: &str) -> Option<u32>
    ensures { MatchOption result ((n : ℕ) → ¬ IsBits digits.now n)
        (λ n. IsBits digits.now n) }
{
    if digits.as_bytes().first() == Some(&b'+') {
        return None;
    }
    digits.parse::<u32>().ok()
}

/// The address that a text is: of IPv4 by a number or as it is written.
fn end_of(family: Family, text: &str) -> Option<u128>
    ensures cases { MatchOption result ((n : ℕ) → ¬ IsEnd family text.now n)
        (λ n. IsEnd family text.now n) }
    ensures fits { IfSome result (λ n. n < 2 ^ width family) }
{
    match family {
        Family::V4 => match number_of(text) {
            Some(number) => Some(u128::from(number)),
            None => Family::V4.read(text),
        },
        Family::V6 => Family::V6.read(text),
    }
}

/// The addresses of the family from the first to the last.
fn ends_in(family: Family, first: &str, last: &str) -> Option<Line>
    ensures cases { MatchOption result ((from to : ℕ)
        → ¬ AreEnds first.now last.now (Addresses family from to))
        (λ line. AreEnds first.now last.now line) }
    ensures fits { IfSome result AreAddresses }
{
    let first = end_of(family, first)?;
    let last = end_of(family, last)?;
    if first > last {
        return None;
    }
    Some(Line::Addresses(family, first, last))
}

/// The addresses from the first to the last.
fn ends_of(first: &str, last: &str) -> Option<Line>
    ensures cases { MatchOption result ((line : Line) → ¬ AreEnds first.now last.now line)
        (λ line. AreEnds first.now last.now line) }
    ensures fits { IfSome result AreAddresses }
{
    match ends_in(Family::V4, first, last) {
        Some(line) => Some(line),
        None => ends_in(Family::V6, first, last),
    }
}

/// What a text says that has a first address, a last one and a value.
pub fn decimal_row_of(text: &str) -> Option<(Line, &str)>
    ensures cases { MatchOption result ((row : Row) → ¬ IsDecimalRow text.now row)
        (λ found. IsDecimalRow text.now
        (record { addresses = found.0; value = found.1.now })) }
    ensures fits { IfSome result (λ found. AreAddresses found.0) }
{
    let (first, rest) = text.split_once(',')?;
    let (last, value) = rest.split_once(',')?;
    if value.is_empty() {
        return None;
    }
    Some((ends_of(first, last)?, value))
}

/// The fields of a text of CSV.
pub fn record_of(alloc: Global, text: &[u8]) -> Result<Option<ByteRecord>, AllocError>
    ensures { IfOk result (λ row. option_map fields_of row ≡ option_map (λ p. p.0)
        (next_record default_config st.StartRecord [] [] (strip_bom text.now))) }
{
    let mut reader = ReaderBuilder::new()
        .has_headers(false)
        .from_reader(alloc, text);
    let mut record = ByteRecord::new(alloc);
    match reader.read_byte_record(&mut record) {
        Ok(true) => Ok(Some(record)),
        Ok(false) => Ok(None),
        Err(_) => Err(AllocError),
    }
}

/// The fields of a record that has two.
pub fn pair_of(row: &ByteRecord) -> Option<(&[u8], &[u8])>
    ensures { MatchOption result
        ((first second : List ℕ) → ¬ (fields_of row.now ≡ first ∷ second ∷ []))
        (λ pair. fields_of row.now ≡ pair.0.now ∷ pair.1.now ∷ []) }
{
    if row.len() > 2 {
        return None;
    }
    Some((row.get(0)?, row.get(1)?))
}

/// Where two parts of a line are wrong, which stand behind so many bytes.
fn wrong_parts(before: usize, addresses: &[u8], between: usize, strict: bool) -> Wrong {
    match addresses_of(addresses, strict) {
        None => wrong_addresses(before, addresses),
        Some(_) => Wrong {
            column: before
                .saturating_add(addresses.len())
                .saturating_add(between)
                .saturating_add(1),
            expected: RowFault::Value,
        },
    }
}

/// Where a line is wrong that has two fields.
fn wrong_fields(before: usize, text: &str, strict: bool) -> Wrong {
    match text.split_once(',') {
        Some((addresses, value)) if !text.contains('"') && !value.contains(',') => {
            wrong_parts(before, addresses.as_bytes(), 1, strict)
        }
        _ => Wrong {
            column: before.saturating_add(1),
            expected: RowFault::TwoFields,
        },
    }
}

/// Where a line is wrong that has a first address, a last one and a value.
fn wrong_decimal(before: usize, text: &str) -> Wrong {
    let Some((first, rest)) = text.split_once(',') else {
        return Wrong {
            column: before.saturating_add(1),
            expected: RowFault::ThreeFields,
        };
    };
    let behind = before.saturating_add(first.len()).saturating_add(2);
    match rest.split_once(',') {
        None => Wrong {
            column: behind,
            expected: RowFault::ThreeFields,
        },
        Some(_) if ends_of(first, first).is_none() => Wrong {
            column: before.saturating_add(1),
            expected: RowFault::First,
        },
        Some((last, _)) if ends_of(first, last).is_none() => Wrong {
            column: behind,
            expected: RowFault::Last,
        },
        Some((last, _)) => Wrong {
            column: behind.saturating_add(last.len()).saturating_add(1),
            expected: RowFault::Value,
        },
    }
}

/// Where a line is wrong that says nothing in this layout.
pub fn wrong_of(line: &[u8], layout: Layout, strict: bool) -> Wrong {
    let before = line.len().saturating_sub(line.trim_ascii_start().len());
    let text = str::from_utf8(line.trim_ascii());
    match (layout, text) {
        (Layout::Lines, _) => {
            let (word, _) = split_word(content_of(line));
            wrong_parts(before, word, 1, strict)
        }
        (Layout::Csv, Ok(text)) => wrong_fields(before, text, strict),
        (Layout::Decimal, Ok(text)) => wrong_decimal(before, text),
        (_, Err(_)) => Wrong {
            column: before.saturating_add(1),
            expected: RowFault::Value,
        },
    }
}
