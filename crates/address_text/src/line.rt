//! What a line of an address list says.

ghost use Rattle.std.specs.Prelude.{◌≡◌, ◌≢◌, ◌↔◌, ◌+◌, ◌-◌, ◌%◌, ◌≤◌, ◌<◌, ◌^◌, ℕ, IfSome, IsTrue, MatchOption, position};
ghost use Rattle.std.specs.List.{before_first};
ghost use Rattle.std.specs.Net.Grammar.{IsNumber};
ghost use Rattle.address_text.specs.Lines.{AreAddresses, IsLength, IsMask, IsPrefixSpan, IsRangeSpan, IsShort, IsSpan, Says, content, trimmed, is_hash};
ghost use Rattle.address_text.specs.Texts.{width};
ghost use Rattle.address_text.specs.declared.line.Line.{Line};

use crate::family::Family;

/// What a line of an address list says.
#[derive(Clone, Copy, PartialEq, Eq, Debug)]
pub enum Line {
    /// Nothing: the line is blank, or a comment alone.
    Nothing,
    /// The addresses of the family from the first to the last.
    Addresses(Family, u128, u128),
}

fn comment_start(line: &[u8]) -> Option<usize>
    ensures { result ≡ position is_hash line.now }
{
    line.iter().position(|byte| *byte == b'#')
}

fn before_comment(line: &[u8]) -> &[u8]
    ensures { result.now ≡ before_first is_hash line.now }
{
    match comment_start(line) {
        Some(at) => &line[..at],
        None => line,
    }
}

/// The text of a line up to a comment, without the white space around it. Allocates nothing.
pub fn content_of(line: &[u8]) -> &[u8]
    ensures { result.now ≡ content line.now }
{
    before_comment(line).trim_ascii()
}

/// A text without the white space around it.
pub(crate) fn trimmed_of(text: &str) -> &str
    ensures { result.now ≡ trimmed text.now }
{
    text.trim_ascii()
}

/// A number of decimal digits, up to 255.
fn number_of(digits: &str) -> Option<u8>
    ensures { MatchOption result ((n : ℕ) → IsNumber 10 digits.now n → 256 ≤ n)
        (λ n. IsNumber 10 digits.now n) }
{
    if digits.as_bytes().first() == Some(&b'+') {
        return None;
    }
    digits.parse::<u8>().ok()
}

/// A number of decimal digits, up to the length of an address.
fn short_of(family: Family, digits: &str) -> Option<u8>
    ensures { MatchOption result ((n : ℕ) → ¬ IsShort family digits.now n)
        (λ n. IsShort family digits.now n) }
{
    let length = number_of(digits)?;
    if length > family.width() {
        return None;
    }
    Some(length)
}

/// All numbers of so many bits are at most this one.
fn greatest_of(bits: u8) -> u128
    requires { bits ≤ 128 }
    ensures { result + 1 ≡ 2 ^ bits }
{
    match 1u128.checked_shl(u32::from(bits)) {
        Some(size) => size - 1,
        None => u128::MAX,
    }
}

/// Whether a number is the mask of this length.
fn is_mask(width: u8, length: u8, mask: u128) -> bool
    requires width { width ≤ 128 }
    requires length { length ≤ width }
    requires mask { mask < 2 ^ width }
    ensures { IsTrue result ↔ IsMask width length mask }
{
    let rest = greatest_of(width - length);
    greatest_of(width) - mask == rest || (length > 0 && length < width && mask == rest)
}

/// The length of which a number is the mask.
fn mask_length(width: u8, mask: u128) -> Option<u8>
    requires width { width ≤ 128 }
    requires mask { mask < 2 ^ width }
    ensures { MatchOption result ((length : ℕ) → ¬ IsMask width length mask)
        (λ length. IsMask width length mask) }
{
    for length in 0..width + 1 {
        if is_mask(width, length, mask) {
            return Some(length);
        }
    }
    None
}

/// The length that a text after a slash says: a number, or a mask such as `255.255.255.0` or
/// `0.0.0.255`.
pub(crate) fn length_of(family: Family, text: &str) -> Option<u8>
    ensures cases { MatchOption result ((length : ℕ) → ¬ IsLength family text.now length)
        (λ length. IsLength family text.now length) }
    ensures fits { IfSome result (λ length. length ≤ width family) }
{
    match short_of(family, text) {
        Some(length) => Some(length),
        None => mask_length(family.width(), family.read(text)?),
    }
}

/// The first and the last number that begin with the bits of a number, but for so many bits.
fn block_of(number: u128, free: u8) -> (u128, u128)
    requires { free ≤ 128 }
    ensures first { result.0 ≡ number - number % 2 ^ free }
    ensures last { result.1 + 1 ≡ result.0 + 2 ^ free }
{
    match 1u128.checked_shl(u32::from(free)) {
        Some(size) => {
            let first = number - number % size;
            (first, first + (size - 1))
        }
        None => (0, u128::MAX),
    }
}

/// The addresses of a prefix, by the texts before and after its slash.
fn prefix_span(family: Family, address: &str, digits: &str, strict: bool) -> Option<(u128, u128)>
    ensures cases { MatchOption result ((first last : ℕ)
        → ¬ IsPrefixSpan strict family address.now digits.now first last)
        (λ span. IsPrefixSpan strict family address.now digits.now span.0 span.1) }
    ensures fits { IfSome result
        (λ span. (span.0 < 2 ^ width family) × (span.1 < 2 ^ width family)) }
{
    let number = family.read(address)?;
    let length = length_of(family, digits)?;
    let (first, last) = block_of(number, family.width() - length);
    if strict && first != number {
        return None;
    }
    Some((first, last))
}

/// The addresses of a range, by the texts before and after its dash.
fn range_span(family: Family, first: &str, last: &str) -> Option<(u128, u128)>
    ensures cases { MatchOption result ((from to : ℕ)
        → ¬ IsRangeSpan family first.now last.now from to)
        (λ span. IsRangeSpan family first.now last.now span.0 span.1) }
    ensures fits { IfSome result
        (λ span. (span.0 < 2 ^ width family) × (span.1 < 2 ^ width family)) }
{
    let first = family.read(trimmed_of(first))?;
    let last = family.read(trimmed_of(last))?;
    if first > last {
        return None;
    }
    Some((first, last))
}

/// The addresses of the family that a text says, or `None` where it says none.
fn span_of(family: Family, text: &str, strict: bool) -> Option<(u128, u128)>
    ensures cases { MatchOption result ((first last : ℕ)
        → ¬ IsSpan strict family text.now first last)
        (λ span. IsSpan strict family text.now span.0 span.1) }
    ensures fits { IfSome result
        (λ span. (span.0 < 2 ^ width family) × (span.1 < 2 ^ width family)) }
{
    if let Some((address, digits)) = text.split_once('/') {
        return prefix_span(family, address, digits, strict);
    }
    if let Some((first, last)) = text.split_once('-') {
        return range_span(family, first, last);
    }
    let address = family.read(text)?;
    Some((address, address))
}

/// What a line says, or `None` where it is no line of an address list.
///
/// A line is blank, an address, a prefix `address/length` or a range `first-last`, each with a
/// comment after `#` or without. A length is a number or a mask: bits of 1 and then bits of 0, as
/// `255.0.0.0`, or the reverse, as `0.255.255.255`. Where `strict` is set, the bits of a prefix's address after its
/// length have to be 0; else they are taken for 0. White space may stand around each, and at the
/// dash. A comment may have any bytes. Allocates nothing.
pub fn line_of(line: &[u8], strict: bool) -> Option<Line>
    ensures cases { MatchOption result ((said : Line) → ¬ Says strict line.now said)
        (λ said. Says strict line.now said) }
    ensures fits { IfSome result AreAddresses }
{
    let Ok(text) = str::from_utf8(content_of(line)) else {
        return None;
    };
    if text.is_empty() {
        return Some(Line::Nothing);
    }
    if let Some((first, last)) = span_of(Family::V4, text, strict) {
        return Some(Line::Addresses(Family::V4, first, last));
    }
    let (first, last) = span_of(Family::V6, text, strict)?;
    Some(Line::Addresses(Family::V6, first, last))
}
