//! What is wrong with a line that says nothing.

ghost use Rattle.std.specs.Prelude.{◌≡◌, ◌≤◌, ◌+◌, MatchOption, length};
ghost use Rattle.address_text.specs.Faults.{IsAddress, IsExpected, IsFault, IsOf, IsWrong, IsWrongLast, IsWrongLength, IsWrongPrefix, IsWrongRange, blank_count};

use crate::family::Family;
use crate::line::{content_of, length_of, trimmed_of};
use std::fmt;

/// What was expected where a line of an address list is wrong.
#[derive(Clone, Copy, PartialEq, Eq, Debug)]
pub enum Expected {
    /// An address of IPv4 or IPv6.
    Address,
    /// A length of a prefix, at most so many bits.
    Length(u8),
    /// A mask: bits of 1 and then bits of 0, or the reverse.
    Mask,
    /// Bits of 0 after the length of the prefix.
    ZeroBits,
    /// An address of the same family that is not before the first.
    Last,
}

impl fmt::Display for Expected {
    fn fmt<W: fmt::Write>(&self, f: &mut fmt::Formatter<W>) -> fmt::Result {
        match self {
            Expected::Address => write!(f, "an address"),
            Expected::Length(most) => write!(f, "a length of at most {most}"),
            Expected::Mask => write!(f, "a mask of ones and then zeros, or the reverse"),
            Expected::ZeroBits => write!(f, "bits of 0 after the prefix"),
            Expected::Last => write!(f, "an address of the same family, not before the first"),
        }
    }
}

/// Where a line is wrong: the number of the byte, from 1, and what was expected there.
#[derive(Clone, Copy, PartialEq, Eq, Debug)]
pub struct Fault {
    pub column: usize,
    pub expected: Expected,
}

fn family_of(text: &str) -> Option<Family>
    ensures { MatchOption result (¬ IsAddress text.now) (λ family. IsOf family text.now) }
{
    if let Some(_number) = Family::V4.read(text) {
        return Some(Family::V4);
    }
    match Family::V6.read(text) {
        Some(_number) => Some(Family::V6),
        None => None,
    }
}

/// How many bytes of white space a text begins with.
fn blanks(text: &[u8]) -> usize
    ensures most { result ≤ length text.now }
    ensures count { result ≡ blank_count text.now }
{
    text.len().saturating_sub(text.trim_ascii_start().len())
}

/// What was expected after the slash of a prefix whose length is wrong.
fn expected_length(family: Family, digits: &str) -> Expected
    ensures { IsWrongLength family digits.now result }
{
    match family.read(digits) {
        Some(_) => Expected::Mask,
        None => Expected::Length(family.width()),
    }
}

fn fault_of_prefix(address: &str, digits: &str) -> Fault
    ensures last { result.column ≤ length address.now + 1 }
    ensures expected { IsWrongPrefix address.now digits.now result.expected result.column }
{
    match family_of(address) {
        None => Fault {
            column: 0,
            expected: Expected::Address,
        },
        Some(family) if length_of(family, digits).is_none() => Fault {
            column: address.len() + 1,
            expected: expected_length(family, digits),
        },
        Some(_) => Fault {
            column: 0,
            expected: Expected::ZeroBits,
        },
    }
}

/// What is wrong with the second text of a range.
fn expected_last(last: &str) -> Expected
    ensures { IsWrongLast last.now result }
{
    match family_of(last) {
        Some(_) => Expected::Last,
        None => Expected::Address,
    }
}

fn fault_of_range(first: &str, last: &str) -> Fault
    ensures last { result.column ≤ length first.now + 1 + length last.now }
    ensures expected { IsWrongRange first.now last.now result.expected result.column }
{
    match family_of(trimmed_of(first)) {
        None => Fault {
            column: 0,
            expected: Expected::Address,
        },
        Some(_) => {
            let blanks = blanks(last.as_bytes());
            Fault {
                column: first.len() + 1 + blanks,
                expected: expected_last(trimmed_of(last)),
            }
        }
    }
}

fn fault_in(text: &str) -> Fault
    ensures last { result.column ≤ length text.now }
    ensures expected { IsWrong text.now result.expected result.column }
{
    if let Some((address, digits)) = text.split_once('/') {
        return fault_of_prefix(address, digits);
    }
    if let Some((first, last)) = text.split_once('-') {
        return fault_of_range(first, last);
    }
    Fault {
        column: 0,
        expected: Expected::Address,
    }
}

fn fault_in_content(content: &[u8]) -> Fault
    ensures last { result.column ≤ length content.now }
    ensures expected { IsExpected content.now result.expected result.column }
{
    match str::from_utf8(content) {
        Ok(text) => fault_in(text),
        Err(_) => Fault {
            column: 0,
            expected: Expected::Address,
        },
    }
}

/// What is wrong with a line that [`line_of`](crate::line_of) reads as nothing, and the byte where
/// the part begins that is wrong, or the line's end. Allocates nothing.
pub fn fault_of(line: &[u8]) -> Fault
    ensures first { 1 ≤ result.column }
    ensures last { result.column ≤ length line.now + 1 }
    ensures expected { IsFault line.now result.column result.expected }
{
    let blanks = blanks(line);
    let fault = fault_in_content(content_of(&line[blanks..]));
    Fault {
        column: blanks + fault.column + 1,
        expected: fault.expected,
    }
}
