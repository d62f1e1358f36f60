//! Bad rules as they are told to C.
ghost use Rattle.std.specs.Prelude.{◌≡◌, ◌≤◌, ◌++◌, drop, length, take};
ghost use Rattle.lexer_handles.specs.Faults.{TellsOf, number_of};

use crate::refusal::{BadRule, Reason};
use lexing_patterns::PatternError;

/// The reason of a pattern that is none: the text says what is wrong, the span where.
pub const SYNTAX: u32 = 1;

/// The reason of a pattern that has an assertion, such as `^` or `\b`.
pub const ASSERTION: u32 = 2;

/// The reason of a pattern that may match bytes that are no UTF-8.
pub const MATCHES_BYTES: u32 = 3;

/// The reason of a pattern that takes more steps than are left of the budget of patterns.
pub const LARGE_PATTERN: u32 = 4;

/// The reason of a rule whose name or pattern is no UTF-8.
pub const NO_UTF8: u32 = 5;

/// Which rule is not taken, and why: the number of the reason, and the bytes of the pattern from
/// `start` up to `end` that are wrong, where the reason is `SYNTAX`.
#[repr(C)]
#[derive(Clone, Copy, Drop)]
pub struct Fault {
    pub rule: usize,
    pub start: usize,
    pub end: usize,
    pub text_size: usize,
    pub reason: u32,
}

/// The number of the reason.
fn number_of(reason: Reason) -> u32
    ensures { result ≡ number_of reason }
{
    match reason {
        Reason::NotText => NO_UTF8,
        Reason::Pattern(PatternError::Syntax(_)) => SYNTAX,
        Reason::Pattern(PatternError::Assertion) => ASSERTION,
        Reason::Pattern(PatternError::NotText) => MATCHES_BYTES,
        Reason::Pattern(PatternError::TooLarge) => LARGE_PATTERN,
        Reason::Pattern(PatternError::Memory) => 0,
    }
}

/// What is wrong, for a message.
fn text_of(reason: Reason) -> &'static str {
    match reason {
        Reason::NotText => "the name or the pattern is not UTF-8",
        Reason::Pattern(PatternError::Syntax(error)) => error.kind.message(),
        Reason::Pattern(PatternError::Assertion) => "assertions are not taken",
        Reason::Pattern(PatternError::NotText) => "bytes that are no UTF-8 are not taken",
        Reason::Pattern(PatternError::TooLarge) => "the pattern is too large",
        Reason::Pattern(PatternError::Memory) => "out of memory",
    }
}

/// Copies as much of the text to the front of the buffer as it takes. Returns how many bytes.
fn write_front(text: &[u8], buffer: &mut [u8]) -> usize
    ensures written { buffer.new ≡ take result text.now ++ drop result buffer.old }
    ensures within { result ≤ length text.now }
{
    let size = text.len().min(buffer.len());
    let (front, _) = buffer.split_at_mut(size);
    front.copy_from_slice(&text[..size]);
    size
}

/// Tells of the rule, and writes what is wrong to the front of the buffer, as much as it takes.
pub fn tell(bad: BadRule, fault: &mut Fault, buffer: &mut [u8])
    ensures told { TellsOf bad fault.new }
    ensures behind { drop fault.new.text_size buffer.new ≡ drop fault.new.text_size buffer.old }
{
    let (start, end) = match bad.reason {
        Reason::Pattern(PatternError::Syntax(error)) => (error.span.start, error.span.end),
        _ => (0, 0),
    };
    let text_size = write_front(text_of(bad.reason).as_bytes(), buffer);
    *fault = Fault {
        rule: bad.rule,
        start,
        end,
        text_size,
        reason: number_of(bad.reason),
    };
}
