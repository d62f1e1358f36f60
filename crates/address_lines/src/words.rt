//! Whether a line of any text holds an address of a list.

ghost use Rattle.std.specs.Prelude.{◌≡◌, ◌↔◌, ◌⊎◌, ◌≤◌, IsTrue, MatchOption, length, position};
ghost use Rattle.std.specs.Io.BufRead.{strip_last};
ghost use Rattle.std.specs.List.{after_first, before_first};
ghost use Rattle.address_text.specs.Lines.{HasByte};
ghost use Rattle.address_lines.specs.Words.{Counts, HasIpv4, HasIpv6, HasPart, HoldsAddress, ends_word, is_colon, is_word, without_mark};

use address_lists::{Addresses, has};
use std::net::{IpAddr, Ipv4Addr, Ipv6Addr};

/// The length of `0.0.0.0`. Most words of a text are shorter.
const SHORTEST_IPV4: usize = 7;

/// Whether a byte stands in words: a letter, a digit, a dot or a colon.
fn is_word(byte: u8) -> bool
    ensures { result ≡ is_word byte }
{
    if byte <= b':' {
        byte >= b'0' || byte == b'.'
    } else {
        byte.is_ascii_alphabetic()
    }
}

/// Where the first byte stands that is in no word.
fn word_end(text: &[u8]) -> Option<usize>
    ensures { result ≡ position ends_word text.now }
{
    text.iter().position(|byte| !is_word(*byte))
}

/// Where the first colon stands.
fn colon_in(text: &[u8]) -> Option<usize>
    ensures { result ≡ position is_colon text.now }
{
    text.iter().position(|byte| *byte == b':')
}

/// What stands before the end of the first word, and what stands behind the byte there.
fn cut_word(text: &[u8]) -> Option<(&[u8], &[u8])>
    ensures { MatchOption result (¬ HasByte ends_word text.now)
        (λ cut. HasByte ends_word text.now × (cut.0.now ≡ before_first ends_word text.now)
        × (cut.1.now ≡ after_first ends_word text.now)) }
{
    match word_end(text) {
        Some(at) => Some((&text[..at], &text[at + 1..])),
        None => None,
    }
}

/// What stands before the first colon, and behind it.
fn cut_part(text: &[u8]) -> Option<(&[u8], &[u8])>
    ensures { MatchOption result (¬ HasByte is_colon text.now)
        (λ cut. HasByte is_colon text.now × (cut.0.now ≡ before_first is_colon text.now)
        × (cut.1.now ≡ after_first is_colon text.now)) }
{
    match colon_in(text) {
        Some(at) => Some((&text[..at], &text[at + 1..])),
        None => None,
    }
}

/// A text without a dot at its end.
fn without_dot(text: &[u8]) -> &[u8]
    ensures { result.now ≡ strip_last 46 text.now }
{
    text.strip_suffix(b".").unwrap_or(text)
}

/// A text without a dot at its end, and without a colon that stands there then.
fn without_mark(text: &[u8]) -> &[u8]
    ensures { result.now ≡ without_mark text.now }
{
    let text = without_dot(text);
    text.strip_suffix(b":").unwrap_or(text)
}

/// Whether the text is an address of IPv4 that the list has.
fn is_ipv4(list: &Addresses, text: &[u8]) -> bool
    ensures { IsTrue result ↔ HasIpv4 list.now text.now }
{
    if text.len() < SHORTEST_IPV4 {
        return false;
    }
    match Ipv4Addr::parse_ascii(text) {
        Ok(address) => has(list, IpAddr::V4(address)),
        Err(_) => false,
    }
}

/// Whether the text is an address of IPv6 that the list has.
fn is_ipv6(list: &Addresses, text: &[u8]) -> bool
    ensures { IsTrue result ↔ HasIpv6 list.now text.now }
{
    match Ipv6Addr::parse_ascii(text) {
        Ok(address) => has(list, IpAddr::V6(address)),
        Err(_) => false,
    }
}

/// Whether a text that is shorter than another is an address of IPv6 that the list has.
fn is_shorter_ipv6(list: &Addresses, shorter: &[u8], text: &[u8]) -> bool
    ensures { (length text.now ≤ length shorter.now → shorter.now ≡ text.now)
        → ¬ HasIpv6 list.now text.now → IsTrue result ↔ HasIpv6 list.now shorter.now }
{
    shorter.len() < text.len() && is_ipv6(list, shorter)
}

/// Whether a text is an address of IPv6 that the list has, or is one without a dot at its end, or
/// without a mark there.
fn is_marked_ipv6(list: &Addresses, text: &[u8]) -> bool
    ensures { IsTrue result ↔ (HasIpv6 list.now text.now
        ⊎ (HasIpv6 list.now (strip_last 46 text.now) ⊎ HasIpv6 list.now (without_mark text.now))) }
{
    if is_ipv6(list, text) {
        return true;
    }
    is_shorter_ipv6(list, without_dot(text), text)
        || is_shorter_ipv6(list, without_mark(text), text)
}

/// Whether a part of a word between colons counts as an address of IPv4.
fn has_part(list: &Addresses, word: &[u8]) -> bool
    ensures { IsTrue result ↔ HasPart list.now word.now }
{
    let mut rest = word;
    'parts: while let Some((part, more)) = cut_part(rest) {
        if is_ipv4(list, without_dot(part)) {
            return true;
        }
        rest = more;
    }
    is_ipv4(list, without_dot(rest))
}

/// Whether a word counts as an address of the list, or a part of it does.
fn counts(list: &Addresses, word: &[u8]) -> bool
    ensures { IsTrue result ↔ Counts list.now word.now }
{
    match colon_in(word) {
        Some(_) => has_part(list, word) || is_marked_ipv6(list, word),
        None => is_ipv4(list, without_dot(word)),
    }
}

/// Whether a line holds an address of the list.
///
/// A word is as long a run of letters, digits, dots and colons as there is, all of ASCII. One with
/// a colon counts where it is an address of IPv6, or is one without a dot or a colon at its end.
/// What stands between its colons, or a word without, counts where it is an address of IPv4, or is
/// one without a dot at its end. So `10.0.0.1:80` holds `10.0.0.1`, and `10.0.0.1.example` holds
/// no address. Allocates nothing. Costs a search for each address in the line.
pub fn holds_address(list: &Addresses, line: &[u8]) -> bool
    ensures { IsTrue result ↔ HoldsAddress list.now line.now }
{
    let mut rest = line;
    'words: while let Some((word, more)) = cut_word(rest) {
        if counts(list, word) {
            return true;
        }
        rest = more;
    }
    counts(list, rest)
}
