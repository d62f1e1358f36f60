//! Starts of lines that tell all that counts, whatever comes next.

ghost use Rattle.std.specs.Prelude.{◌≡◌, ◌≢◌, ◌≤◌, ℕ, List, [], IfSome, IsTrue, None, length, position, true};
ghost use Rattle.std.specs.Io.{StartsWith};
ghost use Rattle.std.specs.List.{list_all};
ghost use Rattle.address_text.specs.Starts.{HasOneFault, IsBadStart, OpensComment, ends_text, is_plain};

/// No address has so many bytes.
pub const START_BYTES: usize = 80;

fn is_plain(byte: u8) -> bool
    ensures { result ≡ is_plain byte }
{
    !(byte.is_ascii_whitespace() || matches!(byte, b'#' | b'/' | b'-' | b'{'))
}

fn are_plain(bytes: &[u8]) -> bool
    ensures { result ≡ list_all is_plain bytes.now }
{
    bytes.iter().all(|byte| is_plain(*byte))
}

/// Whether a line that begins so is bad, whatever comes next: an address was expected at its first
/// byte, and more bytes follow each other than any address has. No JSON begins so.
///
/// Allocates nothing.
pub fn is_bad_start(start: &[u8]) -> bool
    ensures some { IsTrue result → start.now ≢ [] }
    ensures plain { IsTrue result → list_all is_plain start.now ≡ true }
    ensures fault { IsTrue result → HasOneFault start.now }
    ensures bad { IsTrue result → IsBadStart start.now }
    ensures told { 80 ≤ length start.now → list_all is_plain start.now ≡ true → IsTrue result }
{
    start.len() >= START_BYTES && are_plain(start)
}

/// Where the first byte stands with which a comment, the next line or JSON begins.
fn text_end(start: &[u8]) -> Option<usize>
    ensures { result ≡ position ends_text start.now }
{
    start
        .iter()
        .position(|byte| matches!(*byte, b'#' | b'\n' | b'{'))
}

/// The start of a line up to its comment sign, and with it: whatever comes next is comment. No JSON
/// begins so.
///
/// `None` where these first bytes have no such sign, or a `{` before it. Allocates nothing.
pub fn commented_start(start: &[u8]) -> Option<&[u8]>
    ensures first { IfSome result (λ text. StartsWith start.now text.now) }
    ensures comment { IfSome result (λ text. OpensComment text.now) }
    ensures none { result ≡ None → (text : List ℕ) → StartsWith start.now text
        → ¬ OpensComment text }
{
    match text_end(start) {
        Some(at) if start[at] == b'#' => Some(&start[..at + 1]),
        _ => None,
    }
}
