//! Places in a text: lines and columns.

ghost use Rattle.std.specs.Prelude.{◌≡◌, MatchOption, position};
ghost use Rattle.std.specs.List.{after_first, before_first};
ghost use Rattle.address_text.specs.Lines.{HasByte};
ghost use Rattle.address_text.specs.Places.{IsPlace, ends_line};

fn line_end(text: &[u8]) -> Option<usize>
    ensures { result ≡ position ends_line text.now }
{
    text.iter().position(|byte| *byte == b'\n')
}

/// The first line of a text, and what stands behind its end, where it has one.
fn cut_line(text: &[u8]) -> Option<(&[u8], &[u8])>
    ensures { MatchOption result (¬ HasByte ends_line text.now)
        (λ cut. HasByte ends_line text.now × (cut.0.now ≡ before_first ends_line text.now)
        × (cut.1.now ≡ after_first ends_line text.now)) }
{
    match line_end(text) {
        Some(at) => Some((&text[..at], &text[at + 1..])),
        None => None,
    }
}

/// The place in a text that a line and a column tell, both from 1. Where the text does not reach so
/// far, it is the last one of the line, or one in the last line. Allocates nothing.
///
/// ```
/// assert!(rt; place_in(b"{\n}", 2, 1) == (2, 1));
/// assert!(rt; place_in(b"{\n}", 7, 9) == (2, 1));
/// ```
pub fn place_in(text: &[u8], line: usize, column: usize) -> (usize, usize)
    ensures { IsPlace text.now result.0 result.1 }
{
    let mut rest = text;
    let mut number = 1;
    'lines: while let Some((first, more)) = cut_line(rest) {
        if number >= line {
            return (number, column.min(first.len()));
        }
        rest = more;
        number += 1;
    }
    (number, column.min(rest.len()))
}
