//! Lines and columns.
ghost use Rattle.std.specs.Prelude.{◌≡◌, ◌+◌, ◌<◌, ◌^◌, length};
ghost use Rattle.lexing.specs.Places.{first_place, place_after, place_behind};

/// A line and a column of a text, each from 1. A column counts characters.
#[derive(Clone, Copy, Debug, PartialEq, Eq, Drop)]
pub struct Place {
    pub line: usize,
    pub column: usize,
}

impl Place {
    /// Where a text begins.
    pub fn first() -> Place
        ensures { result ≡ first_place }
    {
        Place { line: 1, column: 1 }
    }

    /// The place behind the bytes of a text in UTF-8, which begin here. Only `\n` ends a line.
    /// Allocates nothing.
    ///
    /// ```
    /// assert!(rt; Place::first().behind("a\nßc".as_bytes()) == Place { line: 2, column: 3 });
    /// ```
    pub fn behind(self, bytes: &[u8]) -> Place
        ensures { self.line + length bytes.now < 2 ^ 64 → self.column + length bytes.now < 2 ^ 64
            → result ≡ place_after self bytes.now }
    {
        let mut place = self;
        for at in 0..bytes.len() {
            place = behind_byte(place, bytes[at]);
        }
        place
    }
}

/// The place behind a byte. One from 128 up to 191 goes on with a character.
fn behind_byte(place: Place, byte: u8) -> Place
    ensures { place.line + 1 < 2 ^ 64 → place.column + 1 < 2 ^ 64
        → result ≡ place_behind place byte }
{
    if byte == b'\n' {
        return Place {
            line: place.line.saturating_add(1),
            column: 1,
        };
    }
    if byte >= 128 && byte < 192 {
        return place;
    }
    Place {
        line: place.line,
        column: place.column.saturating_add(1),
    }
}
