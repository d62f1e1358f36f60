//! What stood where a JSON value was not read.

use arrayvec::ArrayString;
use serde_json::Value;
use std::fmt;
use std::fmt::InlineText;

/// How many characters of a JSON value are shown.
const LENGTH: usize = 40;

/// The bytes of one character more than is shown, so that a text that is cut to fit has it.
const ROOM: usize = 164;

/// The text of a JSON value: the first 40 characters, and three dots where there are more.
#[derive(Clone, Copy, Debug, Drop, PartialEq, Eq)]
pub struct Found {
    text: ArrayString<{ ROOM }>,
}

impl Found {
    pub(crate) fn of(value: &Value) -> Found {
        let whole: InlineText<{ ROOM }> = InlineText::of(value);
        let mut text = ArrayString::new();
        let mut left = whole.as_str().chars();
        for _ in 0..LENGTH {
            if let Some(next) = left.next() {
                let _fits = text.try_push(next);
            }
        }
        if left.next().is_some() {
            let _fits = text.try_push_str("...");
        }
        Found { text }
    }

    /// The text.
    pub fn as_str(&self) -> &str {
        self.text.as_str()
    }
}

impl fmt::Display for Found {
    fn fmt<W: fmt::Write>(&self, f: &mut fmt::Formatter<W>) -> fmt::Result {
        f.write_str(self.as_str())
    }
}
