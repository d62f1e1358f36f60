//! Borrowed values from texts.
ghost use Rattle.std.specs.Prelude.{◌≡◌, ◌≢◌, Some, None, Ok, Err, IfOk};
ghost use Rattle.json.specs.Value.{value_view, items_view, members_view};
ghost use Rattle.json_trees.specs.Borrowed.{borrowed_data, is_readable, are_readable, members_are_readable};
ghost use Rattle.serde_json.specs.Read.{read};

use crate::number;
use json::{Reader, Scratch, Value};
use std::alloc::{AllocError, Global};

/// How deep arrays and objects may nest, as in `serde_json`.
const MAX_DEPTH: usize = 127;

/// Why a text was not read as a JSON value.
#[derive(Clone, Copy, Debug, Drop, PartialEq, Eq)]
pub enum TextError {
    /// There was not enough memory.
    Memory,
    /// The text is no JSON, nests too deep or has a number that is too large.
    NotJson,
}

impl From<AllocError> for TextError {
    ghost use Rattle.json_trees.specs.declared.text.TextError.TheVariants.{Memory};

    ghost from_gives = { λ _ e. e ≡ Memory };

    fn from(_error: AllocError) -> TextError {
        TextError::Memory
    }
}

impl From<json::Error> for TextError {
    ghost use Rattle.std.specs.Prelude.{◌↔◌};
    ghost use Rattle.json.specs.declared.error.Error.TheVariants.{Invalid};
    ghost use Rattle.json_trees.specs.declared.text.TextError.TheVariants.{NotJson};

    ghost from_gives = { λ given e. e ≡ NotJson ↔ given ≡ Invalid };

    fn from(error: json::Error) -> TextError {
        match error {
            json::Error::Invalid => TextError::NotJson,
            _ => TextError::Memory,
        }
    }
}

#[cycle(readable)]
fn has_values(value: &Value<'_>) -> bool
    ensures { result ≡ is_readable (value_view value.now) }
{
    match value {
        Value::Number(text) => number::is_number(text),
        Value::Array(items) => items_have_values(items),
        Value::Object(members) => members_have_values(members),
        _ => true,
    }
}

#[cycle(readable)]
fn items_have_values<'a>(items: &Vec<Value<'a>>) -> bool
    ensures { result ≡ are_readable (items_view items.now.items) }
{
    for item in items {
        if !has_values(item) {
            return false;
        }
    }
    true
}

#[cycle(readable)]
fn members_have_values<'a>(members: &Vec<(&'a str, Value<'a>)>) -> bool
    ensures { result ≡ members_are_readable (members_view members.now.items) }
{
    for member in members {
        if !has_values(&member.1) {
            return false;
        }
    }
    true
}

/// The JSON value that the text is, as `serde_json::Value` reads it, with its texts borrowed.
///
/// Allocates a list for each array and object. What `serde_json` refuses is refused.
///
/// # Errors
///
/// `NotJson` where `serde_json` reads no value; `Memory` where an allocation fails.
pub fn parse<'a>(
    alloc: Global,
    text: &'a str,
    scratch: &'a mut Scratch,
) -> Result<Value<'a>, TextError>
    ensures read { IfOk result (λ v. read text.now ≡ Some (borrowed_data v)) }
    ensures refused { result ≡ Err TextError.NotJson → read text.now ≡ None }
{
    let mut reader = Reader::new(text, scratch)?;
    let value = Value::read(alloc, &mut reader, MAX_DEPTH)?;
    if reader.next().is_some() {
        return Err(TextError::NotJson);
    }
    if !has_values(&value) {
        return Err(TextError::NotJson);
    }
    Ok(value)
}
