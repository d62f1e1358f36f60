//! Tables in each form that is printed: their values.

ghost use Rattle.std.specs.Prelude.{◌≡◌, ◌++◌, IfOk, OnOk, map};
ghost use Rattle.serde_json.specs.Data.{string};
ghost use Rattle.serde_json.specs.Written.{compact_text};
ghost use Rattle.address_rows.specs.Forms.{is_marked, mark_of, needs_quotes, one_marked, quoted, value_text};

use crate::texts::Texts;
use serde_json::Value;
use std::alloc::{AllocError, Global};

/// The form in which a table is printed.
#[derive(Clone, Copy, PartialEq, Eq, Debug)]
pub enum Form {
    /// `10.0.0.0/8 US`.
    Lines,
    /// `10.0.0.0/8,US`, with quotes where RFC 4180 wants them.
    Csv,
    /// `167772160,184549375,US`; addresses of IPv6 as texts.
    Decimal,
    /// `{"prefix":"10.0.0.0/8","value":"US"}`, an object a line.
    Json,
    /// `10.0.0.0/8 "US";`, as `geo` of `nginx` has it.
    Nginx,
    /// `10.0.0.0/8 : US,`, in a variable of `nft` for each family that has addresses.
    Nft,
}

/// Whether a byte has a mark before it in this form.
fn is_marked(form: Form, byte: u8) -> bool
    ensures { result ≡ is_marked form byte }
{
    match form {
        Form::Csv => byte == b'"',
        Form::Nginx => byte == b'"' || byte == b'\\',
        _ => false,
    }
}

/// The byte that stands before such ones.
fn mark_of(form: Form) -> u8
    ensures { result ≡ mark_of form }
{
    match form {
        Form::Csv => b'"',
        _ => b'\\',
    }
}

/// Adds a byte, with a mark before it where it wants one.
fn push_marked(form: Form, byte: u8, bytes: &mut Vec<u8>) -> Result<(), AllocError>
    ensures { OnOk result (bytes.new.items ≡ bytes.old.items ++ one_marked form byte) }
{
    if is_marked(form, byte) {
        bytes.push(mark_of(form))?;
    }
    bytes.push(byte)?;
    Ok(())
}

/// The text between quotes, with a mark before each byte that wants one.
fn quoted_text(alloc: Global, form: Form, text: &[u8]) -> Result<Vec<u8>, AllocError>
    ensures { IfOk result (λ bytes. bytes.items ≡ quoted form text.now) }
{
    let mut bytes = Vec::new(alloc);
    bytes.push(b'"')?;
    for byte in text {
        push_marked(form, *byte, &mut bytes)?;
    }
    bytes.push(b'"')?;
    Ok(bytes)
}

/// The text as it is.
fn plain_text(alloc: Global, text: &[u8]) -> Result<Vec<u8>, AllocError>
    ensures { IfOk result (λ bytes. bytes.items ≡ text.now) }
{
    Vec::from_slice(alloc, text)
}

/// The text as a string of JSON.
fn json_string(alloc: Global, text: &str) -> Result<Vec<u8>, AllocError>
    ensures { IfOk result (λ bytes. bytes.items ≡ compact_text (string text.now)) }
{
    let value = Value::String(String::from_str(alloc, text)?);
    let text = value.to_string(alloc)?;
    plain_text(alloc, text.as_bytes())
}

/// Whether a text wants quotes in CSV.
fn needs_quotes(text: &[u8]) -> bool
    ensures { result ≡ needs_quotes text.now }
{
    text.iter().any(|byte| *byte == b',' || *byte == b'"' || *byte == b'\n' || *byte == b'\r')
}

/// The text of a value in this form.
fn value_in(alloc: Global, form: Form, text: &str) -> Result<Vec<u8>, AllocError>
    ensures { IfOk result (λ bytes. bytes.items ≡ value_text form text.now) }
{
    match form {
        Form::Json => json_string(alloc, text),
        Form::Nginx => quoted_text(alloc, form, text.as_bytes()),
        Form::Csv if needs_quotes(text.as_bytes()) => quoted_text(alloc, form, text.as_bytes()),
        _ => plain_text(alloc, text.as_bytes()),
    }
}

/// The texts of values in a form, by their numbers.
///
/// Allocates a copy of each, so that printing allocates nothing.
pub fn values_in(alloc: Global, form: Form, texts: &Texts) -> Result<Vec<Vec<u8>>, AllocError>
    ensures { IfOk result (λ values. map (λ v. v.items) values.items
        ≡ map (value_text form) texts.now) }
{
    let mut values = Vec::new(alloc);
    for number in 0..texts.count() {
        values.push(value_in(alloc, form, texts.text(number))?)?;
    }
    Ok(values)
}
