//! The numbers of a JSON text.
ghost use Rattle.std.specs.Prelude.{◌≡◌, ◌<◌, ◌==◌, ◌^◌, pos, length, slice_index, true, false, Some, None, is_some, IsTrue, option_and_then, if◌then◌else◌, nat_lt};
ghost use Rattle.serde_json.specs.Find.{as_i64, as_u64};
ghost use Rattle.serde_json.specs.Read.{number_of, number_from};

use fast_float::Numeral;

fn has_minus(bytes: &[u8]) -> bool
    ensures value { result ≡ (slice_index bytes.now 0 == 45) }
    ensures len { IsTrue result → 0 < length bytes.now }
{
    !bytes.is_empty() && bytes[0] == b'-'
}

/// The natural number of a numeral without a sign.
fn unsigned_of(numeral: &Numeral<'_>) -> Option<u64>
    ensures { result ≡ option_and_then as_u64 (number_from false numeral.now) }
{
    numeral.to_u64()
}

/// The integer of a numeral behind a minus. That of 0 is none, since it is read as a float.
fn negative_of(numeral: &Numeral<'_>) -> Option<i64>
    ensures { result ≡ option_and_then as_i64 (number_from true numeral.now) }
{
    match numeral.to_i64(true) {
        Some(number) if number < 0 => Some(number),
        _ => None,
    }
}

/// The integer of a numeral without a sign.
fn positive_of(numeral: &Numeral<'_>) -> Option<i64>
    ensures { result ≡ option_and_then as_i64 (number_from false numeral.now) }
{
    match numeral.to_u64() {
        Some(number) if number <= i64::MAX as u64 => Some(number as i64),
        _ => None,
    }
}

/// Whether a numeral without a sign has a value: an integer of 64 bits, or a float.
fn has_positive(numeral: &Numeral<'_>) -> bool
    ensures { result ≡ is_some (number_from false numeral.now) }
{
    unsigned_of(numeral).is_some() || numeral.to_float::<f64>(false).is_finite()
}

/// Whether a numeral behind a minus has a value.
fn has_negative(numeral: &Numeral<'_>) -> bool
    ensures { result ≡ is_some (number_from true numeral.now) }
{
    negative_of(numeral).is_some() || numeral.to_float::<f64>(true).is_finite()
}

/// The natural number that a number of a text is.
pub(crate) fn to_u64(text: &str) -> Option<u64>
    ensures { result ≡ option_and_then as_u64 (number_of text.now) }
{
    let bytes = text.as_bytes();
    if has_minus(bytes) {
        None
    } else {
        unsigned_of(&Numeral::scan(bytes))
    }
}

/// The integer that a number of a text is.
pub(crate) fn to_i64(text: &str) -> Option<i64>
    ensures { result ≡ option_and_then as_i64 (number_of text.now) }
{
    let bytes = text.as_bytes();
    if has_minus(bytes) {
        negative_of(&Numeral::scan(&bytes[1..]))
    } else {
        positive_of(&Numeral::scan(bytes))
    }
}

/// Whether a number of a text has a value.
pub(crate) fn is_number(text: &str) -> bool
    ensures { result ≡ is_some (number_of text.now) }
{
    let bytes = text.as_bytes();
    if has_minus(bytes) {
        has_negative(&Numeral::scan(&bytes[1..]))
    } else {
        has_positive(&Numeral::scan(bytes))
    }
}
