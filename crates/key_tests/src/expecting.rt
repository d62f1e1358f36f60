//! Rows of tables, and what fails a test.

use range_algebra::any::AnyRange;
use std::fmt::Debug;
use std::process::Abort;

/// A row of a table, with its answer.
pub trait Row {
    /// Whether the answer is the one that the row says.
    fn holds(&self) -> bool;
}

/// The index of the first row that does not hold.
pub fn first_wrong<R: Row>(rows: &[R]) -> Option<usize> {
    for (place, row) in rows.iter().enumerate() {
        if !row.holds() {
            return Some(place);
        }
    }
    None
}

/// An answer is the one that was expected.
pub fn expect_answer(rt: &impl Abort, place: &str, answer: bool, told: bool) {
    assert!(rt; answer == told, "{place}");
}

/// A length is the one that was expected.
pub fn expect_length(rt: &impl Abort, place: &str, length: u128, told: u128) {
    assert!(rt; length == told, "{place} has {length}");
}

/// A range is the one that was expected.
pub fn expect_range(rt: &impl Abort, place: &str, range: AnyRange<i32>, told: AnyRange<i32>) {
    assert!(rt; range == told, "{place} is {range:?}");
}

/// No call or row was named as a wrong one.
pub fn expect_none<T: Debug + Drop>(rt: &impl Abort, place: &str, wrong: Option<T>) {
    assert!(rt; wrong.is_none(), "{wrong:?} of {place}");
}
