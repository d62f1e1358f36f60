//! Whole numbers as a line writes them, and the keys that they name.

ghost use Rattle.std.specs.Prelude.{◌≡◌, pos, ℤ};
ghost use Rattle.std.proofs.Common.{rules, arith};
ghost use Rattle.std.proofs.lemmas.Bool.Decides.{nat_tests};
ghost use Rattle.btree_range_map.specs.Range.{ClonesAreEqual};

use btree_range_map::AnyRange;
use btree_range_map::range::traits::{Bounded, Counted};
use std::ops::{Bound, RangeBounds};

/// An optional `-` and one or more decimal digits, of a number that an `i64` holds.
pub fn number(text: &str) -> Option<i64> {
    if text.as_bytes().first() == Some(&b'+') {
        return None;
    }
    text.parse::<i64>().ok()
}

/// A key that a line writes as a number.
pub trait NumberKey: Copy {
    ghost as_number: { Self → ℤ };

    /// The key of a number, `None` where the type has none.
    fn from_number(number: i64) -> Option<Self>;

    fn to_number(&self) -> i64
        ensures { result ≡ as_number self.now };
}

/// A key of the four maps. What reads and writes lines stands over [`NumberKey`], whose few members
/// prove cheaper.
pub trait MapKey: NumberKey + Counted + Bounded {
    ghost clones_are_equal: { ClonesAreEqual Self.is_clone Self.eq };
}

impl NumberKey for u8 {
    ghost as_number = { λ key. pos key };

    fn from_number(number: i64) -> Option<u8> {
        u8::try_from(number).ok()
    }

    fn to_number(&self) -> i64 {
        i64::from(*self)
    }
}

impl MapKey for u8 {
    ghost clones_are_equal = { λ x y e. Prim.grind (arith, nat_tests) };
}

impl NumberKey for i32 {
    ghost as_number = { λ key. key };

    fn from_number(number: i64) -> Option<i32> {
        i32::try_from(number).ok()
    }

    fn to_number(&self) -> i64 {
        i64::from(*self)
    }
}

impl MapKey for i32 {
    ghost clones_are_equal = { λ x y e. Prim.search rules };
}

/// The numbers of the first and of the last key of a range.
#[derive(Clone, Copy)]
pub struct Span {
    pub first: i64,
    pub last: i64,
}

/// The numbers of the first and of the last key between two bounds.
pub fn span_between<K: NumberKey + Bounded>(start: Bound<&K>, end: Bound<&K>) -> Span {
    let first = match start {
        Bound::Included(key) => key.to_number(),
        Bound::Excluded(key) => key.to_number().saturating_add(1),
        Bound::Unbounded => <K as Bounded>::min().to_number(),
    };
    let last = match end {
        Bound::Included(key) => key.to_number(),
        Bound::Excluded(key) => key.to_number().saturating_sub(1),
        Bound::Unbounded => <K as Bounded>::max().to_number(),
    };
    Span { first, last }
}

/// The numbers of the first and of the last key of a nonempty range.
pub fn span_of<K: NumberKey + Bounded>(range: &AnyRange<K>) -> Span {
    span_between(range.start_bound(), range.end_bound())
}
