//! Ranges and entries as they cross to C.
ghost use Rattle.std.specs.Prelude.{◌≡◌, ◌+◌};
ghost use Rattle.range_ffi.specs.Bindings.{binding_value};
ghost use Rattle.range_ffi.specs.Flags.{range_of, signed_range_of, flagged_bound, flagged_range, bound_flag, key_or, number_of};

use range_algebra::any::AnyRange;
use std::ops::Bound;

/// How many keys a `u64` tells apart.
pub(crate) const TWO_64: u128 = 18_446_744_073_709_551_616;

/// The flag of a range that does not hold its start.
pub const START_EXCLUDED: u32 = 1;

/// The flag of a range that has no start. Its key is not looked at.
pub const START_UNBOUNDED: u32 = 2;

/// The flag of a range that does not hold its end.
pub const END_EXCLUDED: u32 = 4;

/// The flag of a range that has no end. Its key is not looked at.
pub const END_UNBOUNDED: u32 = 8;

/// A range of `u64` keys. With no flag it holds both its start and its end.
///
/// An unbounded end is unbounded whether or not it is excluded; other bits are not looked at.
#[repr(C)]
#[derive(Clone, Copy)]
pub struct Bounds {
    pub start: u64,
    pub end: u64,
    pub flags: u32,
}

/// A range of `i64` keys, as `Bounds` is one of `u64` keys.
#[repr(C)]
#[derive(Clone, Copy)]
pub struct SignedBounds {
    pub start: i64,
    pub end: i64,
    pub flags: u32,
}

/// A range of `u64` keys with its value.
#[repr(C)]
#[derive(Clone, Copy)]
pub struct Entry {
    pub range: Bounds,
    pub value: u64,
}

/// A range of `i64` keys with its value.
#[repr(C)]
#[derive(Clone, Copy)]
pub struct SignedEntry {
    pub range: SignedBounds,
    pub value: u64,
}

/// What a key is bound to: the value, or none, and then the value is 0.
#[repr(C)]
#[derive(Clone, Copy)]
pub struct Binding {
    pub value: u64,
    pub is_bound: bool,
}

/// A part of a range of `u64` keys, with what each of its keys is bound to.
#[repr(C)]
#[derive(Clone, Copy)]
pub struct Piece {
    pub range: Bounds,
    pub binding: Binding,
}

/// A part of a range of `i64` keys, with what each of its keys is bound to.
#[repr(C)]
#[derive(Clone, Copy)]
pub struct SignedPiece {
    pub range: SignedBounds,
    pub binding: Binding,
}

/// A number of keys, `high` times 2^64 and `low`.
#[repr(C)]
#[derive(Clone, Copy)]
pub struct Length {
    pub high: u64,
    pub low: u64,
}

impl Bounds {
    /// The range that these say.
    pub fn range(&self) -> AnyRange<u64>
        ensures { result ≡ range_of self.now }
    {
        range_between(self.start, self.end, self.flags)
    }

    /// The bounds that say the range.
    pub fn of(range: &AnyRange<u64>) -> Bounds
        ensures { range_of result ≡ range.now }
    {
        let (start, end, flags) = parts_of(range, 0);
        Bounds { start, end, flags }
    }
}

impl SignedBounds {
    /// The range that these say.
    pub fn range(&self) -> AnyRange<i64>
        ensures { result ≡ signed_range_of self.now }
    {
        range_between(self.start, self.end, self.flags)
    }

    /// The bounds that say the range.
    pub fn of(range: &AnyRange<i64>) -> SignedBounds
        ensures { signed_range_of result ≡ range.now }
    {
        let (start, end, flags) = parts_of(range, 0);
        SignedBounds { start, end, flags }
    }
}

/// The range that two keys and flags say.
pub fn range_between<K: Copy + Drop>(start: K, end: K, flags: u32) -> AnyRange<K>
    ensures { result ≡ flagged_range start end flags }
{
    AnyRange::new(
        bound(start, flags, START_EXCLUDED, START_UNBOUNDED),
        bound(end, flags, END_EXCLUDED, END_UNBOUNDED),
    )
}

/// What the key bounds, by the flags of excluded and of unbounded.
fn bound<K: Copy + Drop>(key: K, flags: u32, excluded: u32, unbounded: u32) -> Bound<K>
    ensures { result ≡ flagged_bound flags excluded unbounded key }
{
    if flags & unbounded != 0 {
        Bound::Unbounded
    } else if flags & excluded != 0 {
        Bound::Excluded(key)
    } else {
        Bound::Included(key)
    }
}

/// The keys and flags that say the range. A bound that has no key gets the other one.
pub fn parts_of<K: Copy + Drop>(range: &AnyRange<K>, other: K) -> (K, K, u32)
    ensures { flagged_range result.0 result.1 result.2 ≡ range.now }
{
    let start_flag = flag_of(&range.start, START_EXCLUDED, START_UNBOUNDED);
    let end_flag = flag_of(&range.end, END_EXCLUDED, END_UNBOUNDED);
    (
        key_of(&range.start, other),
        key_of(&range.end, other),
        start_flag | end_flag,
    )
}

/// The key of a bound, or the other one.
fn key_of<K: Copy + Drop>(bound: &Bound<K>, other: K) -> K
    ensures { result ≡ key_or bound.now other }
{
    match bound {
        Bound::Included(key) | Bound::Excluded(key) => *key,
        Bound::Unbounded => other,
    }
}

/// The flag that says a bound. It is apart from the key, so that a processor need not guess it.
fn flag_of<K>(bound: &Bound<K>, excluded: u32, unbounded: u32) -> u32
    ensures { result ≡ bound_flag excluded unbounded bound.now }
{
    match bound {
        Bound::Included(_) => 0,
        Bound::Excluded(_) => excluded,
        Bound::Unbounded => unbounded,
    }
}

impl Binding {
    /// The binding to the value, or to none.
    pub fn of(value: Option<u64>) -> Binding
        ensures { binding_value result ≡ value }
    {
        match value {
            Some(value) => Binding {
                value,
                is_bound: true,
            },
            None => Binding {
                value: 0,
                is_bound: false,
            },
        }
    }
}

impl Length {
    /// The number, of which 2^128 is more than any.
    pub fn of(number: u128) -> Length
        ensures { number_of result ≡ number }
    {
        Length {
            high: (number / TWO_64) as u64,
            low: (number % TWO_64) as u64,
        }
    }
}
