//! Ranges and entries of keys of 128 bits as they cross to C.
ghost use Rattle.std.specs.Prelude.{◌≡◌};
ghost use Rattle.range_algebra.specs.declared.any.AnyRange.{AnyRange};
ghost use Rattle.range_store.specs.declared.storage.Item.{Item};
ghost use Rattle.range_ffi.specs.Wide.{wide_bounds_item, wide_entry_item, wide_key, wide_piece_item, wide_range_of};

use crate::bounds::{Binding, TWO_64, parts_of, range_between};
use crate::items::{Shown, Told};
use address_keys::Ipv6;
use range_algebra::any::AnyRange;
use range_store::storage::Item;

/// A key of 128 bits, `high` times 2^64 and `low`: an IPv6 address, a UUID.
///
/// The low word is first, as it is in a number of 128 bits where numbers of 64 bits are so too.
#[repr(C)]
#[derive(Clone, Copy)]
pub struct WideKey {
    pub low: u64,
    pub high: u64,
}

/// A range of such keys, as `Bounds` is one of `u64` keys.
#[repr(C)]
#[derive(Clone, Copy)]
pub struct WideBounds {
    pub start: WideKey,
    pub end: WideKey,
    pub flags: u32,
}

/// A range of such keys with its value.
#[repr(C)]
#[derive(Clone, Copy)]
pub struct WideEntry {
    pub range: WideBounds,
    pub value: u64,
}

/// A part of a range of such keys, with what each of its keys is bound to.
#[repr(C)]
#[derive(Clone, Copy)]
pub struct WidePiece {
    pub range: WideBounds,
    pub binding: Binding,
}

impl WideKey {
    /// The key that these words say.
    pub fn key(&self) -> Ipv6
        ensures { result ≡ wide_key self.now }
    {
        Ipv6(self.high as u128 * TWO_64 + self.low as u128)
    }

    /// The words that say the key.
    pub fn of(key: Ipv6) -> WideKey
        ensures { wide_key result ≡ key }
    {
        WideKey {
            low: (key.0 % TWO_64) as u64,
            high: (key.0 / TWO_64) as u64,
        }
    }
}

impl WideBounds {
    /// The range that these say.
    pub fn range(&self) -> AnyRange<Ipv6>
        ensures { result ≡ wide_range_of self.now }
    {
        range_between(self.start.key(), self.end.key(), self.flags)
    }

    /// The bounds that say the range.
    pub fn of(range: &AnyRange<Ipv6>) -> WideBounds
        ensures { wide_range_of result ≡ range.now }
    {
        let (start, end, flags) = parts_of(range, Ipv6(0));
        WideBounds {
            start: WideKey::of(start),
            end: WideKey::of(end),
            flags,
        }
    }
}

impl Shown<Ipv6, u64> for WideEntry {
    ghost said = { wide_entry_item };

    fn of_item(range: &AnyRange<Ipv6>, value: &u64) -> WideEntry {
        WideEntry {
            range: WideBounds::of(range),
            value: *value,
        }
    }
}

impl Shown<Ipv6, ()> for WideBounds {
    ghost said = { wide_bounds_item };

    fn of_item(range: &AnyRange<Ipv6>, _value: &()) -> WideBounds {
        WideBounds::of(range)
    }
}

impl Shown<Ipv6, Option<u64>> for WidePiece {
    ghost said = { wide_piece_item };

    fn of_item(range: &AnyRange<Ipv6>, value: &Option<u64>) -> WidePiece {
        WidePiece {
            range: WideBounds::of(range),
            binding: Binding::of(*value),
        }
    }
}

impl Told<Ipv6, u64> for WideEntry {
    ghost told = { wide_entry_item };

    fn item(&self) -> Item<AnyRange<Ipv6>, u64> {
        Item {
            key: self.range.range(),
            value: self.value,
        }
    }
}

impl Told<Ipv6, ()> for WideBounds {
    ghost told = { wide_bounds_item };

    fn item(&self) -> Item<AnyRange<Ipv6>, ()> {
        Item {
            key: self.range(),
            value: (),
        }
    }
}
