//! What crosses to C and from there for a range with its value.
ghost use Rattle.std.specs.Prelude.{◌≡◌};
ghost use Rattle.range_algebra.specs.declared.any.AnyRange.{AnyRange};
ghost use Rattle.range_store.specs.declared.storage.Item.{Item};
ghost use Rattle.range_ffi.specs.Bindings.{piece_item, signed_piece_item};
ghost use Rattle.range_ffi.specs.Flags.{bounds_item, entry_item, signed_bounds_item, signed_entry_item};

use crate::bounds::{Binding, Bounds, Entry, Piece, SignedBounds, SignedEntry, SignedPiece};
use range_algebra::any::AnyRange;
use range_store::storage::Item;

/// What a stored range crosses to C as, with its value.
pub trait Shown<K, V>: Copy + Drop {
    // The item that it says.
    ghost said: { Self → Item (AnyRange K) V };

    /// What says the item.
    fn of_item(range: &AnyRange<K>, value: &V) -> Self
        ensures { said result ≡ record { key = range.now; value = value.now } };
}

impl Shown<u64, u64> for Entry {
    ghost said = { entry_item };

    fn of_item(range: &AnyRange<u64>, value: &u64) -> Entry {
        Entry {
            range: Bounds::of(range),
            value: *value,
        }
    }
}

impl Shown<i64, u64> for SignedEntry {
    ghost said = { signed_entry_item };

    fn of_item(range: &AnyRange<i64>, value: &u64) -> SignedEntry {
        SignedEntry {
            range: SignedBounds::of(range),
            value: *value,
        }
    }
}

impl Shown<u64, ()> for Bounds {
    ghost said = { bounds_item };

    fn of_item(range: &AnyRange<u64>, _value: &()) -> Bounds {
        Bounds::of(range)
    }
}

impl Shown<i64, ()> for SignedBounds {
    ghost said = { signed_bounds_item };

    fn of_item(range: &AnyRange<i64>, _value: &()) -> SignedBounds {
        SignedBounds::of(range)
    }
}

impl Shown<u64, Option<u64>> for Piece {
    ghost said = { piece_item };

    fn of_item(range: &AnyRange<u64>, value: &Option<u64>) -> Piece {
        Piece {
            range: Bounds::of(range),
            binding: Binding::of(*value),
        }
    }
}

impl Shown<i64, Option<u64>> for SignedPiece {
    ghost said = { signed_piece_item };

    fn of_item(range: &AnyRange<i64>, value: &Option<u64>) -> SignedPiece {
        SignedPiece {
            range: SignedBounds::of(range),
            binding: Binding::of(*value),
        }
    }
}

/// What a range crosses from C as, with its value.
pub trait Told<K, V> {
    // The item that it says.
    ghost told: { Self → Item (AnyRange K) V };

    fn item(&self) -> Item<AnyRange<K>, V>
        ensures { result ≡ told self.now };
}

impl Told<u64, u64> for Entry {
    ghost told = { entry_item };

    fn item(&self) -> Item<AnyRange<u64>, u64> {
        Item {
            key: self.range.range(),
            value: self.value,
        }
    }
}

impl Told<i64, u64> for SignedEntry {
    ghost told = { signed_entry_item };

    fn item(&self) -> Item<AnyRange<i64>, u64> {
        Item {
            key: self.range.range(),
            value: self.value,
        }
    }
}

impl Told<u64, ()> for Bounds {
    ghost told = { bounds_item };

    fn item(&self) -> Item<AnyRange<u64>, ()> {
        Item {
            key: self.range(),
            value: (),
        }
    }
}

impl Told<i64, ()> for SignedBounds {
    ghost told = { signed_bounds_item };

    fn item(&self) -> Item<AnyRange<i64>, ()> {
        Item {
            key: self.range(),
            value: (),
        }
    }
}
