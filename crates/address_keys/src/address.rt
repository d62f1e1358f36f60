//! What an address family is.

ghost use Rattle.std.specs.Prelude.{◌≡◌, ℕ, ◌<◌, ◌^◌};
ghost use Rattle.address_keys.specs.Families.{IsFamily};

use btree_range_map::range::traits::{Bounded, Complete, Measure};

/// A family of addresses: all numbers of [`WIDTH`](Address::WIDTH) bits.
pub trait Address: Measure + Bounded + Complete + Copy {
    ghost WIDTH: { ℕ };

    /// How many bits an address has.
    const WIDTH: u8;

    ghost number: { Self → ℕ };

    ghost at: { ℕ → Self };

    /// The bits of the address, as a number.
    fn number(self) -> u128
        ensures { result ≡ number self };

    /// The address with these bits.
    fn at(bits: u128) -> Self
        requires { bits < 2 ^ WIDTH }
        ensures { result ≡ at bits };

    ghost family: { IsFamily Self.order number at WIDTH };
}
