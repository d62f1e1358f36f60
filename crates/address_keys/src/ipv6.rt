//! Ipv6 addresses as keys.

ghost use Rattle.std.specs.Prelude.{◌≡◌, refl};
ghost use Rattle.std.specs.Net.Addr.{IsIpv6OfBits, ipv6_bits};
ghost use Rattle.std.specs.declared.ops.Bound.TheVariants.{Included};
ghost use Rattle.btree_range_map.specs.Counted.{counted_complete, counted_lawful};
ghost use Rattle.address_keys.specs.Addresses.{ipv6_at, ipv6_counted, ipv6_family, ipv6_number, ipv6_order};
ghost use Rattle.btree_range_map.specs.KeyLaws.{zero_measure};

use crate::address::Address;
use btree_range_map::range::traits::{Bounded, Complete, MaybeBounded, Measure, PartialEnum};
use btree_range_map::{AnyRange, AsRange, IntoRange};
use std::net::Ipv6Addr;
use std::ops::Bound;

/// An Ipv6 address, by its bits.
#[derive(Clone, Copy, PartialEq, Eq, PartialOrd, Ord, Hash, Debug)]
pub struct Ipv6(pub u128);

impl MaybeBounded for Ipv6 {
    ghost order = { ipv6_order };

    fn min() -> Option<Ipv6> {
        Some(Ipv6(0))
    }

    fn max() -> Option<Ipv6> {
        Some(Ipv6(u128::MAX))
    }

    fn known(&self) {
        let _bits = self.0;
    }

    ghost order_is_cmp = { λ a b. refl };
}

impl PartialEnum for Ipv6 {
    fn succ(&self) -> Option<Ipv6> {
        self.0.checked_add(1).map(Ipv6)
    }

    fn pred(&self) -> Option<Ipv6> {
        self.0.checked_sub(1).map(Ipv6)
    }

    ghost lawful = { counted_lawful ipv6_counted };
}

impl Bounded for Ipv6 {
    ghost smallest = { record { 0 = 0 } };

    ghost largest = { record { 0 = 340282366920938463463374607431768211455 } };

    fn min() -> Ipv6 {
        Ipv6(0)
    }

    fn max() -> Ipv6 {
        Ipv6(u128::MAX)
    }

    ghost known_least = { refl };

    ghost known_greatest = { refl };
}

/// All addresses together are 2^128, one more than a `u128` can say: none is counted.
impl Measure for Ipv6 {
    ghost len = { λ _. 0 };

    ghost distance = { λ _ _. 0 };

    fn len(&self) -> u128 {
        0
    }

    fn distance(&self, _other: &Ipv6) -> u128 {
        0
    }

    ghost measured = { zero_measure ipv6_order };
}

impl Complete for Ipv6 {
    ghost complete = { counted_complete ipv6_counted };
}

impl AsRange for Ipv6 {
    type Item = Ipv6;

    ghost range = { λ address. record { start = Included address; end = Included address } };

    fn start(&self) -> Bound<&Ipv6> {
        Bound::Included(self)
    }

    fn end(&self) -> Bound<&Ipv6> {
        Bound::Included(self)
    }
}

impl IntoRange for Ipv6 {
    fn into_range(self) -> AnyRange<Ipv6> {
        AnyRange::new(Bound::Included(self), Bound::Included(self))
    }
}

impl Address for Ipv6 {
    ghost WIDTH = { 128 };

    const WIDTH: u8 = 128;

    ghost number = { ipv6_number };

    ghost at = { ipv6_at };

    fn number(self) -> u128 {
        self.0
    }

    fn at(bits: u128) -> Ipv6 {
        Ipv6(bits)
    }

    ghost family = { ipv6_family };
}

impl From<Ipv6Addr> for Ipv6 {
    ghost from_gives = { λ address key. key.0 ≡ ipv6_bits address };

    fn from(address: Ipv6Addr) -> Ipv6 {
        Ipv6(address.to_bits())
    }
}

impl From<Ipv6> for Ipv6Addr {
    ghost from_gives = { λ key address. IsIpv6OfBits address key.0 };

    fn from(address: Ipv6) -> Ipv6Addr {
        Ipv6Addr::from_bits(address.0)
    }
}
