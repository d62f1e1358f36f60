//! Ipv4 addresses as keys.

ghost use Rattle.std.specs.Prelude.{◌≡◌, ◌-◌, refl};
ghost use Rattle.std.specs.Net.Addr.{IsIpv4OfBits, ipv4_bits};
ghost use Rattle.std.specs.declared.ops.Bound.TheVariants.{Included};
ghost use Rattle.btree_range_map.specs.Counted.{counted_complete, counted_lawful, counted_measure, measure_counts_keys};
ghost use Rattle.address_keys.specs.Addresses.{ipv4_at, ipv4_counted, ipv4_family, ipv4_number, ipv4_order};
ghost use Rattle.std.proofs.Common.{lit<};

use crate::address::Address;
use btree_range_map::range::traits::{
    Bounded, Complete, Counted, MaybeBounded, Measure, PartialEnum,
};
use btree_range_map::{AnyRange, AsRange, IntoRange};
use std::net::Ipv4Addr;
use std::ops::Bound;

/// An Ipv4 address, by its bits.
#[derive(Clone, Copy, PartialEq, Eq, PartialOrd, Ord, Hash, Debug)]
pub struct Ipv4(pub u32);

impl MaybeBounded for Ipv4 {
    ghost order = { ipv4_order };

    fn min() -> Option<Ipv4> {
        Some(Ipv4(0))
    }

    fn max() -> Option<Ipv4> {
        Some(Ipv4(u32::MAX))
    }

    fn known(&self) {
        let _bits = self.0;
    }

    ghost order_is_cmp = { λ a b. refl };
}

impl PartialEnum for Ipv4 {
    fn succ(&self) -> Option<Ipv4> {
        self.0.checked_add(1).map(Ipv4)
    }

    fn pred(&self) -> Option<Ipv4> {
        self.0.checked_sub(1).map(Ipv4)
    }

    ghost lawful = { counted_lawful ipv4_counted };
}

impl Bounded for Ipv4 {
    ghost smallest = { record { 0 = 0 } };

    ghost largest = { record { 0 = 4294967295 } };

    fn min() -> Ipv4 {
        Ipv4(0)
    }

    fn max() -> Ipv4 {
        Ipv4(u32::MAX)
    }

    ghost known_least = { refl };

    ghost known_greatest = { refl };
}

impl Measure for Ipv4 {
    ghost len = { λ _. 1 };

    ghost distance = { λ a b. b.0 - a.0 };

    fn len(&self) -> u128 {
        1
    }

    fn distance(&self, other: &Ipv4) -> u128 {
        (other.0 - self.0) as u128
    }

    ghost measured = { counted_measure ipv4_counted (lit< tt) };
}

impl Counted for Ipv4 {
    ghost counts_keys = { measure_counts_keys ipv4_counted (lit< tt) };
}

impl Complete for Ipv4 {
    ghost complete = { counted_complete ipv4_counted };
}

impl AsRange for Ipv4 {
    type Item = Ipv4;

    ghost range = { λ address. record { start = Included address; end = Included address } };

    fn start(&self) -> Bound<&Ipv4> {
        Bound::Included(self)
    }

    fn end(&self) -> Bound<&Ipv4> {
        Bound::Included(self)
    }
}

impl IntoRange for Ipv4 {
    fn into_range(self) -> AnyRange<Ipv4> {
        AnyRange::new(Bound::Included(self), Bound::Included(self))
    }
}

impl Address for Ipv4 {
    ghost WIDTH = { 32 };

    const WIDTH: u8 = 32;

    ghost number = { ipv4_number };

    ghost at = { ipv4_at };

    fn number(self) -> u128 {
        self.0 as u128
    }

    fn at(bits: u128) -> Ipv4 {
        Ipv4(bits as u32)
    }

    ghost family = { ipv4_family };
}

impl From<Ipv4Addr> for Ipv4 {
    ghost from_gives = { λ address key. key.0 ≡ ipv4_bits address };

    fn from(address: Ipv4Addr) -> Ipv4 {
        Ipv4(address.to_bits())
    }
}

impl From<Ipv4> for Ipv4Addr {
    ghost from_gives = { λ key address. IsIpv4OfBits address key.0 };

    fn from(address: Ipv4) -> Ipv4Addr {
        Ipv4Addr::from_bits(address.0)
    }
}
