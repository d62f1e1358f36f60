//! Prefixes: aligned blocks of addresses.

ghost use Rattle.std.specs.Prelude.{◌≡◌, ◌+◌, ◌-◌, ◌≤◌, ◌<◌, ◌^◌, MatchOption, ◌↔◌};
ghost use Rattle.btree_range_map.specs.Names.{range_inclusive};
ghost use Rattle.address_prefixes.specs.Prefixes.{HasAddress, IsPrefix};
ghost use Rattle.address_prefixes.specs.Tiles.{widest};

use address_keys::Address;
use btree_range_map::{AnyRange, AsRange, IntoRange};
use std::ops::Bound;

/// The addresses that begin with the first `length` bits of `network`, whose other bits are 0.
#[derive(Clone, Copy, PartialEq, Eq, Debug)]
pub struct Prefix<A> {
    /// The first address.
    pub network: A,
    /// The last address.
    pub last: A,
    /// How many bits are the same in all its addresses.
    pub length: u8,
}

/// All numbers of so many bits are at most this one.
pub fn greatest_of(bits: u8) -> u128
    requires { bits ≤ 128 }
    ensures { result + 1 ≡ 2 ^ bits }
{
    match 1u128.checked_shl(bits as u32) {
        Some(size) => size - 1,
        None => u128::MAX,
    }
}

/// How many bits can be free in a block that starts at the first number and ends at or before the
/// last.
pub(crate) fn free_bits(first: u128, last: u128, width: u8) -> u8
    requires { first ≤ last }
    ensures { result ≡ widest width first (last + 1) }
{
    let room = last - first;
    let mut block = first;
    let mut spare = 0;
    let mut free = 0;
    while free < width && block % 2 == 0 && spare < room - spare {
        block /= 2;
        spare = 2 * spare + 1;
        free += 1;
    }
    free
}

impl<A: Address> Prefix<A> {
    /// The prefix of so many bits that has the address, or `None` where an address has fewer bits.
    ///
    /// Allocates nothing.
    pub fn containing(address: A, length: u8) -> Option<Prefix<A>>
        ensures { MatchOption result (A.WIDTH < length)
            (λ prefix. (prefix.length ≡ length) × IsPrefix A.number A.WIDTH prefix
            × HasAddress A.number address prefix) }
    {
        if length > A::WIDTH {
            return None;
        }
        address.known();
        let rest = greatest_of(A::WIDTH - length);
        let number = address.number();
        let first = number - (number & rest);
        Some(Prefix {
            network: A::at(first),
            last: A::at(first + rest),
            length,
        })
    }
}

impl<A: Address> AsRange for Prefix<A> {
    type Item = A;

    ghost range = { λ prefix. range_inclusive prefix.network prefix.last };

    fn start(&self) -> Bound<&A> {
        Bound::Included(&self.network)
    }

    fn end(&self) -> Bound<&A> {
        Bound::Included(&self.last)
    }
}

impl<A: Address> IntoRange for Prefix<A> {
    fn into_range(self) -> AnyRange<A> {
        AnyRange::new(Bound::Included(self.network), Bound::Included(self.last))
    }
}
