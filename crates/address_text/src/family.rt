//! The two families of addresses, and the text of an address.

ghost use Rattle.std.specs.Prelude.{◌≡◌, ◌<◌, ◌^◌, ℕ, IfSome, MatchOption};
ghost use Rattle.std.specs.Net.Text.{ip_text};
ghost use Rattle.address_text.specs.Texts.{IsAddressText, address_text, width};

use std::net::{IpAddr, Ipv4Addr, Ipv6Addr};

/// A family of addresses.
#[derive(Clone, Copy, PartialEq, Eq, Debug)]
pub enum Family {
    /// IPv4: 32 bits.
    V4,
    /// IPv6: 128 bits.
    V6,
}

impl Family {
    /// How many bits an address has.
    pub fn width(self) -> u8
        ensures { result ≡ width self }
    {
        match self {
            Family::V4 => 32,
            Family::V6 => 128,
        }
    }

    /// The bits of the address that the text writes, or `None` where it writes none of the family.
    ///
    /// IPv4 is four decimal numbers with dots; IPv6 is as in RFC 4291, section 2.2.
    pub fn read(self, text: &str) -> Option<u128>
        ensures cases { MatchOption result ((n : ℕ) → ¬ IsAddressText self text.now n)
            (λ n. IsAddressText self text.now n) }
        ensures fits { IfSome result (λ n. n < 2 ^ width self) }
    {
        match self {
            Family::V4 => match text.parse::<Ipv4Addr>() {
                Ok(address) => Some(u128::from(address.to_bits())),
                Err(_) => None,
            },
            Family::V6 => match text.parse::<Ipv6Addr>() {
                Ok(address) => Some(address.to_bits()),
                Err(_) => None,
            },
        }
    }
    /// The address with these bits.
    #[tactic(auto, unfolding(std::specs::Net::Addr::IsIpv4OfBits, std::specs::Net::Addr::IsIpv6OfBits))]
    pub(crate) fn address(self, bits: u128) -> IpAddr
        requires { bits < 2 ^ width self }
        ensures { ip_text result ≡ address_text self bits }
    {
        match self {
            Family::V4 => IpAddr::V4(Ipv4Addr::from_bits(bits as u32)),
            Family::V6 => IpAddr::V6(Ipv6Addr::from_bits(bits)),
        }
    }
}
