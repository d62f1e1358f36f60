//! Addresses as JSON: strings of their texts.

ghost use Rattle.std.specs.Prelude.{◌≡◌, ⊤, false, IsTrue, MatchOption};
ghost use Rattle.address_keys.specs.Json.{IsIpv4Read, IsIpv4Value, IsIpv6Read, IsIpv6Value, ipv4_shape, ipv6_shape, reads_ipv4, reads_ipv6};

use crate::ipv4::Ipv4;
use crate::ipv6::Ipv6;
use btree_range_map::json::{Json, JsonTree, ReadError};
use serde_json::Value;
use std::alloc::{AllocError, Global};
use std::net::{Ipv4Addr, Ipv6Addr};

fn ipv4_in<J: JsonTree>(value: &J) -> Option<Ipv4>
    ensures { MatchOption result (reads_ipv4 (J.content value.now) ≡ false)
        (λ address. IsIpv4Read (J.content value.now) address
        × IsTrue (reads_ipv4 (J.content value.now))) }
{
    let text = value.as_str()?;
    match text.parse::<Ipv4Addr>() {
        Ok(address) => Some(Ipv4(address.to_bits())),
        Err(_) => None,
    }
}

fn ipv6_in<J: JsonTree>(value: &J) -> Option<Ipv6>
    ensures { MatchOption result (reads_ipv6 (J.content value.now) ≡ false)
        (λ address. IsIpv6Read (J.content value.now) address
        × IsTrue (reads_ipv6 (J.content value.now))) }
{
    let text = value.as_str()?;
    match text.parse::<Ipv6Addr>() {
        Ok(address) => Some(Ipv6(address.to_bits())),
        Err(_) => None,
    }
}

impl Json for Ipv4 {
    ghost shape = { ipv4_shape };

    ghost reads = { reads_ipv4 };

    ghost is_value = { IsIpv4Value };

    ghost is_read = { IsIpv4Read };

    ghost reads_in_place = { ⊤ };

    #[tactic(auto, unfolding(std::specs::Net::Addr::IsIpv4OfBits))]
    fn to_json(&self, alloc: Global) -> Result<Value, AllocError> {
        let address = Ipv4Addr::from_bits(self.0);
        Ok(Value::from(format!(in alloc; "{address}")?))
    }

    fn from_json<J: JsonTree>(_alloc: Global, value: &J) -> Result<Ipv4, ReadError> {
        match ipv4_in(value) {
            Some(address) => Ok(address),
            None => Err(ReadError::Refused),
        }
    }

    fn name() -> &'static str {
        "an IPv4 address"
    }
}

impl Json for Ipv6 {
    ghost shape = { ipv6_shape };

    ghost reads = { reads_ipv6 };

    ghost is_value = { IsIpv6Value };

    ghost is_read = { IsIpv6Read };

    ghost reads_in_place = { ⊤ };

    #[tactic(auto, unfolding(std::specs::Net::Addr::IsIpv6OfBits))]
    fn to_json(&self, alloc: Global) -> Result<Value, AllocError> {
        let address = Ipv6Addr::from_bits(self.0);
        Ok(Value::from(format!(in alloc; "{address}")?))
    }

    fn from_json<J: JsonTree>(_alloc: Global, value: &J) -> Result<Ipv6, ReadError> {
        match ipv6_in(value) {
            Some(address) => Ok(address),
            None => Err(ReadError::Refused),
        }
    }

    fn name() -> &'static str {
        "an IPv6 address"
    }
}
