//! IP addresses as keys of `btree_range_map`.
//!
//! Where to find what:
//!
//! - what a family of addresses is: `src/address.rt`, `specs/Families.antt`
//! - the two families: `src/{ipv4,ipv6}.rt`, `specs/Addresses.antt`; those of IPv6 are too many to
//!   be counted
//! - addresses as JSON: `src/json.rt`, `specs/Json.antt`
#![tactic(auto)]

pub mod address;
pub mod ipv4;
pub mod ipv6;
mod json;

pub use address::Address;
pub use ipv4::Ipv4;
pub use ipv6::Ipv6;
