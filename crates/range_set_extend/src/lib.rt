//! Adding the keys of many ranges to a set, on the contract of the map alone.
//!
//! Where to find what:
//!
//! - which keys a set holds, before and after a call: `specs/KeySets.antt`, read off what a map
//!   binds in `proofs/Membership.antt`
//! - how far an extension came: `specs/Extending.antt`
#![tactic(auto)]

pub mod extend;
