//! The keys of ranges and the bounds over them.
//!
//! Where to find what:
//!
//! - what a key type is, its laws: `src/traits.rt`, `specs/Order.antt`
//! - the shipped keys: `src/{unsigned,signed,characters}.rt`, one family of laws in
//!   `specs/Counted.antt`
//! - custom key types from an index: `specs/Indexed.antt`; an example in
//!   `tour/specs/Ports.antt`, `tour/src/access/port.rt`
//! - keys without neighbours and ends: `specs/BareOrders.antt`; examples in
//!   `odd_keys/src/blind.rt`, `odd_keys/src/fraction/keys.rt`
//! - where a bound lies: `src/inner/position.rt`, `specs/Position.antt`
//! - facts on orderings, and on where bounds lie: `proofs/{Orderings,BoundPositions}.antt`
#![tactic(auto)]

pub mod bound;
mod characters;
pub mod inner;
mod signed;
pub mod traits;
mod unsigned;
