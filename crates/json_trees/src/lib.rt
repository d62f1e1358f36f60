//! JSON values that are looked into, wherever they stand: a `serde_json::Value`, or a value whose
//! texts are borrowed from the text that it was read from.
//!
//! Where to find what:
//!
//! - the look-ups, and those of `serde_json`'s values: `src/tree.rt`, `specs/LookUps.antt`
//! - those of borrowed values: `src/borrowed.rt`, `specs/Borrowed.antt`, `proofs/Seen.antt`
//! - a borrowed value from a text: `src/text.rt`, `proofs/Texts.antt`
//! - the numbers of a text: `src/number.rt`
#![tactic(auto)]

mod borrowed;
mod number;
mod text;
mod tree;

pub use json::Scratch;
pub use text::{TextError, parse};
pub use tree::JsonTree;
