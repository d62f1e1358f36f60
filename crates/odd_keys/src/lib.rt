//! Keys, values, sets of values and a container that are lawful and unlike those of std and of the
//! library.
//!
//! Where to find what:
//!
//! - keys of which several are equal: by their indices `specs/Classes.antt`, `src/half.rt`; by
//!   cross products `specs/Fractions.antt`
//! - keys that cannot be cloned: `src/single.rt`, `specs/Singles.antt`
//! - a container over a ring buffer, as a user writes one: `src/ring.rt`, `specs/Rings.antt`
//! - the two promises of a map, over every lawful and every complete key, and at each key type:
//!   `src/promises/{bindings,lists}.rt`, `specs/Promises.antt`
//! - callers of sets, multimaps, products, counted calls and JSON, each at two key types:
//!   `src/stages`
#![tactic(auto)]

pub mod blind;
pub mod fraction;
pub mod half;
pub mod loose;
pub mod only;
pub mod promises;
pub mod rights;
pub mod ring;
pub mod single;
mod stages;
