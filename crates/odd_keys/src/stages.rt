//! Callers of what the promises do not speak of: of each stage of the library one over all lawful
//! keys, and then at two of the key types of this crate.

mod counted;
mod json;
mod loose;
mod multimaps;
mod ranges;
mod sets;
