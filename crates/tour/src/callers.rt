//! Callers, at one type of keys and values, of calls that no other crate calls so. Their proofs show
//! that what the calls require can be met.

mod commands;
mod containers;
mod json;
mod maps;
mod multimaps;
mod ranges;
mod sets;
