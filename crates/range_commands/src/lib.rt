//! Lists of commands to a map, on the map's public contract alone.
//!
//! Where to find what:
//!
//! - lists of commands, on the map's public contract alone: `src/command.rt`
//! - how many steps a list of commands takes: `specs/CountedRuns.antt`, `proofs/CountedRuns.antt`
//! - the last unrefused command on a key says what it is bound to: for those who have a run of
//!   commands: `specs/LastCommands.antt`
#![tactic(auto)]

pub mod command;
