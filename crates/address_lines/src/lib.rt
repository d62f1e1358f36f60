//! Lines of any text, and the addresses of a list in them.
//!
//! Where to find what:
//!
//! - whether a line holds an address of a list, and which part of a line counts as an address:
//!   `src/words.rt`, `specs/Words.antt`, `proofs/Pieces.antt`
//! - the lines that hold one, and how they are written: `src/grep.rt`, `specs/Found.antt`,
//!   `proofs/Found.antt`
//! - lines that are addresses, looked up: `src/sought.rt`, `specs/Sought.antt`,
//!   `proofs/Told.antt`; read: `src/read.rt`, `proofs/ReadLines.antt`
#![tactic(auto)]

pub mod grep;
pub mod read;
pub mod sought;
pub mod words;

pub use grep::{Search, Showing, write_found_lines};
pub use read::read_line_addresses;
pub use sought::{Halt, write_told_lines};
pub use words::holds_address;
