//! Texts of IP addresses: the lines of an address list, and addresses as they are printed.
//!
//! An address is its [`Family`] and its bits as a number, so that both families are read and
//! written by the same functions. Nothing here allocates.
//!
//! Where to find what:
//!
//! - what a line of a list says: `src/line.rt`, `specs/Lines.antt`; what is wrong with one that
//!   says nothing: `src/fault.rt`, `specs/Faults.antt`; what stands there: `src/excerpt.rt`; starts
//!   of lines that tell all that counts: `src/start.rt`, `specs/Starts.antt`
//! - a line and a column of a text: `src/place.rt`, `specs/Places.antt`
//! - an address, prefix or range as it is printed: `src/write.rt`, `specs/Texts.antt`
#![tactic(auto)]

pub mod excerpt;
pub mod family;
pub mod fault;
pub mod line;
pub mod place;
pub mod start;
pub mod write;

pub use excerpt::{Excerpt, excerpt_at};
pub use family::Family;
pub use fault::{Expected, Fault};
pub use line::{Line, content_of, line_of};
pub use place::place_in;
pub use start::{START_BYTES, commented_start, is_bad_start};
