//! Commands over tables of IP addresses: tables are read, put together, and printed.
//!
//! Where to find what:
//!
//! - what the files say, and why one is not read: `src/source.rt`, `specs/Files.antt`,
//!   `proofs/Files.antt`
//! - the table of what they say: `src/table.rt`, `specs/Results.antt`
//! - tables printed, also those of some addresses alone: `src/print.rt`, `specs/Results.antt`
//! - the addresses of some values: `src/select.rt`
//! - the values of some addresses, and the addresses of each value counted: `src/values.rt`,
//!   `specs/Values.antt`
//! - where two tables differ: `src/{differences,compare}.rt`, `specs/Differences.antt`
#![tactic(auto)]

pub mod compare;
pub mod differences;
pub mod print;
pub mod select;
pub mod source;
pub mod table;
pub mod values;

pub use compare::print_differences;
pub use differences::Extent;
pub use print::{Keeping, Outline, Output, print_part, print_tables};
pub use select::selected;
pub use source::{Source, Stop};
pub use table::Asked;
pub use values::{print_value_counts, print_values};
