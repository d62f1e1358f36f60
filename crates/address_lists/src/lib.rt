//! Lists of IP addresses: read from text, put together, and printed.
//!
//! Where to find what:
//!
//! - the addresses of a list, of both families, and what two lists have together:
//!   `src/addresses.rt`, `specs/Lists.antt`; those of one family: `src/sets.rt`
//! - reading a list, and where it is wrong: `src/read.rt`, `specs/Reading.antt`; what is read and
//!   not added yet: `src/{spans,waiting}.rt`, `specs/Waiting.antt`
//! - a list as JSON: `src/json.rt`, `specs/Json.antt`; a list of either form: `src/file.rt`,
//!   `specs/Files.antt`
//! - the prefixes of a list as they are printed: `src/print.rt`, `specs/Printed.antt`; split into
//!   longer ones: `src/split.rt`, `specs/Split.antt`
//! - its ranges, and its addresses one by one: `src/ranges.rt`, `specs/Ranges.antt`
//! - how many addresses it has: `src/count.rt`, `specs/Counted.antt`; where it has an address:
//!   `src/lookup.rt`, `specs/Lookups.antt`
#![tactic(auto)]

pub mod addresses;
pub mod count;
pub mod file;
pub mod json;
pub mod lookup;
pub mod print;
pub mod ranges;
pub mod read;
mod sets;
pub mod spans;
pub mod split;
pub mod waiting;

pub use addresses::{Addresses, empty_set};
pub use count::write_counts;
pub use file::{gather_addresses, read_addresses};
pub use json::{JsonFault, list_from_json, list_to_json, list_to_text, read_json};
pub use lookup::{has, write_lookups, write_told};
pub use print::{write_prefixes, write_prefixes_around};
pub use ranges::{write_ranges, write_singles};
pub use read::{BadLines, ListError, read_list};
pub use spans::Waiting;
pub use split::{write_family_prefixes, write_split_prefixes};
