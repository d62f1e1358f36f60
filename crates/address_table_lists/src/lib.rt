//! Tables of IP addresses: addresses with values, read from text, put together, and printed.
//!
//! Where to find what:
//!
//! - what one line says, and a line as it is printed: the crate `address_rows`
//! - what the lines of tables say: `src/rows.rt`, `specs/Rows.antt`; reading a table, and where it
//!   is wrong: `src/read.rt`, `specs/Reading.antt`
//! - the values that addresses have, by the last line or by the longest prefix: `src/table.rt`,
//!   `specs/Tables.antt`; a table and a list of addresses together: `src/parts.rt`,
//!   `specs/Parts.antt`
//! - a table as ranges and as prefixes, as it is printed: `src/print.rt`,
//!   `specs/{Blocks,Framed,Printed}.antt`
//! - the values of addresses: `src/lookup.rt`, `specs/Lookups.antt`
//! - the addresses of each value: `src/count.rt`, `specs/Counts.antt`
#![tactic(auto)]

pub mod count;
pub mod lookup;
pub mod parts;
pub mod print;
pub mod read;
pub mod rows;
pub mod table;

pub use address_rows::{Form, Layout, RowFault, Texts, values_in};
pub use count::write_value_counts;
pub use lookup::write_values;
pub use print::{Defaults, PrintError, Shape, print_table};
pub use read::{TableError, read_rows};
pub use rows::{Binding, Rows};
pub use table::{Precedence, Table, table_of};
