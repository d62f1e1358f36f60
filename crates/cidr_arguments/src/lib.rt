//! The command line of `cidr`.
//!
//! Where to find what:
//!
//! - the commands and what they take: `src/usage.rt`, over tables `src/table_usage.rt`; what they
//!   ask for: `src/request.rt`, of tables `src/table.rt`
#![tactic(auto)]

mod request;
mod table;
mod table_usage;
mod usage;

pub use crate::request::{
    Command, Form, Lines, Output, Request, Sought, Task, Wanted, read_request,
};
pub use crate::table::{TableRequest, TableShape, TableTask};
