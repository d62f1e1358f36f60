//! Lines of tables of addresses with values: read, and as they are printed.
//!
//! Where to find what:
//!
//! - the values, by numbers: `src/texts.rt`, `specs/Rows.antt`
//! - what a line says in each layout, and where it is wrong: `src/line.rt`, `specs/Lines.antt`
//! - values in each form that is printed: `src/forms.rt`, `specs/Forms.antt`; a line of addresses
//!   with a value: `src/write.rt`, `specs/Blocks.antt`
#![tactic(auto)]

pub mod forms;
pub mod line;
pub mod texts;
pub mod write;

pub use forms::{Form, values_in};
pub use line::{Layout, RowFault};
pub use texts::Texts;
pub use write::{Block, write_line};
