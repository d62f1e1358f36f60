//! Cells for items in one block of memory, each empty or with an item, and none with a tag.
//!
//! Where to find what:
//!
//! - a block of cells as its callers see it, a list of what each has: `src/block.rt`,
//!   `specs/{Blocks,Cells}.antt`
//! - the memory of a block and the right to free it, with all that goes through a pointer:
//!   `src/memory.rt`, `specs/{Lends,Permits}.antt`, `proofs/{Opens,Walks}.antt`
#![tactic(auto)]

mod block;
mod memory;

pub use block::Block;
pub use memory::CELLS;
// A crate can name a block in a contract only if the types of its fields are exported.
#[doc(hidden)]
pub use memory::{Memory, Permit};
