//! The nodes of a B-tree by their numbers: their items, their children, and how both move.
//!
//! Where to find what:
//!
//! - the children of all nodes, in a list for each number that has some: `src/children.rt`,
//!   `specs/Children.antt`, `proofs/Lists.antt`
//! - some rows of items in one block: `src/segment.rt`, `specs/Segments.antt`,
//!   `proofs/{RowCells,Segments}.antt`
//! - the items of all nodes, in a row for each number: `src/rows.rt`, `specs/Rows.antt`,
//!   `proofs/{RowItems,RowMoves,Halves}.antt`
//! - the nodes by their numbers, with spares that an insertion takes, and how items move between
//!   nodes: `src/nodes.rt`, `specs/{Heap,Spares}.antt`, `proofs/{Heaps,Siblings,Spares}.antt`
#![tactic(auto)]

pub mod children;
pub mod nodes;
pub mod rows;
pub mod segment;
