//! What a range meets among the ranges that a container stores, and what a closure returns for the
//! parts of it. Changes nothing.
//!
//! Where to find what:
//!
//! - which lists are stored, and which values a list binds: `specs/{Stored,Bindings,Lookups}.antt`
//! - a map's search window, and its probe: `src/{window,probe}.rt`, `specs/Window.antt`,
//!   `proofs/{Found,Windows,WindowItems,Overlaps}.antt`
//! - runs of stored items, from both ends: `src/runs.rt`, `specs/Runs.antt`,
//!   `proofs/RunItems.antt`
//! - the parts of a range that stored items bind, and the free ones, from both ends:
//!   `src/pieces.rt`, `specs/{Pieces,PieceLists}.antt`,
//!   `proofs/{RangePieces,PieceLists,PieceSteps}.antt`
//! - what a closure returns for each of them, as one list: `src/answers.rt`,
//!   `specs/{Answers,Put}.antt`, `proofs/{AnswerLists,PieceAnswers}.antt`
//! - chains of intervals with values on a line of positions, and two sewn together at one:
//!   `specs/Chains.antt`, `proofs/{Chains,ChainSides,Sewn}.antt`
//! - what a change leaves as it was, and puts in the place of the rest: `specs/Frames.antt`
//! - which bounds an update leaves as they are written: `specs/Spelling.antt`,
//!   `proofs/Spelling.antt`
//! - a bound on its other side: `src/bounds.rt`, `specs/Edits.antt`
#![tactic(auto)]

pub mod answers;
pub mod bounds;
pub mod error;
pub mod pieces;
pub mod probe;
pub mod runs;
pub mod window;
