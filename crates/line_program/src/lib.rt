//! Programs that answer each line of a text by a text: reading lines, and writing the answers.
//!
//! Where to find what:
//!
//! - a program that answers lines, and how one is served: each line is read where it lies in the
//!   reader's buffer: `src/program.rt`, `specs/{Conversation,Serving}.antt`,
//!   `proofs/{FirstLine,Progress}.antt`
//! - readers of lines, and what is known where they fail: `src/read.rt`
//! - texts that are read in pieces: `src/pieces.rt`, `specs/Pieces.antt`, `proofs/Faults.antt`
//! - a conversation seen in other states, as a program's in the lists that it stores:
//!   `proofs/Conversations.antt`
//! - lines cut at a byte, numbers written in digits, a line for each element of a list:
//!   `src/line.rt`, `specs/{Lines,Listing}.antt`, `proofs/{Listing,Told}.antt`
//! - the arguments and the standard streams of a program: `src/streams.rt`
#![tactic(auto)]

pub mod line;
pub mod pieces;
pub mod program;
pub mod read;
pub mod streams;
