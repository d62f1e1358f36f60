//! Reads lines, keeps four range maps, and prints the replies.
//!
//! Where to find what:
//!
//! - what a line of `rangecalc` does to four maps, by its one call, and the reply:
//!   `specs/{Lines,Answers,Two,Conversation}.antt`, the calls in `src/{answer,listing,two,maps}.rt`
//! - the four maps by their letters, in code and in contracts: one is changed, the others stay:
//!   `src/named.rt`, `specs/Named.antt`
#![tactic(auto)]

mod answer;
mod line;
mod listing;
mod maps;
mod named;
mod number;
mod serve;
mod two;
mod write;

use line_program::streams::{StreamProgram, serve_standard};
use std::alloc::Global;
use std::io::{BufRead, Write};
use std::process::ExitCode;

struct Calculator;

impl StreamProgram for Calculator {
    fn serve<R: BufRead + Drop, W: Write, E: Write>(
        alloc: Global,
        words: &[String],
        input: R,
        out: &mut W,
        err: &mut E,
    ) -> u8 {
        serve::serve(alloc, words, input, out, err)
    }
}

fn main(rt: HostRuntime) -> ExitCode {
    serve_standard::<Calculator>(&rt)
}
