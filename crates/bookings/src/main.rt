//! Reads lines about the minutes of two calendars, and prints the replies.
//!
//! `book 540..600 NAME` books these minutes, or replies what is in the way, and `cancel 540..600`
//! frees them. `free 540..1020 30` replies the first 30 free minutes among these. `who 540..600`
//! lists the bookings that have some of them. With `other` in front, as in `other book 540..600
//! NAME`, a line speaks of the other calendar. `common 540..1020 30` replies the first 30 minutes
//! among these that are free in both.
//!
//! Where to find what:
//!
//! - what a calendar promises of its bookings, over a shipped key: `src/calendar.rt`,
//!   `specs/Calendars.antt`; which minutes a bound holds in `proofs/Minutes.antt`, where there is
//!   room in `proofs/Room.antt`
#![tactic(auto)]

use std::alloc::Global;
use std::io::{self, BufRead, BufReader, LineWriter, Write};

mod calendar;
mod line;
mod reply;

use calendar::Calendar;
use reply::{Calendars, answer_line};

const BUFFER_BYTES: usize = 4096;

/// Answers each line of the input; `line` is the buffer of one.
fn answer_lines<R: BufRead, W: Write>(
    alloc: Global,
    calendars: &mut Calendars,
    line: &mut Vec<u8>,
    input: &mut R,
    out: &mut W,
) -> io::Result<()> {
    for _ in 0..u64::MAX {
        line.clear();
        if input.read_until(b'\n', line)? == 0 {
            break;
        }
        let text = line.as_slice();
        let text = text.strip_suffix(b"\n").unwrap_or(text);
        match str::from_utf8(text) {
            Ok(text) => answer_line(alloc, calendars, text, out)?,
            Err(_) => out.write_all(b"bad line\n")?,
        }
    }
    out.flush()
}

fn serve<R: BufRead, W: Write>(alloc: Global, input: &mut R, out: &mut W) -> io::Result<()> {
    let mut calendars = Calendars {
        first: Calendar::new(alloc),
        other: Calendar::new(alloc),
    };
    let mut line = Vec::new(alloc);
    answer_lines(alloc, &mut calendars, &mut line, input, out)
}

fn main(rt: HostRuntime) -> io::Result<()> {
    let alloc = rt.alloc();
    let mut input = BufReader::with_capacity(alloc, BUFFER_BYTES, rt.reader())?;
    let mut out = LineWriter::with_capacity(alloc, BUFFER_BYTES, rt.stdout())?;
    serve(alloc, &mut input, &mut out)
}
