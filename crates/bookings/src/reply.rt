//! What is replied to a line.

use crate::calendar::{Calendar, NotBooked};
use crate::line::{Command, Line, parse};
use btree_range_map::{AnyRange, MapError};
use std::alloc::Global;
use std::io::{self, Write};
use std::ops::{Bound, Range};

/// The two calendars that lines speak of.
#[derive(Drop)]
pub struct Calendars {
    pub first: Calendar,
    pub other: Calendar,
}

/// Writes booked minutes as `540..600`, of which the last is not meant.
fn write_minutes<W: Write>(booked: &AnyRange<u32>, out: &mut W) -> io::Result<()> {
    let start = match booked.start {
        Bound::Included(first) => u64::from(first),
        Bound::Excluded(before) => u64::from(before) + 1,
        Bound::Unbounded => 0,
    };
    let end = match booked.end {
        Bound::Included(last) => u64::from(last) + 1,
        Bound::Excluded(end) => u64::from(end),
        Bound::Unbounded => u64::from(u32::MAX) + 1,
    };
    write!(out, "{start}..{end}")
}

fn book<W: Write>(
    alloc: Global,
    calendar: &mut Calendar,
    minutes: Range<u32>,
    name: &str,
    out: &mut W,
) -> io::Result<()> {
    let Ok(name) = String::from_str(alloc, name) else {
        return out.write_all(b"memory\n");
    };
    match calendar.book(minutes, name) {
        Ok(()) => out.write_all(b"ok\n"),
        Err(NotBooked::Taken(booked)) => {
            out.write_all(b"taken ")?;
            write_minutes(&booked, out)?;
            out.write_all(b"\n")
        }
        Err(NotBooked::Memory) => out.write_all(b"memory\n"),
    }
}

/// Writes so many minutes from a start on.
fn write_room<W: Write>(start: Option<u32>, length: u32, out: &mut W) -> io::Result<()> {
    match start {
        Some(start) => writeln!(out, "{start}..{}", u64::from(start) + u64::from(length)),
        None => out.write_all(b"none\n"),
    }
}

fn who<W: Write>(calendar: &Calendar, minutes: &Range<u32>, out: &mut W) -> io::Result<()> {
    let mut is_free = true;
    let mut bookings = calendar.bookings_in(minutes);
    while let Some((booked, name)) = bookings.next() {
        is_free = false;
        write_minutes(booked, out)?;
        writeln!(out, " {name}")?;
    }
    if is_free {
        out.write_all(b"none\n")?;
    }
    Ok(())
}

/// Does what is said to a calendar and writes the reply.
fn answer<W: Write>(
    alloc: Global,
    calendar: &mut Calendar,
    command: Command<'_>,
    out: &mut W,
) -> io::Result<()> {
    match command {
        Command::Book(minutes, name) => book(alloc, calendar, minutes, name, out),
        Command::Cancel(minutes) => match calendar.cancel(minutes) {
            Ok(()) => out.write_all(b"ok\n"),
            Err(_) => out.write_all(b"memory\n"),
        },
        Command::Free(within, length) => write_room(calendar.free(&within, length), length, out),
        Command::Who(minutes) => who(calendar, &minutes, out),
    }
}

/// Does what a line says and writes its reply.
pub fn answer_line<W: Write>(
    alloc: Global,
    calendars: &mut Calendars,
    line: &str,
    out: &mut W,
) -> io::Result<()> {
    match parse(line) {
        Some(Line::First(command)) => answer(alloc, &mut calendars.first, command, out),
        Some(Line::Other(command)) => answer(alloc, &mut calendars.other, command, out),
        Some(Line::Common(within, length)) => {
            match calendars.first.common(&calendars.other, &within, length) {
                Ok(start) => write_room(start, length, out),
                Err(MapError::Memory) => out.write_all(b"memory\n"),
            }
        }
        None => out.write_all(b"bad line\n"),
    }
}
