//! What a line says.

use std::ops::Range;

/// What a line says to a calendar.
pub enum Command<'a> {
    Book(Range<u32>, &'a str),
    Cancel(Range<u32>),
    Free(Range<u32>, u32),
    Who(Range<u32>),
}

/// A line of a known form.
pub enum Line<'a> {
    First(Command<'a>),
    Other(Command<'a>),
    Common(Range<u32>, u32),
}

/// Minutes such as `540..600`, of which the last is not meant.
fn minutes(text: &str) -> Option<Range<u32>> {
    let (start, end) = text.split_once("..")?;
    let minutes = start.parse::<u32>().ok()?..end.parse::<u32>().ok()?;
    if minutes.start < minutes.end {
        Some(minutes)
    } else {
        None
    }
}

fn book(fields: &str) -> Option<Command<'_>> {
    let (range, name) = fields.split_once(' ')?;
    if name.is_empty() {
        return None;
    }
    Some(Command::Book(minutes(range)?, name))
}

/// Minutes and how many of them are wanted.
fn room(fields: &str) -> Option<(Range<u32>, u32)> {
    let (range, length) = fields.split_once(' ')?;
    Some((minutes(range)?, length.parse::<u32>().ok()?))
}

fn to_calendar<'a>(word: &str, fields: &'a str) -> Option<Command<'a>> {
    match word {
        "book" => book(fields),
        "cancel" => Some(Command::Cancel(minutes(fields)?)),
        "free" => {
            let (within, length) = room(fields)?;
            Some(Command::Free(within, length))
        }
        "who" => Some(Command::Who(minutes(fields)?)),
        _ => None,
    }
}

/// What the line says, `None` where it has no known form.
pub fn parse(line: &str) -> Option<Line<'_>> {
    let (word, fields) = line.split_once(' ')?;
    match word {
        "other" => {
            let (word, fields) = fields.split_once(' ')?;
            Some(Line::Other(to_calendar(word, fields)?))
        }
        "common" => {
            let (within, length) = room(fields)?;
            Some(Line::Common(within, length))
        }
        _ => Some(Line::First(to_calendar(word, fields)?)),
    }
}
