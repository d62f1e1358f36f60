//! How much of a list is read, told on a terminal.

use std::io::{self, Read, Write};
use std::time::{Clock, Instant};

/// A line that tells how much of a list is read. It is written again each second, and erased at the
/// end of the list.
#[derive(Drop)]
pub struct Progress<'a, C, W> {
    name: &'a str,
    clock: &'a C,
    terminal: W,
    bytes: u64,
    /// When the first bytes came, or the line was written.
    since: Option<Instant>,
    is_shown: bool,
}

impl<'a, C: Clock, W: Write> Progress<'a, C, W> {
    /// That of a list of this name. Allocates nothing.
    pub fn new(name: &'a str, clock: &'a C, terminal: W) -> Progress<'a, C, W> {
        Progress {
            name,
            clock,
            terminal,
            bytes: 0,
            since: None,
            is_shown: false,
        }
    }

    /// Takes in that so many bytes were read.
    fn add(&mut self, count: usize) {
        self.bytes = self.bytes.saturating_add(count as u64);
        let Ok(now) = Instant::now(self.clock) else {
            return;
        };
        match self.since {
            Some(since) if now.duration_since(since).as_secs() == 0 => {}
            Some(_) => {
                self.since = Some(now);
                self.show();
            }
            None => self.since = Some(now),
        }
    }

    /// Writes the line. What comes next on the terminal is written over it.
    fn show(&mut self) {
        let megabytes = self.bytes / 1_000_000;
        let name = self.name;
        self.is_shown = true;
        let _written = write!(self.terminal, "{name}: {megabytes} MB read\x1b[K\r");
    }

    /// Erases the line.
    fn end(&mut self) {
        if self.is_shown {
            self.is_shown = false;
            let _written = write!(self.terminal, "\x1b[K");
        }
    }
}

/// A reader whose reading is told, or not.
#[derive(Drop)]
pub struct Told<'a, R, C, W> {
    reader: R,
    progress: Option<Progress<'a, C, W>>,
}

impl<'a, R: Read, C: Clock, W: Write> Told<'a, R, C, W> {
    pub fn new(reader: R, progress: Option<Progress<'a, C, W>>) -> Told<'a, R, C, W> {
        Told { reader, progress }
    }
}

/// Takes in what was read, where it is told.
fn tell<C: Clock, W: Write>(progress: &mut Option<Progress<'_, C, W>>, read: &io::Result<usize>) {
    let Some(progress) = progress else {
        return;
    };
    match read {
        Ok(count) if *count > 0 => progress.add(*count),
        _ => progress.end(),
    }
}

impl<'a, R: Read, C: Clock, W: Write> Read for Told<'a, R, C, W> {
    ghost remaining = { λ told. R.remaining told.reader };

    fn read(&mut self, buf: &mut [u8]) -> io::Result<usize> {
        let read = self.reader.read(buf);
        tell(&mut self.progress, &read);
        read
    }
}
