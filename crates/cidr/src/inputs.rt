//! What a list is read from.

use crate::progress::{Progress, Told};
use std::fs::File;
use std::io::{self, IsTerminal, Read, Stderr, Stdin};

/// A file, or standard input.
#[derive(Drop)]
pub enum Input {
    File(File),
    Standard(Stdin),
}

/// What is read of an input, and told.
pub type ToldInput<'a> = Told<'a, Input, HostRuntime, Stderr>;

impl Input {
    /// The file of this name; `-` is standard input.
    pub fn open(rt: &HostRuntime, name: &str) -> io::Result<Input> {
        if name == "-" {
            Ok(Input::Standard(rt.stdin()))
        } else {
            Ok(Input::File(File::open(rt, name)?))
        }
    }

    /// Whether it is typed.
    fn is_terminal(&self) -> bool {
        match self {
            Input::File(file) => file.is_terminal(),
            Input::Standard(input) => input.is_terminal(),
        }
    }

    /// The input, whose reading is told on standard error where that is a terminal.
    pub fn told<'a>(self, rt: &'a HostRuntime, name: &'a str) -> ToldInput<'a> {
        let terminal = rt.stderr();
        if terminal.is_terminal() && !self.is_terminal() {
            Told::new(self, Some(Progress::new(name, rt, terminal)))
        } else {
            Told::new(self, None)
        }
    }
}

impl Read for Input {
    fn read(&mut self, buf: &mut [u8]) -> io::Result<usize> {
        match self {
            Input::File(file) => file.read(buf),
            Input::Standard(input) => input.read(buf),
        }
    }
}
