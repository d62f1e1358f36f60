//! Programs over their arguments and the standard streams.

use std::alloc::Global;
use std::io::{self, BufRead, BufReader, BufWriter, ErrorKind, LineWriter, Write};
use std::process::ExitCode;
use std::{env, fs};

const BUFFER_BYTES: usize = 65536;

/// A program over any reader and writers.
pub trait StreamProgram {
    /// Serves the input, and returns the exit status. `words` are the arguments without the
    /// program's name.
    fn serve<R: BufRead + Drop, W: Write, E: Write>(
        alloc: Global,
        words: &[String],
        input: R,
        out: &mut W,
        err: &mut E,
    ) -> u8;
}

/// The program's name and its arguments. One that isn't text is no word that a program knows, so
/// then there are none. Allocates; fails only where an allocation does.
pub fn words(rt: &HostRuntime) -> io::Result<Vec<String>> {
    match env::args(rt) {
        Ok(arguments) => Ok(arguments.collect(rt.alloc())?),
        Err(error) if error.kind() == ErrorKind::OutOfMemory => Err(error),
        Err(_) => Ok(Vec::new(rt.alloc())),
    }
}

// Whether standard input is a regular file. Where the file system does not say, it is taken for
// none.
fn reads_file(rt: &HostRuntime) -> bool {
    match fs::metadata(rt, "/dev/stdin") {
        Ok(metadata) => metadata.is_file(),
        Err(_) => false,
    }
}

// Serves standard input to the writer.
fn serve_to<P: StreamProgram, W: Write>(
    rt: &HostRuntime,
    words: &[String],
    out: &mut W,
) -> io::Result<u8> {
    let alloc = rt.alloc();
    let input = BufReader::with_capacity(alloc, BUFFER_BYTES, rt.reader())?;
    Ok(P::serve(alloc, words, input, out, &mut rt.stderr()))
}

fn serve_streams<P: StreamProgram>(rt: &HostRuntime, words: &[String]) -> io::Result<u8> {
    if reads_file(rt) {
        let mut out = BufWriter::with_capacity(rt.alloc(), BUFFER_BYTES, rt.stdout())?;
        serve_to::<P, _>(rt, words, &mut out)
    } else {
        let mut out = LineWriter::with_capacity(rt.alloc(), BUFFER_BYTES, rt.stdout())?;
        serve_to::<P, _>(rt, words, &mut out)
    }
}

fn run<P: StreamProgram>(rt: &HostRuntime) -> io::Result<u8> {
    match words(rt)?.as_slice() {
        [_, words @ ..] => serve_streams::<P>(rt, words),
        [] => serve_streams::<P>(rt, &[]),
    }
}

/// Serves a program over the standard streams, and returns its exit status, or failure where a
/// buffer or the arguments cannot be allocated.
///
/// A regular file is answered in large writes. A person or a program gets each line of a reply as
/// it is written, and so can read it before the next line is read.
pub fn serve_standard<P: StreamProgram>(rt: &HostRuntime) -> ExitCode {
    match run::<P>(rt) {
        Ok(status) => ExitCode::from(status),
        Err(_) => ExitCode::FAILURE,
    }
}
