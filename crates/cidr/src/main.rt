//! Puts lists of IP addresses together, and prints what comes of it in as few prefixes as can be.
//!
//! Where to find what:
//!
//! - the command line: the crate `cidr_arguments`; standard input and files: `src/inputs.rt`; what
//!   is told on a terminal while they are read: `src/progress.rt`
//! - the commands over any readers and writer, and what they print: `src/serve.rt`,
//!   `specs/{Commands,Shown}.antt`, `proofs/{Commands,Kept}.antt`; of `compare`,
//!   `src/compare.rt`, `specs/Relations.antt`, `proofs/Compared.antt`; of `has`, `src/lookup.rt`,
//!   `proofs/LookedUp.antt`; of `has` over lines and of `grep`, `src/lines.rt`, `specs/Lines.antt`
//! - files of firewalls: `src/firewall.rt`, `specs/Firewalls.antt`; lists that have few prefixes:
//!   `src/limit.rt`, `specs/Limits.antt`
//! - the commands over tables, which the crate `address_table_commands` has: `src/table.rt`
//! - what is written, and why that failed: `src/output.rt`; why a request is not answered:
//!   `src/unanswered.rt`
#![tactic(auto)]

mod compare;
mod firewall;
mod inputs;
mod limit;
mod lines;
mod lookup;
mod output;
mod progress;
mod serve;
mod table;
mod unanswered;

use crate::compare::compare;
use crate::inputs::{Input, ToldInput};
use crate::limit::Added;
use crate::lines::{look_up_lines, search_text};
use crate::lookup::look_up;
use crate::output::Noted;
use crate::serve::{Reading, Source, Stop, read_source, serve};
use crate::table::answer_tables;
use crate::unanswered::Unanswered;
use address_lines::{Search, Showing};
use address_lists::{Addresses, BadLines};
use anyhow::{Context, bail};
use cidr_arguments::{Command, Output, Request, Sought, Task, Wanted, read_request};
use clap::error::ErrorKind;
use std::env;
use std::io::{self, BufReader, BufWriter, ErrorKind as Failure, Write};
use std::process::ExitCode;

const BUFFER_BYTES: usize = 65536;

/// A list that is read from a file, or from standard input.
pub(crate) type List<'a> = Source<BufReader<ToldInput<'a>>>;

/// The list of this name; `-` is standard input.
pub(crate) fn source<'a>(rt: &'a HostRuntime, name: &'a str) -> anyhow::Result<List<'a>> {
    let alloc = rt.alloc();
    let input = Input::open(rt, name).context(format_args!("{name}"))?;
    Ok(Source {
        name: String::from_str(alloc, name)?,
        reader: BufReader::with_capacity(alloc, BUFFER_BYTES, input.told(rt, name))?,
    })
}

fn sources<'a>(rt: &'a HostRuntime, names: &[&'a str]) -> anyhow::Result<Vec<List<'a>>> {
    let mut sources = Vec::new(rt.alloc());
    for name in names {
        sources.push(source(rt, name)?)?;
    }
    Ok(sources)
}

/// How lists are to be read.
fn reading_of(request: &Request<'_>) -> Reading {
    Reading {
        strict: request.is_strict,
        bad_lines: if request.skips_bad_lines {
            BadLines::Skipped
        } else {
            BadLines::Refused
        },
    }
}

/// Says on standard error how many addresses of each family are printed in addition, where there
/// are any.
fn tell_added(rt: &HostRuntime, added: Added) -> io::Result<()> {
    for (family, count) in [("IPv4", added.v4), ("IPv6", added.v6)] {
        if count > 0 {
            eprintln!(rt; "{family}: {count} added addresses")?;
        }
    }
    Ok(())
}

/// Puts the lists of these names together, and prints what the command makes of them.
fn combine_files<W: Write>(
    rt: &HostRuntime,
    command: Command,
    files: &[&str],
    reading: Reading,
    output: &Output<'_>,
    left_out: &mut Vec<u64>,
    out: &mut W,
) -> Result<bool, Unanswered> {
    let sources = sources(rt, files)?;
    let added = serve(rt.alloc(), command, sources, reading, output, left_out, out)?;
    tell_added(rt, added)?;
    Ok(true)
}

fn compare_files<W: Write>(
    rt: &HostRuntime,
    first: &str,
    second: &str,
    reading: Reading,
    left_out: &mut Vec<u64>,
    out: &mut W,
) -> Result<bool, Unanswered> {
    let first = source(rt, first)?;
    let second = source(rt, second)?;
    compare(rt.alloc(), first, second, reading, left_out, out)?;
    Ok(true)
}

fn look_up_in_file<W: Write>(
    rt: &HostRuntime,
    file: &str,
    sought: &Sought,
    reading: Reading,
    left_out: &mut Vec<u64>,
    out: &mut W,
) -> Result<bool, Unanswered> {
    let list = source(rt, file)?;
    let alloc = rt.alloc();
    Ok(match sought {
        Sought::These(addresses) => {
            look_up(alloc, list, reading, addresses.as_slice(), left_out, out)?
        }
        Sought::Lines => look_up_lines(alloc, list, source(rt, "-")?, reading, left_out, out)?,
    })
}

/// Which lines are sought, and what is written of them.
fn search_of(wanted: Wanted) -> Search {
    Search {
        is_inverted: wanted.is_inverted,
        showing: match wanted {
            Wanted { is_count: true, .. } => Showing::Count,
            Wanted {
                is_numbered: true,
                ..
            } => Showing::Numbered,
            _ => Showing::Lines,
        },
    }
}

/// What stands before each line of the text of this name, where it is alone or one of several.
fn line_start(rt: &HostRuntime, name: &str, is_alone: bool) -> anyhow::Result<String> {
    if is_alone {
        return Ok(String::new(rt.alloc()));
    }
    Ok(format!(in rt.alloc(); "{name}:")?)
}

/// Writes what is sought of the texts of these names. Where there are several, each line has the
/// name of its text before it. Returns whether anything is found.
fn search_texts<W: Write>(
    rt: &HostRuntime,
    list: &Addresses,
    names: &[&str],
    wanted: Wanted,
    out: &mut W,
) -> Result<bool, Unanswered> {
    let alloc = rt.alloc();
    let mut found_any = false;
    for name in names {
        let before = line_start(rt, name, names.len() == 1)?;
        let text = source(rt, name)?;
        found_any |= search_text(alloc, list, search_of(wanted), before.as_str(), text, out)?;
    }
    Ok(found_any)
}

fn search_files<W: Write>(
    rt: &HostRuntime,
    file: &str,
    texts: &[&str],
    wanted: Wanted,
    reading: Reading,
    left_out: &mut Vec<u64>,
    out: &mut W,
) -> Result<bool, Unanswered> {
    let list = read_source(rt.alloc(), source(rt, file)?, reading, left_out)?;
    let found = search_texts(rt, &list, texts, wanted, out)?;
    match out.flush() {
        Ok(()) => Ok(found),
        Err(_) => Err(Unanswered::Stopped(Stop::Unwritable)),
    }
}

/// Does what the arguments ask, and returns whether the list has all addresses that are looked up,
/// or whether a line is found. Adds how many bad lines are left out of each list.
fn answer<W: Write>(
    rt: &HostRuntime,
    request: &Request<'_>,
    left_out: &mut Vec<u64>,
    out: &mut W,
) -> Result<bool, Unanswered> {
    let reading = reading_of(request);
    match &request.task {
        Task::Combine(command, files, output) => {
            combine_files(
                rt,
                *command,
                files.as_slice(),
                reading,
                output,
                left_out,
                out,
            )
        }
        Task::Compare(first, second) => compare_files(rt, first, second, reading, left_out, out),
        Task::LookUp(file, sought) => look_up_in_file(rt, file, sought, reading, left_out, out),
        Task::Search(file, texts, wanted) => {
            search_files(rt, file, texts.as_slice(), *wanted, reading, left_out, out)
        }
        Task::Table(request) => answer_tables(rt, request, reading, left_out, out),
    }
}

/// Says on standard error how many bad lines are left out of each list, where there are any.
fn tell_left_out(rt: &HostRuntime, task: &Task<'_>, left_out: &[u64]) -> io::Result<()> {
    for (place, others) in left_out.iter().enumerate() {
        match task.file(place) {
            Some(name) if *others > 0 => eprintln!(rt; "{name}: bad lines left out: {others}")?,
            _ => {}
        }
    }
    Ok(())
}

/// Answers on standard output, or nowhere where that is asked.
fn answered(
    rt: &HostRuntime,
    request: &Request<'_>,
    left_out: &mut Vec<u64>,
) -> Result<bool, Unanswered> {
    if request.is_quiet {
        return answer(rt, request, left_out, &mut io::sink());
    }
    let out = Noted::new(rt.stdout());
    let mut out = BufWriter::with_capacity(rt.alloc(), BUFFER_BYTES, out)?;
    let done = answer(rt, request, left_out, &mut out);
    match (done, out.get_ref().failure()) {
        // Nobody reads any more.
        (Err(Unanswered::Stopped(Stop::Unwritable)), Some(Failure::BrokenPipe)) => Ok(false),
        (Err(Unanswered::Stopped(Stop::Unwritable)), Some(failure)) => {
            Err(Unanswered::Unwritten(failure))
        }
        (done, _) => done,
    }
}

/// Does what the arguments ask, and returns the exit status.
fn run(rt: &HostRuntime, request: &Request<'_>) -> anyhow::Result<ExitCode> {
    let mut left_out = Vec::new(rt.alloc());
    let done = answered(rt, request, &mut left_out);
    if !matches!(&done, Err(Unanswered::Failed(_))) {
        tell_left_out(rt, &request.task, left_out.as_slice())?;
    }
    match done {
        Ok(true) => Ok(ExitCode::SUCCESS),
        Ok(false) | Err(Unanswered::Stopped(Stop::Unwritable)) => Ok(ExitCode::FAILURE),
        Err(Unanswered::Stopped(Stop::Memory)) => bail!("out of memory"),
        Err(Unanswered::Stopped(Stop::Bad(name, error))) => bail!("{name}: {error}"),
        Err(Unanswered::Unwritten(failure)) => bail!("standard output: {failure}"),
        Err(Unanswered::Failed(error)) => Err(error),
    }
}

/// Tells that a command is given as earlier versions had it.
fn tell_old_form(rt: &HostRuntime) -> io::Result<()> {
    eprintln!(rt; "cidr: '--from LIST' is going away: write 'cidr except LIST --without FILE'")
}

fn main(rt: HostRuntime) -> anyhow::Result<ExitCode> {
    let alloc = rt.alloc();
    let words: Vec<String> = env::args(&rt)?.collect(alloc)?;
    match read_request(alloc, words.as_slice()) {
        Ok(request) => {
            if request.is_old_form {
                tell_old_form(&rt)?;
            }
            run(&rt, &request)
        }
        Err(error) if error.kind() == ErrorKind::OutOfMemory => bail!("out of memory"),
        Err(error) => {
            error.print(&rt)?;
            Ok(ExitCode::from(error.exit_code() as u8))
        }
    }
}
