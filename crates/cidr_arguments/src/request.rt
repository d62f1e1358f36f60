//! What the arguments ask for.

use crate::table::{TableRequest, table_request};
use crate::usage::{program, wrong};
use address_text::Family;
use address_text::write::Around;
use clap::ArgMatches;
use clap::error::ErrorKind;
use std::alloc::{AllocError, Global};
use std::net::IpAddr;

/// What is made of some lists.
#[derive(Clone, Copy)]
pub enum Command {
    /// The addresses of any list.
    Merge,
    /// Those of all lists.
    Common,
    /// Those of the first list that no other one has.
    Except,
    /// Those of the first list or the second, and not of both.
    Diff,
    /// Those of no list.
    Invert,
}

/// The lines that are printed of addresses.
#[derive(Drop)]
pub enum Lines {
    /// The prefixes that have just these, as few as can be.
    Prefixes,
    /// Their ranges, as wide as they go.
    Ranges,
    /// Each of them.
    Singles,
    /// How many there are of each family.
    Count,
    /// Those prefixes, each divided at the least of these lengths that is not below its own.
    Split(Vec<u8>),
}

/// What is printed of addresses.
#[derive(Drop)]
pub enum Form<'a> {
    /// Lines, with the same texts around what is on each.
    Lines(Lines, Around<'a>),
    /// An object with the set of either family, as the library writes it as JSON.
    Json,
    /// A file that `ipset restore` reads, with sets whose names begin with this one.
    Ipset(&'a str),
    /// A file that `nft -f` reads, with sets of a table, whose names begin with the other name.
    Nft(&'a str, &'a str),
}

/// What is printed of an answer.
#[derive(Drop)]
pub struct Output<'a> {
    /// The family whose addresses alone are printed; `None` for both.
    pub only: Option<Family>,
    /// How many prefixes of each family are printed at most, from 1 on; `None` for any number.
    pub most: Option<u32>,
    pub form: Form<'a>,
}

/// What is to be done with the lists of these names.
#[derive(Drop)]
pub enum Task<'a> {
    /// They are put together, that from which others are taken first, and printed.
    Combine(Command, Vec<&'a str>, Output<'a>),
    /// The first is compared with the second.
    Compare(&'a str, &'a str),
    /// The addresses are looked up in it.
    LookUp(&'a str, Sought),
    /// The lines of texts are searched for its addresses.
    Search(&'a str, Vec<&'a str>, Wanted),
    /// Tables of addresses with values are read.
    Table(TableRequest<'a>),
}

/// What is printed of the lines of texts.
#[derive(Clone, Copy)]
pub struct Wanted {
    /// Those that hold no address of the list.
    pub is_inverted: bool,
    /// How many there are.
    pub is_count: bool,
    /// Each with its number before it.
    pub is_numbered: bool,
}

/// The addresses that are looked up.
#[derive(Drop)]
pub enum Sought {
    These(Vec<IpAddr>),
    /// Those that are the lines of standard input.
    Lines,
}

impl<'a> Task<'a> {
    /// The name of the list that is read after so many others.
    pub fn file(&self, place: usize) -> Option<&'a str> {
        match self {
            Task::Combine(_, files, _) => files.as_slice().get(place).copied(),
            Task::Compare(first, second) => [*first, *second].get(place).copied(),
            Task::LookUp(file, _) | Task::Search(file, _, _) => [*file].get(place).copied(),
            Task::Table(request) => request.file(place),
        }
    }
}

/// What the arguments ask for.
#[derive(Drop)]
pub struct Request<'a> {
    pub task: Task<'a>,
    /// Whether a prefix whose address has bits of 1 after its length is bad.
    pub is_strict: bool,
    /// Whether bad lines are left out.
    pub skips_bad_lines: bool,
    /// Whether the answer is the exit status alone.
    pub is_quiet: bool,
    /// Whether it is asked as earlier versions had it: `except` with `--from`.
    pub is_old_form: bool,
}

/// The names of the lists, that from which others are taken first.
fn names_of<'a>(alloc: Global, found: &ArgMatches<'a>) -> Result<Vec<&'a str>, AllocError> {
    let mut names = Vec::new(alloc);
    for id in ["from", "FILE", "OTHER", "without"] {
        names.extend_from_slice(found.get_strs(id).unwrap_or(&[]))?;
    }
    Ok(names)
}

/// How often standard input is named.
fn standard_inputs(names: &[&str]) -> usize {
    names.iter().filter(|name| **name == "-").count()
}

pub(crate) fn family_of(found: &ArgMatches<'_>) -> Option<Family> {
    if found.get_flag("v4") {
        Some(Family::V4)
    } else if found.get_flag("v6") {
        Some(Family::V6)
    } else {
        None
    }
}

/// The lengths at which prefixes are divided.
fn lengths_of(alloc: Global, found: &ArgMatches<'_>) -> Result<Vec<u8>, AllocError> {
    let mut lengths = Vec::new(alloc);
    for word in found.get_strs("at").unwrap_or(&[]) {
        // The words are lengths, since others are refused.
        lengths.push(word.parse().unwrap_or(Family::V6.width()))?;
    }
    Ok(lengths)
}

fn lines_of(alloc: Global, name: &str, found: &ArgMatches<'_>) -> Result<Lines, AllocError> {
    Ok(match name {
        "count" => Lines::Count,
        "split" => Lines::Split(lengths_of(alloc, found)?),
        _ if found.get_flag("ranges") => Lines::Ranges,
        _ if found.get_flag("single") => Lines::Singles,
        _ => Lines::Prefixes,
    })
}

/// What is printed of addresses, but for a file of a firewall.
fn plain_form<'a>(
    alloc: Global,
    name: &str,
    found: &ArgMatches<'a>,
) -> Result<Form<'a>, AllocError> {
    if found.get_flag("json") {
        return Ok(Form::Json);
    }
    let around = Around {
        before: found.get_str("prefix").unwrap_or(""),
        after: found.get_str("suffix").unwrap_or(""),
    };
    Ok(Form::Lines(lines_of(alloc, name, found)?, around))
}

fn form_of<'a>(alloc: Global, name: &str, found: &ArgMatches<'a>) -> Result<Form<'a>, AllocError> {
    match (found.get_strs("ipset"), found.get_strs("nft")) {
        (Some([set]), _) => Ok(Form::Ipset(set)),
        (_, Some([table, set])) => Ok(Form::Nft(table, set)),
        _ => plain_form(alloc, name, found),
    }
}

/// How many prefixes of each family are printed at most.
fn limit_of(found: &ArgMatches<'_>) -> Option<u32> {
    // The word is a number, since others are refused.
    found.get_str("max-prefixes")?.parse().ok()
}

/// What is printed of a list.
pub(crate) fn output_of<'a>(
    alloc: Global,
    name: &str,
    found: &ArgMatches<'a>,
) -> Result<Output<'a>, AllocError> {
    Ok(Output {
        only: family_of(found),
        most: limit_of(found),
        form: form_of(alloc, name, found)?,
    })
}

/// Whether `ipset` and `nft` take the text as the beginning of a name: letters, digits, `_`, `-` and
/// `.`, a letter first, and no more bytes than leave room for the name of a family.
fn is_set_name(text: &str) -> bool {
    text.len() <= 28
        && text.starts_with(|first: char| first.is_ascii_alphabetic())
        && text.bytes().all(|byte| byte.is_ascii_alphanumeric()
            || matches!(byte, b'_' | b'-' | b'.'))
}

/// The first of the names that is none of a set or of a table.
fn wrong_name<'a>(found: &ArgMatches<'a>) -> Option<&'a str> {
    for id in ["ipset", "nft"] {
        for name in found.get_strs(id).unwrap_or(&[]) {
            if !is_set_name(name) {
                return Some(*name);
            }
        }
    }
    None
}

/// What a command makes of its lists.
fn command_of(name: &str) -> Command {
    match name {
        "common" => Command::Common,
        "except" => Command::Except,
        "diff" => Command::Diff,
        "invert" => Command::Invert,
        _ => Command::Merge,
    }
}

/// Tells that a word is no address.
fn no_address(alloc: Global, name: &str, word: &str) -> Result<clap::Error, AllocError> {
    let message = format!(in alloc;
        "invalid value '{word}' for '<ADDRESS>...': expected an address"
    )?;
    wrong(alloc, name, ErrorKind::ValueValidation, message.as_str())
}

fn address_of(alloc: Global, name: &str, word: &str) -> Result<IpAddr, clap::Error> {
    match word.parse::<IpAddr>() {
        Ok(address) => Ok(address),
        Err(_) => Err(no_address(alloc, name, word)?),
    }
}

/// The addresses that the words are.
fn addresses_of(alloc: Global, name: &str, words: &[&str]) -> Result<Vec<IpAddr>, clap::Error> {
    let mut addresses = Vec::new(alloc);
    for word in words {
        addresses.push(address_of(alloc, name, word)?)?;
    }
    Ok(addresses)
}

/// Tells that a word is no name of a set.
fn no_name(alloc: Global, name: &str, word: &str) -> Result<clap::Error, AllocError> {
    let message = format!(in alloc;
        "invalid value '{word}' for a name: expected up to 28 letters, digits, '_', '-' and '.', \
        a letter first"
    )?;
    wrong(alloc, name, ErrorKind::ValueValidation, message.as_str())
}

/// What is to be done with the lists that the arguments name.
fn combined<'a>(
    alloc: Global,
    name: &str,
    found: &ArgMatches<'a>,
) -> Result<Task<'a>, clap::Error> {
    if let Some(word) = wrong_name(found) {
        return Err(no_name(alloc, name, word)?);
    }
    let files = names_of(alloc, found)?;
    Ok(Task::Combine(command_of(name), files, output_of(alloc, name, found)?))
}

/// The addresses that a command of this name is to look up.
pub(crate) fn sought_of(alloc: Global, name: &str, words: &[&str]) -> Result<Sought, clap::Error> {
    match words {
        ["-"] => Ok(Sought::Lines),
        _ => Ok(Sought::These(addresses_of(alloc, name, words)?)),
    }
}

/// The names of the texts: where there is none, standard input.
fn texts_of<'a>(alloc: Global, found: &ArgMatches<'a>) -> Result<Vec<&'a str>, AllocError> {
    let mut names = Vec::new(alloc);
    names.extend_from_slice(found.get_strs("TEXT").unwrap_or(&[]))?;
    if names.is_empty() {
        names.push("-")?;
    }
    Ok(names)
}

fn search_of<'a>(
    alloc: Global,
    list: &'a str,
    found: &ArgMatches<'a>,
) -> Result<Task<'a>, AllocError> {
    let wanted = Wanted {
        is_inverted: found.get_flag("invert-match"),
        is_count: found.get_flag("count"),
        is_numbered: found.get_flag("line-number"),
    };
    Ok(Task::Search(list, texts_of(alloc, found)?, wanted))
}

/// What the innermost command is given.
fn asked_of<'f, 'a>(found: &'f ArgMatches<'a>) -> &'f ArgMatches<'a> {
    let (_, inner) = found.subcommand().unwrap_or(("", found));
    inner
}

fn task_of<'a>(alloc: Global, name: &str, found: &ArgMatches<'a>) -> Result<Task<'a>, clap::Error> {
    let first = found.get_str("FILE").unwrap_or("-");
    match name {
        "compare" => Ok(Task::Compare(first, found.get_str("OTHER").unwrap_or("-"))),
        "has" => {
            let words = found.get_strs("ADDRESS").unwrap_or(&[]);
            Ok(Task::LookUp(first, sought_of(alloc, name, words)?))
        }
        "grep" => Ok(search_of(alloc, first, found)?),
        "table" => Ok(Task::Table(table_request(alloc, found)?)),
        _ => combined(alloc, name, found),
    }
}

fn matches_of<'a>(alloc: Global, words: &'a [String]) -> Result<ArgMatches<'a>, clap::Error> {
    program(alloc)?.try_get_matches_from(words)
}

/// The names of what is read beside lists.
fn others_of<'a>(
    alloc: Global,
    name: &str,
    found: &ArgMatches<'a>,
) -> Result<Vec<&'a str>, AllocError> {
    if name == "grep" {
        return texts_of(alloc, found);
    }
    let mut names = Vec::new(alloc);
    names.extend_from_slice(found.get_strs("ADDRESS").unwrap_or(&[]))?;
    Ok(names)
}

/// What is wrong with the lists that are named, if anything.
fn fault_of_names<'a>(
    alloc: Global,
    name: &str,
    found: &ArgMatches<'a>,
) -> Result<Option<&'static str>, AllocError> {
    let names = names_of(alloc, found)?;
    let files = found.get_strs("FILE").unwrap_or(&[]);
    let others = others_of(alloc, name, found)?;
    let read = standard_inputs(names.as_slice()).saturating_add(standard_inputs(others.as_slice()));
    Ok(
        match (found.contains_id("from"), found.contains_id("without")) {
            _ if read > 1 => Some("standard input can be named once"),
            (false, false) if name == "except" => Some(
                "what is left out is named after '--without'",
            ),
            (true, true) => Some("the argument '--without' cannot be used with '--from'"),
            (false, true) if files.len() > 1 => Some("one list is named before '--without'"),
            _ => None,
        },
    )
}

/// What the words ask for, which begin with the program's name. An error has the text and the exit
/// status of a wrong command line, or of one that asks for help.
pub fn read_request<'a>(alloc: Global, words: &'a [String]) -> Result<Request<'a>, clap::Error> {
    let matches = matches_of(alloc, words)?;
    // There is a command, since one is required.
    let (name, found) = matches.subcommand().unwrap_or(("merge", &matches));
    if let Some(fault) = fault_of_names(alloc, name, found)? {
        return Err(wrong(alloc, name, ErrorKind::ArgumentConflict, fault)?);
    }
    let asked = asked_of(found);
    Ok(Request {
        task: task_of(alloc, name, found)?,
        is_strict: asked.get_flag("strict"),
        skips_bad_lines: asked.get_flag("skip-bad"),
        is_quiet: asked.get_flag("quiet"),
        is_old_form: found.contains_id("from"),
    })
}
