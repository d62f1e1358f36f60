//! What the program can be asked, as `clap` has it.

use crate::table_usage::{TABLE_ABOUT, TABLE_COMMANDS, TABLE_EXAMPLES};
use clap::error::ErrorKind;
use clap::{self, Arg, ArgAction, value_parser};
use std::alloc::{AllocError, Global};

const ABOUT: &str =
    "Puts lists of IP addresses together, and prints what comes of it in as few prefixes as can be.";

const VERSION: &str = "0.6.0";

const EXAMPLES: &str = "\
A line is an address, a prefix such as 10.0.0.0/8 or 10.0.0.0/255.0.0.0, or a range such as
10.0.0.0-10.0.0.5, and what follows # is a comment. A list that begins with { is JSON, as --json
prints it.

Examples:
  cidr merge blocked.txt more.txt
  cidr except blocked.txt --without exceptions.txt
  cidr invert allowed.txt
  cidr split --at 16,24,32 --v4 blocked.txt
  cidr merge blocked.txt --ipset blocked | ipset restore
  cidr merge blocked.txt --nft filter blocked | nft -f -
  cidr merge blocked.txt --max-prefixes 1000
  cidr has blocked.txt 10.1.2.3 2001:db8::1
  cidr has blocked.txt - < addresses.txt
  cidr grep blocked.txt access.log";

/// What a command takes.
#[derive(Clone, Copy)]
pub(crate) enum Kind {
    /// At least so many words, and at most so many.
    Words(usize, usize),
    /// A flag. Of those of a group at most one may be given.
    Flag(&'static [&'static str]),
    /// A flag that has a letter too. Of those of a group at most one may be given.
    Letter(char, &'static [&'static str]),
    /// One word more, the name of a list.
    SecondList,
    /// An option with the name of a list, which may be given again where so many are taken.
    List(ArgAction),
    /// An option that must be given, with lengths of prefixes, and may be given again.
    Lengths,
    /// An option with a text of any kind. Of the options of a group at most one may be given.
    Text(&'static [&'static str]),
    /// An option with names of these kinds. Of the options of a group at most one may be given.
    Names(&'static [&'static str], &'static [&'static str]),
    /// An option that must be given, with the name of a list.
    NeededList,
    /// An option with a text, which the help calls so.
    Word(&'static str),
    /// An option with a number from 1 on. Of the options of a group at most one may be given.
    Number(&'static [&'static str]),
}

/// The name of what a command takes, its kind, and its help.
pub(crate) type Taken = (&'static str, Kind, &'static str);

/// A command.
pub(crate) struct Usage {
    pub(crate) name: &'static str,
    pub(crate) about: &'static str,
    pub(crate) takes: &'static [Taken],
}

pub(crate) const ONE_LIST: Taken = ("FILE", Kind::Words(1, 1), LIST_HELP);

pub(crate) const SECOND_LIST: Taken = ("OTHER", Kind::SecondList, LIST_HELP);

const LISTS: Taken = ("FILE", Kind::Words(1, usize::MAX), LIST_HELP);

const LIST_HELP: &str = "A list of addresses; - is standard input";

pub(crate) const STRICT: Taken = (
    "strict",
    Kind::Flag(&[]),
    "Refuse a prefix that has bits of 1 after its length",
);

pub(crate) const SKIP_BAD: Taken = (
    "skip-bad",
    Kind::Flag(&[]),
    "Leave bad lines out, and count them on standard error",
);

pub(crate) const V4: Taken = ("v4", Kind::Flag(&["family"]), "Print IPv4 alone");

pub(crate) const V6: Taken = ("v6", Kind::Flag(&["family"]), "Print IPv6 alone");

pub(crate) const RANGES: Taken = (
    "ranges",
    Kind::Flag(&["form", "limit"]),
    "Print ranges in place of prefixes",
);

pub(crate) const SINGLE: Taken = (
    "single",
    Kind::Flag(&["form", "limit"]),
    "Print each address on a line",
);

pub(crate) const JSON: Taken = (
    "json",
    Kind::Flag(&["form", "before", "behind", "limit"]),
    "Print a JSON object: the set of each family, as an array of ranges",
);

const PREFIX: Taken = (
    "prefix",
    Kind::Text(&["before"]),
    "Print this text before what is on each line",
);

const SUFFIX: Taken = (
    "suffix",
    Kind::Text(&["behind"]),
    "Print this text behind what is on each line",
);

const IPSET: Taken = (
    "ipset",
    Kind::Names(&["NAME"], &["form", "before", "behind"]),
    "Print what ipset restore reads: the sets NAME_v4 and NAME_v6",
);

const NFT: Taken = (
    "nft",
    Kind::Names(&["TABLE", "NAME"], &["form", "before", "behind"]),
    "Print what nft -f reads: the sets NAME_v4 and NAME_v6 of a table",
);

const MAX_PREFIXES: Taken = (
    "max-prefixes",
    Kind::Number(&["limit"]),
    "Print at most N prefixes of each family, with the fewest addresses more that this takes",
);

const WITHOUT: Taken = (
    "without",
    Kind::List(ArgAction::Append),
    "A list whose addresses are left out; may be given again",
);

const FROM: Taken = (
    "from",
    Kind::List(ArgAction::Set),
    "The old way: the list from which all others are taken",
);

pub(crate) const QUIET: Taken = (
    "quiet",
    Kind::Flag(&[]),
    "Print nothing: the exit status alone tells",
);

const AT: Taken = (
    "at",
    Kind::Lengths,
    "The lengths to divide at, as 16,24: for each prefix the least that is not below its own",
);

pub(crate) const ADDRESSES: Taken = (
    "ADDRESS",
    Kind::Words(1, usize::MAX),
    "An address that is looked up; - alone: each line of standard input",
);

const INVERT_MATCH: Taken = (
    "invert-match",
    Kind::Letter('v', &[]),
    "Print the lines that hold no address of the list",
);

const COUNT: Taken = (
    "count",
    Kind::Letter('c', &["form"]),
    "Print how many lines there are, in place of them",
);

const LINE_NUMBER: Taken = (
    "line-number",
    Kind::Letter('n', &["form"]),
    "Print the number of each line before it",
);

const TEXTS: Taken = (
    "TEXT",
    Kind::Words(0, usize::MAX),
    "A text whose lines are searched; - is standard input, and so is none",
);

const GREP: Usage = Usage {
    name: "grep",
    about: "Print the lines of texts that hold an address of a list, or exit with 1 where none does",
    takes: &[
        ONE_LIST,
        STRICT,
        SKIP_BAD,
        INVERT_MATCH,
        COUNT,
        LINE_NUMBER,
        QUIET,
        TEXTS,
    ],
};

const HAS: Usage = Usage {
    name: "has",
    about: "Print each address, and the range around it in the list, or - and exit with 1",
    takes: &[ONE_LIST, STRICT, SKIP_BAD, QUIET, ADDRESSES],
};

/// What a command takes that prints addresses of any lists.
const ANY_LISTS: &[Taken] = &[
    LISTS,
    STRICT,
    SKIP_BAD,
    V4,
    V6,
    RANGES,
    SINGLE,
    JSON,
    PREFIX,
    SUFFIX,
    IPSET,
    NFT,
    MAX_PREFIXES,
];

const EXCEPT: Usage = Usage {
    name: "except",
    about: "Print those of a list that are in none of the lists after --without",
    takes: &[
        LISTS,
        STRICT,
        SKIP_BAD,
        V4,
        V6,
        RANGES,
        SINGLE,
        JSON,
        PREFIX,
        SUFFIX,
        IPSET,
        NFT,
        MAX_PREFIXES,
        WITHOUT,
        FROM,
    ],
};

static COMMANDS: [Usage; 10] = [
    Usage {
        name: "merge",
        about: "Print the addresses that are in any list",
        takes: ANY_LISTS,
    },
    Usage {
        name: "common",
        about: "Print those that are in all lists",
        takes: ANY_LISTS,
    },
    Usage {
        name: "invert",
        about: "Print those of both families that are in no list",
        takes: ANY_LISTS,
    },
    EXCEPT,
    Usage {
        name: "diff",
        about: "Print those that are in just one of two lists",
        takes: &[
            ONE_LIST,
            SECOND_LIST,
            STRICT,
            SKIP_BAD,
            V4,
            V6,
            RANGES,
            SINGLE,
            JSON,
            PREFIX,
            SUFFIX,
            IPSET,
            NFT,
            MAX_PREFIXES,
        ],
    },
    Usage {
        name: "count",
        about: "Print how many addresses of each family are in any list",
        takes: &[LISTS, STRICT, SKIP_BAD, V4, V6],
    },
    Usage {
        name: "split",
        about: "Print those that are in any list, in prefixes of some lengths",
        takes: &[LISTS, STRICT, SKIP_BAD, V4, V6, AT, PREFIX, SUFFIX],
    },
    Usage {
        name: "compare",
        about: "Print how the first of two lists lies to the second, and how many addresses each has",
        takes: &[ONE_LIST, SECOND_LIST, STRICT, SKIP_BAD],
    },
    HAS,
    GREP,
];

fn flag<'a>(arg: Arg<'a>, groups: &'a [&'a str]) -> Result<Arg<'a>, AllocError> {
    arg.action(ArgAction::SetTrue).groups(groups)
}

fn text<'a>(arg: Arg<'a>, groups: &'a [&'a str]) -> Result<Arg<'a>, AllocError> {
    arg.value_name("TEXT")
        .allow_hyphen_values(true)
        .groups(groups)
}

fn lengths<'a>(arg: Arg<'a>) -> Arg<'a> {
    arg.value_name("LENGTHS")
        .value_delimiter(',')
        .action(ArgAction::Append)
        .value_parser(value_parser!(u8).range(0..=128))
}

fn number<'a>(arg: Arg<'a>, groups: &'a [&'a str]) -> Result<Arg<'a>, AllocError> {
    arg.value_name("N")
        .value_parser(value_parser!(u32).range(1..=4294967295))
        .groups(groups)
}

fn argument<'a>((name, kind, help): Taken, alloc: Global) -> Result<Arg<'a>, AllocError> {
    let arg = Arg::new(alloc, name).help(help);
    match kind {
        Kind::Words(least, most) => Ok(arg.required(least > 0).num_args(least..=most)),
        Kind::Flag(groups) => flag(arg.long(name), groups),
        Kind::Letter(letter, groups) => flag(arg.long(name).short(letter), groups),
        Kind::SecondList => Ok(arg.required(true).value_name("FILE")),
        Kind::List(action) => Ok(arg.long(name).action(action).value_name("FILE")),
        Kind::Lengths => Ok(lengths(arg.long(name).required(true))),
        Kind::Text(groups) => text(arg.long(name), groups),
        Kind::Names(names, groups) => {
            let arg = arg.long(name).value_names(names);
            arg.num_args(names.len()..=names.len()).groups(groups)
        }
        Kind::NeededList => Ok(arg.long(name).required(true).value_name("FILE")),
        Kind::Word(called) => Ok(arg.long(name).value_name(called)),
        Kind::Number(groups) => number(arg.long(name), groups),
    }
}

fn add_argument<'a>(
    args: &mut Vec<Arg<'a>>,
    taken: Taken,
    alloc: Global,
) -> Result<(), AllocError> {
    args.push(argument(taken, alloc)?)?;
    Ok(())
}

fn arguments<'a>(usage: &Usage, alloc: Global) -> Result<Vec<Arg<'a>>, AllocError> {
    let mut args = Vec::new(alloc);
    for taken in usage.takes {
        add_argument(&mut args, *taken, alloc)?;
    }
    Ok(args)
}

fn command<'a>(usage: &Usage, alloc: Global) -> Result<clap::Command<'a>, AllocError> {
    let args = arguments(usage, alloc)?;
    clap::Command::new(alloc, usage.name)
        .about(usage.about)
        .args(args)
}

fn add_command<'a>(
    commands: &mut Vec<clap::Command<'a>>,
    usage: &Usage,
    alloc: Global,
) -> Result<(), AllocError> {
    commands.push(command(usage, alloc)?)?;
    Ok(())
}

fn commands<'a>(usages: &[Usage], alloc: Global) -> Result<Vec<clap::Command<'a>>, AllocError> {
    let mut commands = Vec::new(alloc);
    for usage in usages {
        add_command(&mut commands, usage, alloc)?;
    }
    Ok(commands)
}

/// The commands over tables, as one.
fn table<'a>(alloc: Global) -> Result<clap::Command<'a>, AllocError> {
    clap::Command::new(alloc, "table")
        .about(TABLE_ABOUT)
        .after_help(TABLE_EXAMPLES)
        .subcommand_required(true)
        .subcommands(commands(&TABLE_COMMANDS, alloc)?)
}

/// The program without its commands.
fn cidr<'a>(alloc: Global) -> clap::Command<'a> {
    clap::Command::new(alloc, "cidr")
        .about(ABOUT)
        .version(VERSION)
        .after_help(EXAMPLES)
        .subcommand_required(true)
}

/// What the program can be asked.
pub fn program<'a>(alloc: Global) -> Result<clap::Command<'a>, AllocError> {
    let mut commands = commands(&COMMANDS, alloc)?;
    commands.push(table(alloc)?)?;
    cidr(alloc).subcommands(commands)
}

/// The usage of a command among these; of none, that of the first.
fn usage_among(usages: &'static [Usage], name: &str) -> Option<&'static Usage> {
    usages.iter().find(|usage| usage.name == name)
}

/// The usage of a command, by its name behind that of the program; of none, that of `merge`.
fn usage_of(name: &str) -> &'static Usage {
    let found = match name.strip_prefix("table ") {
        Some(name) => usage_among(&TABLE_COMMANDS, name),
        None => usage_among(&COMMANDS, name),
    };
    found.unwrap_or(&COMMANDS[0])
}

/// An error in what the command of this name is given, with its usage.
pub fn wrong<'a>(
    alloc: Global,
    name: &str,
    kind: ErrorKind,
    message: &str,
) -> Result<clap::Error, AllocError> {
    let called = format!(in alloc; "cidr {name}")?;
    let mut command = command(usage_of(name), alloc)?.bin_name(called.as_str())?;
    command.error(kind, message)
}
