//! What is asked of tables of addresses with values.

use crate::request::{Output, Sought, family_of, output_of, sought_of};
use crate::usage::wrong;
use address_rows::{Form, Layout};
use address_text::Family;
use clap::ArgMatches;
use clap::error::ErrorKind;
use std::alloc::{AllocError, Global};

/// By what a table is printed.
#[derive(Clone, Copy)]
pub enum TableShape<'a> {
    /// By its ranges.
    Ranges,
    /// By prefixes that do not overlap.
    Disjoint,
    /// By the fewest prefixes that route alike, with this value for all other addresses.
    Shortest(Option<&'a str>),
}

/// What is to be done with tables.
#[derive(Drop)]
pub enum TableTask<'a> {
    /// They are printed as one.
    Print,
    /// What they say of the addresses of the list of this name is printed.
    Only(&'a str),
    /// What they say of all other addresses.
    Without(&'a str),
    /// The addresses of these values are printed as a list.
    Select(Vec<&'a str>, Output<'a>),
    /// The values of these addresses are printed.
    Get(Sought),
    /// How many addresses have each value is printed.
    Values,
    /// The first address where the two tables differ is printed, with both values.
    Check,
    /// All ranges where they differ are printed, with both values.
    Diff,
}

/// What is asked of the tables of these names.
#[derive(Drop)]
pub struct TableRequest<'a> {
    pub task: TableTask<'a>,
    pub tables: Vec<&'a str>,
    pub layout: Layout,
    /// The name of a column: lines with this first field are left alone. Empty where there is none.
    pub header: &'a str,
    /// Whether each address has the value of the longest prefix, and not that of the last line.
    pub is_by_longest: bool,
    /// How a table is printed.
    pub shape: TableShape<'a>,
    pub form: Form,
    /// The family whose addresses alone are taken; `None` for both.
    pub only: Option<Family>,
}

impl<'a> TableRequest<'a> {
    /// The name of what is read after so many others: the tables, and then a list.
    pub fn file(&self, place: usize) -> Option<&'a str> {
        let list = match &self.task {
            TableTask::Only(list) | TableTask::Without(list) => Some(*list),
            _ => None,
        };
        self.tables.as_slice().get(place).copied().or(list)
    }
}

fn layout_of(found: &ArgMatches<'_>) -> Layout {
    if found.get_flag("csv") {
        Layout::Csv
    } else if found.get_flag("decimal") {
        Layout::Decimal
    } else {
        Layout::Lines
    }
}

/// The form of what is read, which is printed where no other one is asked for.
fn same_form(layout: Layout) -> Form {
    match layout {
        Layout::Lines => Form::Lines,
        Layout::Csv => Form::Csv,
        Layout::Decimal => Form::Decimal,
    }
}

fn form_of(found: &ArgMatches<'_>, layout: Layout) -> Form {
    if found.get_flag("lines") {
        Form::Lines
    } else if found.get_flag("json") {
        Form::Json
    } else if found.get_flag("nginx") {
        Form::Nginx
    } else if found.get_flag("nft") {
        Form::Nft
    } else {
        same_form(layout)
    }
}

/// By what the table is printed. `nginx` takes prefixes alone.
fn shape_of<'a>(name: &str, found: &ArgMatches<'a>) -> TableShape<'a> {
    match name {
        "disjoint" => TableShape::Disjoint,
        "shortest" => TableShape::Shortest(found.get_str("default")),
        _ if found.get_flag("nginx") => TableShape::Disjoint,
        _ => TableShape::Ranges,
    }
}

fn words_of<'a>(
    alloc: Global,
    id: &str,
    found: &ArgMatches<'a>,
) -> Result<Vec<&'a str>, AllocError> {
    let mut words = Vec::new(alloc);
    words.extend_from_slice(found.get_strs(id).unwrap_or(&[]))?;
    Ok(words)
}

fn task_of<'a>(
    alloc: Global,
    name: &str,
    found: &ArgMatches<'a>,
) -> Result<TableTask<'a>, clap::Error> {
    match (name, found.get_str("in")) {
        ("only", Some(list)) => Ok(TableTask::Only(list)),
        ("without", Some(list)) => Ok(TableTask::Without(list)),
        ("select", _) => {
            let values = words_of(alloc, "VALUE", found)?;
            Ok(TableTask::Select(values, output_of(alloc, name, found)?))
        }
        ("get", _) => {
            let words = found.get_strs("ADDRESS").unwrap_or(&[]);
            Ok(TableTask::Get(sought_of(alloc, "table get", words)?))
        }
        ("values", _) => Ok(TableTask::Values),
        ("check", _) => Ok(TableTask::Check),
        ("diff", _) => Ok(TableTask::Diff),
        _ => Ok(TableTask::Print),
    }
}

/// How often standard input is named.
fn standard_inputs(found: &ArgMatches<'_>) -> usize {
    let mut count = 0usize;
    for id in ["FILE", "in", "ADDRESS"] {
        let words = found.get_strs(id).unwrap_or(&[]);
        count = count.saturating_add(words.iter().filter(|word| **word == "-").count());
    }
    count
}

/// What the words behind `table` ask for.
pub(crate) fn table_request<'a>(
    alloc: Global,
    found: &ArgMatches<'a>,
) -> Result<TableRequest<'a>, clap::Error> {
    // There is a command, since one is required.
    let (name, found) = found.subcommand().unwrap_or(("merge", found));
    if standard_inputs(found) > 1 {
        let called = format!(in alloc; "table {name}")?;
        let fault = "standard input can be named once";
        return Err(wrong(alloc, called.as_str(), ErrorKind::ArgumentConflict, fault)?);
    }
    let layout = layout_of(found);
    Ok(TableRequest {
        task: task_of(alloc, name, found)?,
        tables: words_of(alloc, "FILE", found)?,
        layout,
        header: found.get_str("header").unwrap_or(""),
        is_by_longest: found.get_flag("longest") || name == "longest",
        shape: shape_of(name, found),
        form: form_of(found, layout),
        only: family_of(found),
    })
}
