//! What a command line asks for.

use crate::form::Form;
use crate::language::{C, Language, RUST};

/// What is shown of a command line that asks for nothing.
pub(crate) const USAGE: &str =
    "usage: tokens [--raw|--json|--count] RULES [FILE..]\n       tokens --table c|rust RULES\n       tokens --help\n";

/// What `--help` prints.
pub(crate) const HELP: &str = "usage: tokens [--raw|--json|--count] RULES [FILE..]
       tokens --table c|rust RULES

Cuts files into tokens by a file of rules, and prints a line for each token: LINE:COLUMN NAME TEXT.
With no file, or for -, it reads standard input.

  --raw      prints the text of a token as it stands there: else the ends of lines are \\n and \\r, and
             a backslash is \\\\
  --json     prints a JSON object for each token
  --count    prints how many tokens each rule has
  --table    prints a source file that finds the tokens of these rules, in C or Rust
  --help     prints this
  --version  prints the version

A line of the rules is NAME PATTERN, or skip PATTERN for what is left out. Patterns are those of
Rust's regex, without assertions. The longest match makes a token, by the first such rule.

Before a rule may stand the modes in which it holds: <MODE,MODE> NAME PATTERN. Others hold in the
mode initial, in which a text begins. Behind it may stand the mode after its tokens: -> MODE, or
-> push MODE over the present one, or -> pop for the one below. A table has no modes.
";

/// What `--version` prints.
pub(crate) const VERSION: &str = "tokens 0.6.0\n";

/// What a command line asks for.
#[derive(Clone, Copy)]
pub(crate) enum Request<'a> {
    Help,
    Version,
    /// The tokens of the files at these paths, by the rules at that one.
    Cut {
        form: Form,
        rules: &'a str,
        paths: &'a [String],
    },
    /// The rules at the path as a table of the language.
    Table {
        language: &'a Language,
        rules: &'a str,
    },
    Wrong,
}

/// What the words behind those that say how tokens are written ask for.
fn cut_by(form: Form, words: &[String]) -> Request {
    match words {
        [rules, paths @ ..] if !rules.starts_with("--") => Request::Cut {
            form,
            rules: rules.as_str(),
            paths,
        },
        _ => Request::Wrong,
    }
}

/// What the words behind that which asks for a table ask for.
fn table_by(words: &[String]) -> Request {
    let [language, rules] = words else {
        return Request::Wrong;
    };
    let rules = rules.as_str();
    match language.as_str() {
        "c" => Request::Table {
            language: &C,
            rules,
        },
        "rust" => Request::Table {
            language: &RUST,
            rules,
        },
        _ => Request::Wrong,
    }
}

/// What the arguments ask for.
pub(crate) fn request_of(words: &[String]) -> Request {
    let [first, rest @ ..] = words else {
        return Request::Wrong;
    };
    match first.as_str() {
        "--help" | "-h" => Request::Help,
        "--version" => Request::Version,
        "--raw" => cut_by(Form::Raw, rest),
        "--json" => cut_by(Form::Json, rest),
        "--count" => cut_by(Form::Silent, rest),
        "--table" => table_by(rest),
        _ => cut_by(Form::Plain, words),
    }
}
