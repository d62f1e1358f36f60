//! What the program can be asked of tables.

use crate::usage::{
    ADDRESSES, JSON, Kind, QUIET, RANGES, SINGLE, SKIP_BAD, STRICT, Taken, Usage, V4, V6,
};

pub(crate) const TABLE_ABOUT: &str = "Do the same with tables: addresses with values";

pub(crate) const TABLE_EXAMPLES: &str = "\
A line is addresses as in a list, and a value behind white space: 10.0.0.0/8 US. With --csv it is
two fields, with --decimal the first address, the last and a value, those of IPv4 as numbers.
The value of the last line that has an address counts, or with --longest that of the longest prefix.

Examples:
  cidr table shortest --decimal --lines /usr/share/tor/geoip
  cidr table merge --json countries.txt changes.txt
  cidr table only countries.txt --in blocked.txt
  cidr table select countries.txt US CA
  cidr table get countries.txt 192.0.2.9
  cidr table diff old.txt new.txt";

const TABLE_HELP: &str = "A table of addresses with values; - is standard input";

const ONE_TABLE: Taken = ("FILE", Kind::Words(1, 1), TABLE_HELP);

const TWO_TABLES: Taken = ("FILE", Kind::Words(2, 2), TABLE_HELP);

const TABLES: Taken = ("FILE", Kind::Words(1, usize::MAX), TABLE_HELP);

const CSV: Taken = (
    "csv",
    Kind::Flag(&["layout"]),
    "Lines are two fields of CSV, the addresses and the value",
);

const DECIMAL: Taken = (
    "decimal",
    Kind::Flag(&["layout"]),
    "Lines are the first address, the last and a value, with commas; IPv4 as numbers",
);

const HEADER: Taken = (
    "header",
    Kind::Word("NAME"),
    "Leave lines alone whose first field is NAME: the name of a column",
);

const LONGEST: Taken = (
    "longest",
    Kind::Flag(&[]),
    "Read tables as routing tables: the longest prefix counts, and not the last line",
);

const LINES: Taken = (
    "lines",
    Kind::Flag(&["form"]),
    "Print lines of addresses and values, however tables are read",
);

const OBJECTS: Taken = ("json", Kind::Flag(&["form"]), "Print a JSON object a line");

const NGINX: Taken = (
    "nginx",
    Kind::Flag(&["form"]),
    "Print prefixes for a geo block of nginx",
);

const NFT: Taken = (
    "nft",
    Kind::Flag(&["form"]),
    "Print the elements of maps of nft, as the variables ipv4 and ipv6",
);

const DEFAULT: Taken = (
    "default",
    Kind::Word("VALUE"),
    "The value of all addresses that have none",
);

const IN: Taken = (
    "in",
    Kind::NeededList,
    "The list of addresses; - is standard input",
);

const VALUES: Taken = ("VALUE", Kind::Words(1, usize::MAX), "A value of the table");

pub(crate) static TABLE_COMMANDS: [Usage; 11] = [
    Usage {
        name: "merge",
        about: "Print tables as one, by its ranges; of the lines that have an address the last counts",
        takes: &[
            TABLES, CSV, DECIMAL, HEADER, STRICT, SKIP_BAD, V4, V6, LINES, OBJECTS, NGINX, NFT,
        ],
    },
    Usage {
        name: "longest",
        about: "Print routing tables as one, by its ranges; the longest prefix counts",
        takes: &[
            TABLES, CSV, DECIMAL, HEADER, STRICT, SKIP_BAD, V4, V6, LINES, OBJECTS, NGINX, NFT,
        ],
    },
    Usage {
        name: "disjoint",
        about: "Print tables as one, in the fewest prefixes that do not overlap",
        takes: &[
            TABLES, CSV, DECIMAL, HEADER, LONGEST, STRICT, SKIP_BAD, V4, V6, LINES, OBJECTS, NGINX,
            NFT,
        ],
    },
    Usage {
        name: "shortest",
        about: "Print the shortest routing table that routes alike",
        takes: &[
            TABLES, CSV, DECIMAL, HEADER, LONGEST, DEFAULT, STRICT, SKIP_BAD, V4, V6, LINES,
            OBJECTS, NGINX,
        ],
    },
    Usage {
        name: "only",
        about: "Print what a table says of the addresses of a list",
        takes: &[
            ONE_TABLE, IN, CSV, DECIMAL, HEADER, LONGEST, STRICT, SKIP_BAD, V4, V6, LINES, OBJECTS,
            NGINX, NFT,
        ],
    },
    Usage {
        name: "without",
        about: "Print what a table says of all addresses but those of a list",
        takes: &[
            ONE_TABLE, IN, CSV, DECIMAL, HEADER, LONGEST, STRICT, SKIP_BAD, V4, V6, LINES, OBJECTS,
            NGINX, NFT,
        ],
    },
    Usage {
        name: "select",
        about: "Print the addresses that have one of the values, as a list",
        takes: &[
            ONE_TABLE, CSV, DECIMAL, HEADER, LONGEST, STRICT, SKIP_BAD, V4, V6, RANGES, SINGLE,
            JSON, VALUES,
        ],
    },
    Usage {
        name: "get",
        about: "Print each address, the range around it and its value, or - and exit with 1",
        takes: &[
            ONE_TABLE, CSV, DECIMAL, HEADER, LONGEST, STRICT, SKIP_BAD, QUIET, ADDRESSES,
        ],
    },
    Usage {
        name: "values",
        about: "Print how many addresses of each family have each value",
        takes: &[
            TABLES, CSV, DECIMAL, HEADER, LONGEST, STRICT, SKIP_BAD, V4, V6,
        ],
    },
    Usage {
        name: "check",
        about: "Find out whether two tables are alike, and print the first address where not",
        takes: &[
            TWO_TABLES, CSV, DECIMAL, HEADER, LONGEST, STRICT, SKIP_BAD, V4, V6,
        ],
    },
    Usage {
        name: "diff",
        about: "Print the ranges where two tables differ, with the values of both",
        takes: &[
            TWO_TABLES, CSV, DECIMAL, HEADER, LONGEST, STRICT, SKIP_BAD, V4, V6,
        ],
    },
];
