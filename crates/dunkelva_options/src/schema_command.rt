//! The command line of `dunkelva schema`.

use crate::command::{CliInput, args_of};
use crate::options::{CliOption, options};
use clap::Command;
use std::alloc::{AllocError, Global};

/// The text after the options in `dunkelva schema --help`.
const NOTES: &str = "\
Each column of a CSV file has the narrowest of the types empty, truth value,
whole number, number and text that all its values are of. A field that is empty
is missing, unless --null says that it is null; the others are its values.

Files whose names end in .ndjson or .jsonl have a JSON object in each line; files
named .json need --input. Each path in them, such as order.id or items[].price,
has the number of its values of each kind, and of the documents without it;
distinct, least and greatest are of the numbers. --null, --delimiter and
--no-header are for CSV alone, and --skip-bad is for JSON alone.

The status is 0, or 2 where the file can't be read.";

/// The options of `dunkelva diff` that `dunkelva schema` has too.
const SHARED: [&str; 6] = [
    "null",
    "delimiter",
    "no-header",
    "skip-bad",
    "input",
    "format",
];

/// The help texts of options that have another text in `dunkelva diff`.
const TEXTS: [(&str, &str); 3] = [
    (
        "input",
        "The format of the file; without it its name tells it",
    ),
    ("null", "A field that is WORD, one word, is null"),
    (
        "format",
        "Print lines to read, or a JSON object in each line",
    ),
];

/// Returns the help text that `option` has in `dunkelva schema`.
fn help_of(option: &CliOption) -> &'static str {
    for (id, text) in &TEXTS {
        if option.id == *id {
            return *text;
        }
    }
    option.help
}

/// Returns the options of `dunkelva schema`.
fn schema_options(alloc: Global) -> Result<Vec<CliOption>, AllocError> {
    let mut shared = Vec::new(alloc);
    for option in options() {
        if SHARED.contains(&option.id) {
            let help = help_of(option);
            shared.push(CliOption { help, ..*option })?;
        }
    }
    Ok(shared)
}

/// The file to read.
const FILE: CliInput = CliInput {
    id: "file",
    name: "FILE",
    help: "The file, or - for standard input",
    unless: &[],
};

/// Creates the command `dunkelva schema`, which prints the schema of a file.
pub(crate) fn schema_command<'a>(alloc: Global) -> Result<Command<'a>, AllocError> {
    let args = args_of(alloc, &[FILE], &schema_options(alloc)?)?;
    Command::new(alloc, "schema")
        .about("Says what is in a CSV or NDJSON file")
        .after_help(NOTES)
        .args(args)
}
