//! The parser of the command line.

use crate::options::{CliOption, Takes, options};
use crate::schema_command::schema_command;
use clap::builder::ValueParser;
use clap::{Arg, ArgAction, Command};
use std::alloc::{AllocError, Global};

/// The version of the program. `CHANGELOG.md` lists the changes of each version.
const VERSION: &str = "0.1.0";

/// The text after the options in `dunkelva diff --help`.
const NOTES: &str = "\
Files whose names end in .ndjson or .jsonl have a JSON object in each line, and
others are CSV; files named .json need --input. For JSON, --key takes paths such
as order.id or items[0].sku. --only, --ignore and the two tolerances take paths
in which [] is every item, as items[].price; a path there that no document has
is only a warning. --common, --numbers, --text, --null, --delimiter, --no-header
and --sorted are for CSV alone; --missing-is-null, --no-key-is-null and
--skip-bad are for JSON alone.

The status is 0 where the files are the same, 1 where they differ, and 2 where
they can't be compared.";

/// Returns what the parser does with the values of an option that takes `takes`. An option that
/// takes `Texts` or a `List` may be given several times.
fn action_of(takes: Takes) -> ArgAction {
    match takes {
        Takes::Nothing => ArgAction::SetTrue,
        Takes::Texts | Takes::List => ArgAction::Append,
        _ => ArgAction::Set,
    }
}

/// Returns the parser of the values of an option that takes `takes`.
fn parser_of(takes: Takes) -> ValueParser<'static> {
    match takes {
        Takes::Nothing => ValueParser::bool(),
        Takes::Word(words) => ValueParser::from(words),
        _ => ValueParser::string(),
    }
}

/// Creates the argument by which the parser reads `option`. The parser does not check the fields
/// `refuses` and `goes_with`. A number may be negative.
fn arg_of<'a>(alloc: Global, option: &CliOption) -> Result<Arg<'a>, AllocError> {
    let arg = Arg::new(alloc, option.id)
        .long(option.id)
        .value_name(option.value)
        .help(option.help)
        .action(action_of(option.takes))
        .value_parser(parser_of(option.takes))
        .allow_negative_numbers(matches!(option.takes, Takes::Number))
        .default_values(option.default)
        .conflicts_with_all(option.excludes)?
        .requires_all(option.needs)?;
    match option.short {
        Some(letter) => Ok(arg.short(letter)),
        None => Ok(arg),
    }
}

/// A positional argument for an input, which is a file or standard input.
pub(crate) struct CliInput {
    /// The name by which the argument is found after parsing.
    pub(crate) id: &'static str,
    /// The name in the help text.
    pub(crate) name: &'static str,
    /// The description in the help text.
    pub(crate) help: &'static str,
    /// The options in place of which the argument may be left out. If there are none, the argument
    /// is required.
    pub(crate) unless: &'static [&'static str],
}

/// Creates the positional argument by which the parser reads `input`.
fn input_of<'a>(alloc: Global, input: &CliInput) -> Result<Arg<'a>, AllocError> {
    Arg::new(alloc, input.id)
        .value_name(input.name)
        .help(input.help)
        .required(input.unless.is_empty())
        .required_unless_present_any(input.unless)
}

/// Creates the arguments by which the parser reads `inputs` and `options`, in order.
pub(crate) fn args_of<'a>(
    alloc: Global,
    inputs: &[CliInput],
    options: &[CliOption],
) -> Result<Vec<Arg<'a>>, AllocError> {
    let mut args = Vec::new(alloc);
    for input in inputs {
        args.push(input_of(alloc, input)?)?;
    }
    for option in options {
        args.push(arg_of(alloc, option)?)?;
    }
    Ok(args)
}

/// The input files of `dunkelva diff`.
const INPUTS: [CliInput; 2] = [
    CliInput {
        id: "left",
        name: "LEFT",
        help: "The first file, or - for standard input",
        unless: &["config"],
    },
    CliInput {
        id: "right",
        name: "RIGHT",
        help: "The second file, or - for standard input",
        unless: &["config"],
    },
];

/// Creates the command `dunkelva diff`, which compares two files.
fn diff<'a>(alloc: Global) -> Result<Command<'a>, AllocError> {
    let args = args_of(alloc, &INPUTS, options())?;
    Command::new(alloc, "diff")
        .about("Compares two CSV or NDJSON files by key, and prints what differs")
        .after_help(NOTES)
        .args(args)
}

/// Creates the parser of the program's command line, with the subcommands `diff` and `schema`.
pub fn command<'a>(alloc: Global) -> Result<Command<'a>, AllocError> {
    let diff = diff(alloc)?;
    let schema = schema_command(alloc)?;
    Command::new(alloc, "dunkelva")
        .version(VERSION)
        .about("Compares tables and documents exactly")
        .subcommand_required(true)
        .arg_required_else_help(true)
        .subcommand(diff)?
        .subcommand(schema)
}
