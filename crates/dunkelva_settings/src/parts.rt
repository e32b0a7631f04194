//! The part of the rows or documents that `--partition` selects.

use crate::words::Names;
use clap::ArgMatches;
use diff_parts::part::Part;
use dunkelva_messages::error::{Error, Result};
use dunkelva_messages::names::quoted;
use dunkelva_messages::trouble;

/// Parses a text of the form `I/N`, such as `2/8` for part 2 of 8. Returns `None` if the text has
/// another form, or if there is no such part.
fn named_part(text: &str) -> Option<Part> {
    let (index, count) = text.split_once('/')?;
    match (index.parse::<u64>(), count.parse::<u64>()) {
        (Ok(index), Ok(count)) => Part::new(index, count),
        _ => None,
    }
}

/// Fails if a key column of `names` would be compared as numbers: `--numbers` is given, and
/// `--text` does not name the column. The part that a row belongs to depends on the text of its
/// key, so rows with the keys 1 and 1.0 could be in different parts.
fn refuse_numbers(matches: &ArgMatches<'_>, names: &Names<'_>) -> Result<()> {
    if !matches.get_flag("numbers") {
        return Ok(());
    }
    for key in &names.keys {
        if !names.texts.contains(key) {
            let name = quoted(str::from_utf8(key).unwrap_or("-"));
            return Err(trouble!(
                "with --partition and --numbers keys are compared as text: add --text {name}"
            ));
        }
    }
    Ok(())
}

/// Returns the error to print if the option named `option` is given with `--sorted`. A hint
/// suggests `--partition`, unless `option` is `partition`.
fn unsorted(option: &str) -> Error {
    let error = trouble!("--sorted does not go with --{option}");
    if option == "partition" {
        return error;
    }
    error.hint("use --partition for files past memory")
}

/// Fails if `--numbers`, `--partition` or an option for tolerances is given. None of them can be
/// given with `--sorted`: sorted files are compared whole, and their cells as texts.
pub fn refuse_unsorted(matches: &ArgMatches<'_>) -> Result<()> {
    if matches.get_flag("numbers") {
        return Err(unsorted("numbers"));
    }
    for option in ["partition", "tolerance", "relative-tolerance"] {
        if matches.contains_id(option) {
            return Err(unsorted(option));
        }
    }
    Ok(())
}

/// Returns the part of the rows that `--partition` selects, or `None` if the option is not given.
/// Fails if the value of the option is invalid, or if the option is given while a key column of
/// `names` is compared as numbers.
pub fn part_of_rows(matches: &ArgMatches<'_>, names: &Names<'_>) -> Result<Option<Part>> {
    if matches.contains_id("partition") {
        refuse_numbers(matches, names)?;
    }
    selected_part(matches)
}

/// Returns the part of the rows or documents that `--partition` selects, or `None` if the option is
/// not given. Fails if the value of the option is not `I/N` with I from 1 to N.
pub fn selected_part(matches: &ArgMatches<'_>) -> Result<Option<Part>> {
    let Some(text) = matches.get_str("partition") else {
        return Ok(None);
    };
    match named_part(text) {
        Some(part) => Ok(Some(part)),
        None => Err(trouble!(
            "--partition takes I/N such as 1/8, with I from 1 to N, not {}",
            quoted(text)
        )),
    }
}
