//! The kind of the input files, tables or documents, as file names and options give it, and checks
//! that refuse options which are for the other kind.

use clap::ArgMatches;
use dunkelva_messages::error::Result;
use dunkelva_messages::hints::{begins_with, refuse_not_text};
use dunkelva_messages::trouble;
use dunkelva_options::options::{GoesWith, Takes, options};

/// Returns whether the file name `name` ends with `extension`. The case of ASCII letters is
/// ignored.
fn has_extension(name: &str, extension: &str) -> bool {
    let (name, extension) = (name.as_bytes(), extension.as_bytes());
    if name.len() < extension.len() {
        return false;
    }
    let end = &name[name.len() - extension.len()..];
    end.eq_ignore_ascii_case(extension)
}

/// Returns whether the file name `name` ends with `.ndjson` or `.jsonl`, which says that each line
/// of the file is a JSON document.
fn names_lines(name: &str) -> bool {
    has_extension(name, ".ndjson") || has_extension(name, ".jsonl")
}

/// Returns whether the file name `name` ends with `.ndjson`, `.jsonl` or `.json`, which says that
/// the file has JSON documents.
fn names_documents(name: &str) -> bool {
    names_lines(name) || has_extension(name, ".json")
}

/// Returns whether the name of an input says nothing about its format. `name` is then `-`, which is
/// standard input, or the path of a pipe that the shell makes for `<(..)`.
fn is_nameless(name: &str) -> bool {
    name == "-" || name.starts_with("/dev/fd/") || name.starts_with("/proc/self/fd/")
}

/// Fails if the file name `name` ends with `.json`. Such a file may have a document in each line,
/// or a single document. The error says how to compare the file.
fn refuse_json(rt: &HostRuntime, name: &str) -> Result<()> {
    if !has_extension(name, ".json") {
        return Ok(());
    }
    let error = if begins_with(rt, name, b'[') {
        trouble!(
            "it is a list: make a line of each item, as jq -c '.[]' does, and give --input ndjson"
        )
    } else {
        trouble!("give --input ndjson where each line is a JSON document, as jq -c makes them")
    };
    Err(error.context(name))
}

/// Returns whether the file name `name` ends with `.csv` or `.tsv`, which says that the file is a
/// CSV file.
fn names_table(name: &str) -> bool {
    has_extension(name, ".csv") || has_extension(name, ".tsv")
}

/// Fails if the file `documents` has JSON documents by its name, and the file `other` seems to have
/// none: `other` is a CSV file by its name, or begins like a known format that is not UTF-8 text,
/// such as gzip. Reads `other` only if `documents` has JSON documents by its name and `other` does
/// not.
fn refuse_beside(rt: &HostRuntime, documents: &str, other: &str) -> Result<()> {
    if !names_documents(documents) || names_documents(other) {
        return Ok(());
    }
    refuse_not_text(rt, other)?;
    if names_table(other) {
        return Err(trouble!(
            "a CSV file and a JSON file can't be compared: if {other:?} or {documents:?} has \
             another format than its name says, give --input"
        ));
    }
    Ok(())
}

/// Fails if only one of the files `left` and `right` has JSON documents by its name, and the other
/// file is a CSV file by its name or begins like a known format that is not UTF-8 text, such as
/// gzip. If `--input` is given, nothing is refused.
pub fn refuse_two_formats(
    rt: &HostRuntime,
    matches: &ArgMatches<'_>,
    left: &str,
    right: &str,
) -> Result<()> {
    if matches.contains_id("input") {
        return Ok(());
    }
    refuse_beside(rt, left, right)?;
    refuse_beside(rt, right, left)
}

/// Returns whether the files `left` and `right` have documents instead of tables. If `--input` is
/// given, its value decides. Otherwise the file names decide: names of files of documents end with
/// `.ndjson` or `.jsonl`. Standard input and a pipe of the shell have the kind of the other file,
/// and are tables if both files are such inputs.
///
/// Fails only if `--input` is not given: if a name ends with `.json`, or if one of two file names
/// ends with `.ndjson` or `.jsonl` and the other does not.
pub fn hold_documents(
    rt: &HostRuntime,
    matches: &ArgMatches<'_>,
    left: &str,
    right: &str,
) -> Result<bool> {
    if let Some(input) = matches.get_str("input") {
        return Ok(input == "ndjson");
    }
    refuse_json(rt, left)?;
    refuse_json(rt, right)?;
    let (in_left, in_right) = (names_lines(left), names_lines(right));
    if in_left != in_right && !is_nameless(left) && !is_nameless(right) {
        let (lines, other) = if in_left {
            (left, right)
        } else {
            (right, left)
        };
        return Err(trouble!(
            "give --input ndjson if both files have JSON lines: {lines:?} says so by its name, \
             {other:?} does not"
        ));
    }
    Ok(in_left || in_right)
}

/// Returns the name of the first given option that is only for files of the kind `kind`, or `None`
/// if there is none. If `takes_value` is true, only options that take a value are examined, and
/// else only options that take none.
fn given_of(matches: &ArgMatches<'_>, kind: GoesWith, takes_value: bool) -> Option<&'static str> {
    for option in options() {
        let is_given = match option.takes {
            Takes::Nothing => !takes_value && matches.get_flag(option.id),
            _ => takes_value && matches.contains_id(option.id),
        };
        if is_given && option.goes_with == kind {
            return Some(option.id);
        }
    }
    None
}

/// Fails if an option is given that is only for tables. Of several such options, the error names
/// one that takes a value, if there is one.
pub fn refuse_table_options(matches: &ArgMatches<'_>) -> Result<()> {
    let tables = GoesWith::Tables;
    match given_of(matches, tables, true).or(given_of(matches, tables, false)) {
        Some(option) => Err(trouble!("--{option} is for CSV files alone")),
        None => Ok(()),
    }
}

/// Fails if an option is given that is only for documents. Of several such options, the error names
/// one that takes no value, if there is one.
pub fn refuse_document_options(matches: &ArgMatches<'_>) -> Result<()> {
    let documents = GoesWith::Documents;
    match given_of(matches, documents, false).or(given_of(matches, documents, true)) {
        Some(option) => Err(trouble!("--{option} is for JSON documents alone")),
        None => Ok(()),
    }
}

/// Returns the delimiter for the CSV files `left` and `right` if `--delimiter` is not given: a tab
/// if a name ends with `.tsv`, and else a comma. Standard input and a pipe of the shell have the
/// delimiter of the other file. Fails if only one of two file names ends with `.tsv`.
pub(crate) fn usual_delimiter(left: &str, right: &str) -> Result<u8> {
    let (in_left, in_right) = (has_extension(left, ".tsv"), has_extension(right, ".tsv"));
    if in_left != in_right && !is_nameless(left) && !is_nameless(right) {
        return Err(trouble!(
            "convert one of the files, or give --delimiter: by their names {left:?} and {right:?} \
             have two delimiters, and both are read with one"
        ));
    }
    if in_left || in_right {
        Ok(b'\t')
    } else {
        Ok(b',')
    }
}
