//! The errors to print if files can't be compared. Lines and columns of a text count from 1.

use crate::columns::{column_name, columns_hint};
use crate::document_key::document_key;
use crate::key_columns::{row_key, sort_command};
use diff_columns::error::{ColumnError, Side};
use diff_csv::error::CsvError;
use diff_csv::options::CsvOptions;
use diff_run::error::{ChoiceError, NameList, RunError};
use diff_run::options::Options;
use diff_sorted::error::SortedError;
use diff_tolerances::cells::Tolerance;
use document_rows::error::{LineFault, ReadError};
use document_run::error::DocumentError;
use document_run::options::DocumentOptions;
use dunkelva_messages::error::{About, Error, Lengths};
use dunkelva_messages::files::open_again;
use dunkelva_messages::hints::{begins_with, first_line_hint};
use dunkelva_messages::members::members_hint;
use dunkelva_messages::names::quoted;
use dunkelva_messages::trouble;
use dunkelva_settings::rules::{ABSOLUTE, RELATIVE};
use json_tolerances::closeness::Margin;
use schema_paths::error::SchemaError;
use std::io::ErrorKind;

/// Returns the name of the input on the side `side`. `names` are the names of the left and the
/// right input.
fn file_of<'a>(names: (&'a str, &'a str), side: Side) -> &'a str {
    match side {
        Side::Left => names.0,
        Side::Right => names.1,
    }
}

/// Returns the name of the left input if this input can be read again, and else the name of the
/// right one. `names` are both names.
fn stored_of<'a>(rt: &HostRuntime, names: (&'a str, &'a str)) -> &'a str {
    if open_again(rt, names.0).is_some() {
        names.0
    } else {
        names.1
    }
}

/// Returns the error for a record at the line `line` that has `found` fields, while the first
/// record has `expected`. `csv` says whether the first record is a header.
fn other_length(line: u64, found: u64, expected: u64, csv: CsvOptions) -> Error {
    let first = if csv.has_header {
        "header"
    } else {
        "first record"
    };
    let fields = if found == 1 { "field" } else { "fields" };
    trouble!("line {line} has {found} {fields}, the {first} has {expected}")
}

/// Returns the error to print for `cause`, an error in reading a CSV file with the options `csv`.
/// Errors for a record of another length and for an open quote are marked with their cause, so that
/// a hint can be added later. A read that failed with `InvalidData` means that the file begins like
/// a JSON document.
pub fn csv_trouble(cause: &CsvError, csv: CsvOptions) -> Error {
    match cause {
        CsvError::Length {
            line,
            expected,
            found,
        } => other_length(*line, *found, *expected, csv).about(About::Lengths(Lengths {
            line: *line,
            expected: *expected,
            found: *found,
            delimiter: csv.delimiter,
        })),
        CsvError::OpenQuote { .. } => trouble!("{cause}").about(About::Records),
        CsvError::Read { cause } if cause.kind() == ErrorKind::InvalidData => trouble!(
            "it looks like JSON lines: give --input ndjson, or --input csv if it is CSV"
        ),
        other => trouble!("{other}"),
    }
}

/// Returns a name as text, or `-` if it is not UTF-8.
fn text_of(name: &[u8]) -> &str {
    str::from_utf8(name).unwrap_or("-")
}

/// Returns whether `file` is a regular file of 0 bytes that can be read again.
fn is_empty(rt: &HostRuntime, file: &str) -> bool {
    open_again(rt, file).is_some_and(|source| source.size() == Some(0))
}

/// The hint for an input that lacks a key column and can't be read again.
const UNSEEN: &str = "its columns are shown only for a file, and JSON lines need --input ndjson";

/// Returns the error for `file`, which lacks the key column at the index `key` of the keys in
/// `options`. A hint says what is wrong with the file, or lists its columns if these can be read
/// again. If the file begins with `{`, the error has the cause `Records` and no hint yet: one is
/// added later.
fn no_key(rt: &HostRuntime, file: &str, key: usize, options: &Options<'_>) -> Error {
    let Some(name) = options.choice.keys.get(key) else {
        return trouble!("a key column is missing");
    };
    let name = text_of(name);
    let error = trouble!("no column is named {}", quoted(name));
    if open_again(rt, file).is_none() {
        return error.hint(UNSEEN);
    }
    if begins_with(rt, file, b'{') {
        return error.about(About::Records);
    }
    if is_empty(rt, file) {
        return error.hint("the file is empty");
    }
    if let Some(hint) = first_line_hint(rt, file) {
        return error.hint(hint);
    }
    match columns_hint(rt, file, options.csv, name, false) {
        Some(hint) => error.hint(hint),
        None => error,
    }
}

/// Returns the name of the option that gives `tolerance`: `ABSOLUTE` or `RELATIVE`.
fn option_of(tolerance: &Tolerance<'_>) -> &'static str {
    match tolerance.margin {
        Margin::Absolute(_) => ABSOLUTE,
        Margin::Relative(_) => RELATIVE,
    }
}

/// Returns the name of the option that gives the list `list`, and the names in the list. For
/// tolerances, which two options give, returns `ABSOLUTE` and no names.
fn names_in<'a>(list: NameList, options: &Options<'a>) -> (&'static str, &'a [&'a [u8]]) {
    match list {
        NameList::Only => ("only", options.choice.only.unwrap_or(&[])),
        NameList::Ignored => ("ignore", options.choice.ignored),
        NameList::Texts => ("text", options.numbers.unwrap_or(&[])),
        NameList::Tolerances => (ABSOLUTE, &[]),
    }
}

/// Returns the error for the name `name` in the option named `option`, which is not the name of a
/// column of either file. A hint lists the columns of `file`, if `file` can be read again.
fn unknown_column(
    rt: &HostRuntime,
    file: &str,
    option: &str,
    name: &str,
    csv: CsvOptions,
) -> Error {
    let error = trouble!(
        "--{option}: neither file has a column named {}",
        quoted(name)
    );
    match columns_hint(rt, file, csv, name, true) {
        Some(hint) => error.hint(hint),
        None => error,
    }
}

/// Returns the error for a tolerance for a column that neither file has. `place` is the index of
/// the tolerance in `options`. A hint lists the columns of `file`, if `file` can be read again.
fn no_tolerance_column(rt: &HostRuntime, file: &str, place: usize, options: &Options<'_>) -> Error {
    let tolerances = options.tolerances.unwrap_or(&[]);
    match tolerances.get(place) {
        Some(tolerance) => {
            let name = text_of(tolerance.column);
            unknown_column(rt, file, option_of(tolerance), name, options.csv)
        }
        None => trouble!("--{ABSOLUTE}: neither file has a column of this name"),
    }
}

/// Returns the error for the name at the index `place` of the list `list`, which is not the name of
/// a column of either file. A hint lists the columns of `file`, if `file` can be read again.
fn no_column(
    rt: &HostRuntime,
    file: &str,
    list: NameList,
    place: usize,
    options: &Options<'_>,
) -> Error {
    if let NameList::Tolerances = list {
        return no_tolerance_column(rt, file, place, options);
    }
    let (option, names) = names_in(list, options);
    match names.get(place) {
        Some(name) => unknown_column(rt, file, option, text_of(name), options.csv),
        None => trouble!("--{option}: neither file has a column of this name"),
    }
}

/// Returns `error` with the hint `hint` added, or unchanged if `hint` is `None`.
fn with_hint(error: Error, hint: Option<String>) -> Error {
    match hint {
        Some(hint) => error.hint(hint),
        None => error,
    }
}

/// Returns the error for two rows or documents with the same key, at the lines `first` and `again`.
/// If `key`, the key as text, is given, it becomes the hint. The cause of the error is `OneKey`.
fn one_key(first: u64, again: u64, key: Option<String>) -> Error {
    with_hint(trouble!("lines {first} and {again} have the same key"), key).about(About::OneKey)
}

/// Returns the error for two rows of `file` with the same key, at the lines `first` and `again`.
/// The error names the file. If the row can be read again, the key becomes the hint.
fn rows_of_one_key(
    rt: &HostRuntime,
    file: &str,
    first: u64,
    again: u64,
    options: &Options<'_>,
) -> Error {
    one_key(first, again, row_key(rt, file, first, options)).context(file)
}

/// Returns the error for a number at the line `line`, in the column `name`, that has an exponent of
/// more than 30 digits.
fn wide_exponent(line: u64, name: &[u8]) -> Error {
    trouble!(
        "line {line}: a number in column {:?} has an exponent of more than 30 digits: see --text",
        text_of(name)
    )
}

/// Returns the error for the column at the index `column` of `file`, from 0, which has the name of
/// an earlier column. If the name can be read again, a hint gives it. If `file` also begins with
/// `{`, the error is instead marked as one of a file that is not CSV.
fn name_twice(rt: &HostRuntime, file: &str, column: usize, options: &Options<'_>) -> Error {
    let number = column.saturating_add(1);
    let error = trouble!("column {number} has the name of an earlier column");
    match column_name(rt, file, options.csv, column) {
        Some(_) if begins_with(rt, file, b'{') => error.about(About::Records),
        Some(name) => error.hint(quoted(&name)),
        None => error,
    }
}

/// Returns the error to print for `cause`, the reason why the columns of the files `names` can't be
/// matched. The error names the file, unless memory ran out.
fn columns_trouble(
    rt: &HostRuntime,
    cause: ColumnError,
    names: (&str, &str),
    options: &Options<'_>,
) -> Error {
    match cause {
        ColumnError::NameTwice { side, column } => {
            let file = file_of(names, side);
            name_twice(rt, file, column, options).context(file)
        }
        ColumnError::NoKey { side, key } => {
            let file = file_of(names, side);
            no_key(rt, file, key, options).context(file)
        }
        ColumnError::Memory => trouble!("out of memory"),
    }
}

/// Returns the error to print for `error`, which occurred in a comparison of the tables named
/// `names`. If `error` is about one of the two files, the returned error names this file.
pub fn table_trouble(
    rt: &HostRuntime,
    error: &RunError,
    names: (&str, &str),
    options: &Options<'_>,
) -> Error {
    match error {
        RunError::Csv { side, cause } => {
            csv_trouble(cause, options.csv).context(file_of(names, *side))
        }
        RunError::KeyTwice { side, first, again } => {
            rows_of_one_key(rt, file_of(names, *side), *first, *again, options)
        }
        RunError::WideExponent { side, line, name } => {
            wide_exponent(*line, name).context(file_of(names, *side))
        }
        RunError::Columns { cause } => columns_trouble(rt, *cause, names, options),
        RunError::Choice {
            cause: ChoiceError::NoColumn { list, name },
        } => no_column(rt, stored_of(rt, names), *list, *name, options),
        other => trouble!("{other}"),
    }
}

/// Returns the error for the row of `file` at the line `line`, which has a lesser key than the row
/// before it. A hint gives a command that sorts the file. The error names the file.
fn lesser_key(rt: &HostRuntime, file: &str, line: u64, options: &Options<'_>) -> Error {
    let error = trouble!("the row at line {line} has a lesser key than the row before it");
    let error = match sort_command(rt, file, options) {
        Some(command) => error.hint(format_args!(
            "sort by the bytes of the key, as {command} does where no cell is in quotes"
        )),
        None => error.hint("sort by the bytes of the key, as LC_ALL=C sort does"),
    };
    error.context(file)
}

/// Returns the error to print for `error`, which occurred in a comparison of the sorted tables
/// named `names`. For a row whose key is less than the key before it, or comes twice, the returned
/// error names the file.
pub fn sorted_trouble(
    rt: &HostRuntime,
    error: &SortedError,
    names: (&str, &str),
    options: &Options<'_>,
) -> Error {
    match error {
        SortedError::Falls { side, line } => {
            lesser_key(rt, file_of(names, *side), *line, options)
        }
        SortedError::KeyTwice { side, first, again } => {
            rows_of_one_key(rt, file_of(names, *side), *first, *again, options)
        }
        other => trouble!("{other}"),
    }
}

/// Returns the error that says why a line can't be used as a document. `fault` is the reason.
/// `keys` are the paths of the key, as text.
fn fault_text(fault: LineFault, keys: &[&[u8]]) -> Error {
    match fault {
        LineFault::NoPart { key } => match keys.get(key) {
            Some(name) => trouble!("the key {} is missing", quoted(text_of(name))),
            None => trouble!("a key is missing"),
        },
        LineFault::Invalid => trouble!("not valid JSON"),
        LineFault::NoObject => trouble!("not a JSON object"),
        other => trouble!("{other}"),
    }
}

/// Returns the error for the line `line`, which is not a document for the reason `fault`. `column`
/// is the place of the fault in the line, from 1, if it is known. `keys` are the paths of the key,
/// as text. If the line is not a JSON object and `column` is known, the error is marked with this
/// place, so that a hint can be added later.
fn line_trouble(line: u64, column: Option<u64>, fault: LineFault, keys: &[&[u8]]) -> Error {
    let text = fault_text(fault, keys);
    let Some(column) = column else {
        return trouble!("line {line}: {text}");
    };
    let error = trouble!("line {line}, column {column}: {text}");
    match fault {
        LineFault::Invalid | LineFault::NoObject => error.about(About::Line { line, column }),
        _ => error,
    }
}

/// Returns the error to print for `cause`, an error in reading a file of documents. `keys` are the
/// paths of the key, as text.
fn read_trouble(cause: &ReadError, keys: &[&[u8]]) -> Error {
    match cause {
        ReadError::Line {
            line,
            column,
            fault,
        } => line_trouble(*line, *column, *fault, keys),
        other => trouble!("{other}"),
    }
}

/// The message for a file of which `--skip-bad` would skip every line.
const ALL_SKIPPED: &str = "--skip-bad would skip every line";

/// Returns the error to print for `error`, the reason why the schema of a file of documents can't
/// be read.
pub fn schema_trouble(error: &SchemaError) -> Error {
    match error {
        SchemaError::Read { cause } => read_trouble(cause, &[]),
        SchemaError::AllSkipped => trouble!("{ALL_SKIPPED}"),
        SchemaError::Memory => trouble!("out of memory"),
    }
}

/// Returns a hint about the missing part, if `cause` is that a document of `file` lacks a part of
/// the key. The hint usually lists the names in the document (`members_hint`). `keys` are the paths
/// of the key, as text. Returns `None` for other causes, or if there is no hint.
fn key_hint(rt: &HostRuntime, file: &str, cause: &ReadError, keys: &[&[u8]]) -> Option<String> {
    match cause {
        ReadError::Line {
            line,
            fault: LineFault::NoPart { key },
            ..
        } => members_hint(rt, file, *line, text_of(keys.get(*key)?)),
        _ => None,
    }
}

/// Returns the error to print for `cause`, an error in reading the documents of `file`. The error
/// names the file, and has a hint if a part of the key is missing (`key_hint`). `keys` are the
/// paths of the key, as text.
fn unread(rt: &HostRuntime, file: &str, cause: &ReadError, keys: &[&[u8]]) -> Error {
    with_hint(read_trouble(cause, keys), key_hint(rt, file, cause, keys)).context(file)
}

/// Returns the error to print for `error`, which occurred in a comparison of the files of documents
/// named `names`. If `error` is about one of the two files, the returned error names this file.
pub fn document_trouble(
    rt: &HostRuntime,
    error: &DocumentError,
    names: (&str, &str),
    options: &DocumentOptions<'_>,
) -> Error {
    match error {
        DocumentError::Read { side, cause } => {
            unread(rt, file_of(names, *side), cause, options.names)
        }
        DocumentError::KeyTwice { side, first, again } => {
            let file = file_of(names, *side);
            let key = document_key(rt, file, *first, options.keys);
            one_key(*first, *again, key).context(file)
        }
        DocumentError::AllSkipped { side } => {
            trouble!("{ALL_SKIPPED}").context(file_of(names, *side))
        }
        other => trouble!("{other}"),
    }
}
