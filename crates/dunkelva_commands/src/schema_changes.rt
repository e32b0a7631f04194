//! The command `dunkelva diff --schema-only LEFT RIGHT`, which compares the schemas of two files.

use crate::outputs::refuse_own_output;
use crate::schema::{form_in, print_text};
use crate::tasks::open_for;
use clap::ArgMatches;
use diff_csv::options::CsvOptions;
use dunkelva_diagnostics::trouble::{csv_trouble, schema_trouble};
use dunkelva_messages::error::Result;
use dunkelva_messages::files::open;
use dunkelva_messages::trouble;
use dunkelva_settings::kinds::hold_documents;
use dunkelva_settings::schemas::{null_in, refuse_of_documents, refuse_of_tables, refuse_others};
use dunkelva_settings::words::csv_options;
use schema_documents::changes_json::push_document_objects;
use schema_documents::changes_text::push_document_lines;
use schema_paths::read::{DocumentSchema, read_document_schema};
use schema_report::changes::{SchemaCounts, counts_of};
use schema_report::changes_json::push_column_objects;
use schema_report::changes_text::push_column_lines;
use schema_report::files::Files;
use schema_run::read::{TableSchema, read_schema};
use schema_run::said::Form;

/// Reads the CSV file `file` with `options`, and returns the schemas of its columns. `has_stdin`
/// says whether one of the two inputs is standard input. Fails if the schema can't be read. Unless
/// `--input` is given, also fails if the file begins like a JSON document.
fn columns_in(
    rt: &HostRuntime,
    matches: &ArgMatches<'_>,
    file: &str,
    options: CsvOptions,
    has_stdin: bool,
) -> Result<TableSchema> {
    let reader = open_for(rt, file, has_stdin, matches.contains_id("input"))?;
    match read_schema(rt.alloc(), reader, options, null_in(matches)) {
        Ok(schema) => Ok(schema),
        Err(error) => Err(csv_trouble(&error, options).context(file)),
    }
}

/// Reads the file `file` of JSON documents, and returns the schemas of their paths. `has_stdin`
/// says whether one of the two inputs is standard input. Fails if the schema can't be read.
fn paths_in(
    rt: &HostRuntime,
    matches: &ArgMatches<'_>,
    file: &str,
    has_stdin: bool,
) -> Result<DocumentSchema> {
    let reader = open(rt, file, has_stdin)?;
    match read_document_schema(rt.alloc(), reader, matches.get_flag("skip-bad")) {
        Ok(schema) => Ok(schema),
        Err(error) => Err(schema_trouble(&error).context(file)),
    }
}

/// Returns the file names `left` and `right` as bytes.
fn names_of<'a>(left: &'a str, right: &'a str) -> Files<'a> {
    Files {
        left: left.as_bytes(),
        right: right.as_bytes(),
    }
}

/// Returns the exit status for schemas with `counts` differences: 0 if nothing was changed, removed
/// or added, and else 1.
fn status_of(counts: SchemaCounts) -> u8 {
    if counts.changed == 0 && counts.removed == 0 && counts.added == 0 {
        0
    } else {
        1
    }
}

/// Prints the differences between the schemas `before` and `after` of two tables in the format
/// `form`, and returns the exit status. `files` are the names of the tables' files. Fails if the
/// output fails, except at a closed pipe, which gives the status 2.
fn print_columns(
    rt: &HostRuntime,
    form: Form,
    files: Files<'_>,
    before: &TableSchema,
    after: &TableSchema,
) -> Result<u8> {
    let (before, after) = (before.columns.as_slice(), after.columns.as_slice());
    let mut text = Vec::new(rt.alloc());
    match form {
        Form::Text => push_column_lines(&mut text, files, before, after)?,
        Form::Json => push_column_objects(&mut text, before, after)?,
    }
    print_text(rt, &text, status_of(counts_of(before, after)))
}

/// Compares the schemas of the columns of the CSV files `left` and `right`, prints the differences,
/// and returns the exit status. `has_stdin` says whether one of the files is standard input. Fails
/// if an option is given that is only for documents, if the delimiter is invalid or unclear
/// (`csv_options`), or if reading or printing fails.
fn compare_columns(
    rt: &HostRuntime,
    matches: &ArgMatches<'_>,
    left: &str,
    right: &str,
    has_stdin: bool,
) -> Result<u8> {
    refuse_of_documents(matches)?;
    let options = csv_options(matches, left, right)?;
    let before = columns_in(rt, matches, left, options, has_stdin)?;
    let after = columns_in(rt, matches, right, options, has_stdin)?;
    let files = names_of(left, right);
    print_columns(rt, form_in(matches), files, &before, &after)
}

/// Prints the differences between the schemas `before` and `after` of two files of documents in the
/// format `form`, and returns the exit status. `files` are the names of the files. Fails if the
/// output fails, except at a closed pipe, which gives the status 2.
fn print_paths(
    rt: &HostRuntime,
    form: Form,
    files: Files<'_>,
    before: &DocumentSchema,
    after: &DocumentSchema,
) -> Result<u8> {
    let mut text = Vec::new(rt.alloc());
    match form {
        Form::Text => push_document_lines(&mut text, files, before, after)?,
        Form::Json => push_document_objects(&mut text, before, after)?,
    }
    print_text(rt, &text, status_of(counts_of(&before.paths, &after.paths)))
}

/// Compares the schemas of the paths in the files of documents `left` and `right`, prints the
/// differences, and returns the exit status. `has_stdin` says whether one of the files is standard
/// input. Fails if an option is given that is only for CSV files, or if reading or printing fails.
fn compare_paths(
    rt: &HostRuntime,
    matches: &ArgMatches<'_>,
    left: &str,
    right: &str,
    has_stdin: bool,
) -> Result<u8> {
    refuse_of_tables(matches)?;
    let before = paths_in(rt, matches, left, has_stdin)?;
    let after = paths_in(rt, matches, right, has_stdin)?;
    let files = names_of(left, right);
    print_paths(rt, form_in(matches), files, &before, &after)
}

/// Compares the schemas of the files `left` and `right`, prints the differences, and returns the
/// exit status. Fails if an option is invalid or does not go with `--schema-only` or the files, if
/// both files are standard input, if one of them is standard output, if their kind is unclear
/// (`hold_documents`), or if reading or printing fails.
pub(crate) fn compare_schemas(
    rt: &HostRuntime,
    matches: &ArgMatches<'_>,
    left: &str,
    right: &str,
) -> Result<u8> {
    refuse_others(matches)?;
    if left == "-" && right == "-" {
        return Err(trouble!("only one of the two files can be standard input"));
    }
    refuse_own_output(rt, &[left, right])?;
    let has_stdin = left == "-" || right == "-";
    if hold_documents(rt, matches, left, right)? {
        return compare_paths(rt, matches, left, right, has_stdin);
    }
    compare_columns(rt, matches, left, right, has_stdin)
}
