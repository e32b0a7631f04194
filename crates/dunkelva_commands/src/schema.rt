//! The command `dunkelva schema FILE`, which prints the schema of a file.

use crate::outputs::refuse_own_output;
use crate::tasks::open_for;
use clap::ArgMatches;
use diff_csv::options::CsvOptions;
use dunkelva_diagnostics::trouble::{csv_trouble, schema_trouble};
use dunkelva_messages::error::Result;
use dunkelva_messages::files::open;
use dunkelva_messages::trouble;
use dunkelva_settings::kinds::hold_documents;
use dunkelva_settings::schemas::{null_in, refuse_of_documents, refuse_of_tables};
use dunkelva_settings::words::csv_options;
use schema_documents::said as documents;
use schema_run::said::{Form, push_schema_of};
use std::io;
use std::io::{ErrorKind, Write};

/// The exit status if standard output is a closed pipe.
const TROUBLE: u8 = 2;

/// Returns the format of the output: JSON with `--format json`, and else text.
pub(crate) fn form_in(matches: &ArgMatches<'_>) -> Form {
    if matches.get_str("format") == Some("json") {
        Form::Json
    } else {
        Form::Text
    }
}

/// Prints `text` on standard output, and returns `status`. If standard output is a closed pipe,
/// prints no error and returns 2. Fails if the output fails for another reason.
pub(crate) fn print_text(rt: &HostRuntime, text: &[u8], status: u8) -> Result<u8> {
    let mut out = io::writer(rt);
    match out.write_all(text) {
        Ok(()) => Ok(status),
        Err(cause) if cause.kind() == ErrorKind::BrokenPipe => Ok(TROUBLE),
        Err(cause) => Err(trouble!("{cause}").context("standard output")),
    }
}

/// Reads the file `file` of JSON documents, and returns the schema of the documents' paths, written
/// as text or as JSON (`form_in`). Fails if an option is given that is only for CSV files, or if
/// the schema can't be read.
fn documents_text(rt: &HostRuntime, matches: &ArgMatches<'_>, file: &str) -> Result<Vec<u8>> {
    refuse_of_tables(matches)?;
    let reader = open(rt, file, false)?;
    let mut text = Vec::new(rt.alloc());
    let (name, form) = (file.as_bytes(), form_in(matches));
    let skip_bad = matches.get_flag("skip-bad");
    match documents::push_schema_of(rt.alloc(), &mut text, name, reader, skip_bad, form) {
        Ok(()) => Ok(text),
        Err(error) => Err(schema_trouble(&error).context(file)),
    }
}

/// Reads the CSV file `file` with `options`, and returns the schema of its columns, written as text
/// or as JSON (`form_in`). Fails if the schema can't be read. Unless `--input` is given, also fails
/// if the file begins like a JSON document.
fn schema_text(
    rt: &HostRuntime,
    matches: &ArgMatches<'_>,
    file: &str,
    options: CsvOptions,
) -> Result<Vec<u8>> {
    let reader = open_for(rt, file, false, matches.contains_id("input"))?;
    let mut text = Vec::new(rt.alloc());
    let (name, null, form) = (file.as_bytes(), null_in(matches), form_in(matches));
    match push_schema_of(rt.alloc(), &mut text, name, reader, options, null, form) {
        Ok(()) => Ok(text),
        Err(error) => Err(csv_trouble(&error, options).context(file)),
    }
}

/// Prints the schema of the file given as argument, or of standard input. Returns the exit status:
/// 0, or 2 if standard output is a closed pipe. Fails if standard output is this file, if the kind
/// of the file is unclear (`hold_documents`), if an option does not fit this kind or is invalid, or
/// if the schema can't be read or printed.
pub(crate) fn show_schema(rt: &HostRuntime, matches: &ArgMatches<'_>) -> Result<u8> {
    let file = matches.get_str("file").unwrap_or("-");
    refuse_own_output(rt, &[file])?;
    if hold_documents(rt, matches, file, file)? {
        let text = documents_text(rt, matches, file)?;
        return print_text(rt, &text, 0);
    }
    refuse_of_documents(matches)?;
    let options = csv_options(matches, file, file)?;
    let text = schema_text(rt, matches, file, options)?;
    print_text(rt, &text, 0)
}
