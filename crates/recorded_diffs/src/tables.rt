//! Cases of tables.

use crate::case::{outcome_word, write_answer};
use crate::words::{format_of, is_given, names_of, value_of};
use anyhow::Result;
use diff_columns::choice::Choice;
use diff_csv::options::CsvOptions;
use diff_run::options::Options;
use diff_run::run::{Input, run};
use std::alloc::Global;

/// Compares the CSV tables `left` and `right`, with the columns and settings that `options` give,
/// and returns as text the outcome or the error, and the bytes of the report.
pub(crate) fn answer_tables(
    alloc: Global,
    options: &[&str],
    left: &[u8],
    right: &[u8],
) -> Result<String> {
    let keys = names_of(alloc, options, "key")?;
    let only = names_of(alloc, options, "only")?;
    let ignored = names_of(alloc, options, "ignore")?;
    let has_only = value_of(options, "only").is_some();
    let choice = Choice {
        keys: &keys,
        only: has_only.then_some(only.as_slice()),
        ignored: &ignored,
    };
    answer_choice(alloc, options, choice, left, right)
}

/// Compares the CSV tables `left` and `right` in the columns that `choice` selects. `options` has
/// the other settings, such as `common`. Returns as text the outcome or the error, and the bytes of
/// the report.
fn answer_choice(
    alloc: Global,
    options: &[&str],
    choice: Choice<'_>,
    left: &[u8],
    right: &[u8],
) -> Result<String> {
    let options = Options {
        choice,
        csv: CsvOptions {
            delimiter: b',',
            has_header: true,
        },
        numbers: None,
        tolerances: None,
        part: None,
        null: None,
        limit: 20,
        common: is_given(options, "common"),
        unique: is_given(options, "unique"),
        format: format_of(options),
        colored: false,
    };
    answer_run(alloc, &options, left, right)
}

/// Compares the texts `left` and `right` with `options`, and returns as text the outcome or the
/// error, and the bytes of the report.
fn answer_run(alloc: Global, options: &Options<'_>, left: &[u8], right: &[u8]) -> Result<String> {
    let left = Input {
        name: b"old.csv",
        reader: left,
    };
    let right = Input {
        name: b"new.csv",
        reader: right,
    };
    let mut written = Vec::new(alloc);
    match run(alloc, left, right, &mut written, options) {
        Ok(outcome) => write_answer(alloc, outcome_word(outcome), &written),
        Err(error) => write_answer(alloc, &error.to_string(alloc)?, &written),
    }
}
