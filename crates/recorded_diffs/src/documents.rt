//! Cases of documents.

use crate::case::{outcome_word, write_answer};
use crate::words::{format_of, is_given};
use anyhow::{Context, Result};
use diff_run::run::Input;
use document_rows::reading::Reading;
use document_run::options::DocumentOptions;
use document_run::run::run_documents;
use json_changes::changes::Rules;
use json_paths::parse::parse_path;
use std::alloc::Global;

/// Compares the documents of the texts `left` and `right`, and returns as text the outcome or the
/// error, and the bytes of the report. `words` are the path of the key and the options. Returns an
/// error if there is no path, or if the path cannot be parsed.
pub(crate) fn answer_documents(
    alloc: Global,
    words: &[&str],
    left: &[u8],
    right: &[u8],
) -> Result<String> {
    let (key, options) = words.split_first().context("no key")?;
    let mut keys = Vec::new(alloc);
    let mut names = Vec::new(alloc);
    keys.push(parse_path(alloc, key)?)?;
    names.push(key.as_bytes())?;
    let rules = Rules {
        ignored: Vec::new(alloc),
        only: Vec::new(alloc),
        missing_is_null: false,
        tolerances: Vec::new(alloc),
    };
    let options = DocumentOptions {
        keys: &keys,
        names: &names,
        reading: Reading {
            null_keys: false,
            skip_bad: is_given(options, "skip-bad"),
            part: None,
        },
        rules: &rules,
        limit: 20,
        unique: is_given(options, "unique"),
        format: format_of(options),
        colored: false,
    };
    answer_run(alloc, &options, left, right)
}

/// Compares the texts `left` and `right` with `options`, and returns as text the outcome or the
/// error, and the bytes of the report.
fn answer_run(
    alloc: Global,
    options: &DocumentOptions<'_>,
    left: &[u8],
    right: &[u8],
) -> Result<String> {
    let left = Input {
        name: b"old.ndjson",
        reader: left,
    };
    let right = Input {
        name: b"new.ndjson",
        reader: right,
    };
    let mut written = Vec::new(alloc);
    match run_documents(alloc, left, right, &mut written, options) {
        Ok(outcome) => write_answer(alloc, outcome_word(outcome), &written),
        Err(error) => write_answer(alloc, &error.to_string(alloc)?, &written),
    }
}
