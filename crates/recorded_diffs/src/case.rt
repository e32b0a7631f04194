//! A case: two texts, and how they are compared.

use crate::documents::answer_documents;
use crate::tables::answer_tables;
use anyhow::{Context, Result, anyhow};
use diff_keys::outcome::Outcome;
use std::alloc::Global;

/// Compares the two texts of `line`, and returns as text the outcome or the error, and the bytes of
/// the report. Returns an error if the line is not a case.
pub(crate) fn answer(alloc: Global, line: &str) -> Result<String> {
    let words: Vec<&str> = line.split(' ').collect(alloc)?;
    let (kind, rest) = words.split_first().context("no kind")?;
    let (right, rest) = rest.split_last().context("no right text")?;
    let (left, options) = rest.split_last().context("no left text")?;
    let left = read_bytes(alloc, left)?;
    let right = read_bytes(alloc, right)?;
    match *kind {
        "tables" => answer_tables(alloc, options, &left, &right),
        "documents" => answer_documents(alloc, options, &left, &right),
        other => Err(anyhow!("no kind is named {other:?}")),
    }
}

/// Decodes a word of `x` and two hexadecimal digits for each byte. Returns an error for any other
/// word.
fn read_bytes(alloc: Global, word: &str) -> Result<Vec<u8>> {
    let digits = word.strip_prefix('x').context("no bytes")?;
    Ok(hex::decode(alloc, digits)?)
}

/// Returns the word for `outcome`: `same` or `different`.
pub(crate) fn outcome_word(outcome: Outcome) -> &'static str {
    match outcome {
        Outcome::Same => "same",
        Outcome::Different => "different",
    }
}

/// Returns `said`, the outcome or the error of a comparison, then ` x` and the bytes of the report,
/// `written`, in hexadecimal.
pub(crate) fn write_answer(alloc: Global, said: &str, written: &[u8]) -> Result<String> {
    let written = hex::encode(alloc, written)?;
    Ok(format!(in alloc; "{said} x{written}")?)
}
