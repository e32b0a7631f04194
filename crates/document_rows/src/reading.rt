//! The options for reading documents.

use diff_parts::part::Part;

/// The options for reading the documents of an input.
#[derive(Clone, Copy)]
pub struct Reading {
    /// `true` if a missing key counts as null: a document without a value at a key is read. If
    /// `false`, a line without a value at a key is not a document.
    pub null_keys: bool,
    /// `true` if lines that are not documents are skipped. If `false`, such a line is an error.
    pub skip_bad: bool,
    /// The part of the documents to read. The values at the keys decide which part a document is
    /// in. If `None`, all documents are read.
    pub part: Option<Part>,
}
