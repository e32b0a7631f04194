//! The options of comparing documents and of the report.

ghost use Rattle.std.specs.Prelude.{◌≡◌, length};

use diff_words::formats::Format;
use document_rows::reading::Reading;
use json_changes::changes::Rules;
use json_paths::path::Path;

/// The options of a comparison of documents and of its report.
#[derive(Clone, Copy)]
pub struct DocumentOptions<'a> {
    /// The paths to the values that form the key of a document. Without paths, the documents are
    /// matched by their order: the first with the first, and so on.
    pub keys: &'a [Path],
    /// The name of each key in the report. There are as many names as keys.
    pub names: &'a [&'a [u8]],
    /// The options for reading the documents.
    pub reading: Reading,
    /// The rules that decide which differences are reported.
    pub rules: &'a Rules,
    /// The most differences that get a line of their own. With 0 the report has only the counts.
    pub limit: usize,
    /// `true` if two documents of an input with the same key are an error.
    pub unique: bool,
    /// The form of the report, text or JSON.
    pub format: Format,
    /// `true` if a text report has colours for a terminal.
    pub colored: bool,
    ghost named: { length names.now ≡ length keys.now },
}
