//! Two files of documents, and the names and options for their report.

use diff_report::sides::Side;
use json_changes::changes::Rules;

/// Two files of documents, and the names and options for their report. Each row of a table has a
/// cell with the normal text of the value at each key, or `null` if there is none, and then a cell
/// with the line.
#[derive(Drop)]
pub struct DocumentSides<'a> {
    pub left: Side,
    pub right: Side,
    /// The numbers of the lines of the left file that were skipped because they are not documents.
    pub left_skipped: Vec<u64>,
    /// The numbers of the lines of the right file that were skipped because they are not documents.
    pub right_skipped: Vec<u64>,
    /// `true` if lines that are not documents are skipped. `false` if they are errors.
    pub skip_bad: bool,
    /// The names of the keys. If there are none, a report names a document by the number of its
    /// row.
    pub keys: Vec<Vec<u8>>,
    /// `true` if the report has colours for a terminal.
    pub colored: bool,
    /// The rules that decide which differences are reported.
    pub rules: &'a Rules,
}
