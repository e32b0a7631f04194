//! The choice of the rows and cells that are read from a text.

use diff_parts::part::Part;

/// The rows and columns to read from a text.
#[derive(Clone, Copy)]
pub struct Wanted<'a> {
    /// The indices of the columns to read. Column `k` of the table that is read is column
    /// `columns[k]` of the text.
    pub columns: &'a [usize],
    /// The key columns, as indices into `columns`.
    pub keys: &'a [usize],
    /// The part whose rows are read, or `None` if all rows are read. The key cells of a row decide
    /// which part the row is in.
    pub part: Option<Part>,
}
