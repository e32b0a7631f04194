//! A borrowed row of a file.

use diff_tables::string_list::StringList;

/// A row of a file, with borrowed cells.
#[derive(Drop)]
pub struct Row<'a, L: StringList> {
    /// The cells in the columns that are compared.
    pub cells: &'a L,
    /// The number of the row among all rows of the file. The first row is 1.
    pub number: u64,
    /// The line of the file at which the row begins.
    pub line: u64,
}
