//! Two tables, with the names that a report needs.

ghost use Rattle.std.specs.Prelude.{◌≡◌, ◌<◌, length};
ghost use Rattle.diff_report.specs.Naming.{Naming};
ghost use Rattle.diff_report.specs.Sides.{AreSides, IsSide, compared_left, compared_right};
ghost use Rattle.diff_report.specs.Sides.{naming_of, number_of};

use diff_tables::table::Table;
use polars_arrays_bytes::binary::BinaryArray;

/// A table that was read from a file.
#[derive(Drop)]
pub struct Side {
    /// The name of the file.
    pub name: Vec<u8>,
    /// The rows of the table.
    pub table: Table,
    /// The line at which each row begins in the file.
    pub lines: Vec<u64>,
    /// The number of each row among all rows of the file, from 1 on. `None` if the table has all
    /// rows of the file.
    pub numbers: Option<Vec<u64>>,
}

impl Side {
    /// Returns the number that row `i` of the table has among all rows of the file. The first row
    /// of the file is 1.
    pub fn number(&self, i: usize) -> u64
        requires row { i < length self.now.table.rows }
        requires side { (n : Naming) × IsSide n self.now }
        ensures { result ≡ number_of self.now i }
    {
        match &self.numbers {
            Some(numbers) => numbers[i],
            None => i as u64 + 1,
        }
    }
}

/// Two tables to compare in place of the left and right table of `Sides`, with the same numbers of
/// rows and columns. Each cell is compared in place of the cell in the same row and column.
#[derive(Drop)]
pub struct Comparables {
    pub left: Table,
    pub right: Table,
}

/// Two tables with the same columns, and the names and options for their report.
#[derive(Drop)]
pub struct Sides {
    pub left: Side,
    pub right: Side,
    /// Tables to compare in place of the left and right table, such as tables with numbers in their
    /// normal form. `None`: the left and right table are compared themselves.
    pub comparables: Option<Comparables>,
    /// The names of the columns of both tables.
    pub names: BinaryArray<i64>,
    /// The key columns, as indices into `names`. If there are none, a report names a row by its
    /// number.
    pub keys: Vec<usize>,
    /// The text of a cell that stands for no value. `None`: no cell does.
    pub null: Option<Vec<u8>>,
    /// `true` if the report has colours for a terminal.
    pub colored: bool,
}

impl Sides {
    /// Returns the table to compare for the left side: the left table of `comparables`, or the
    /// table of `left` if `comparables` is `None`.
    pub fn compared_left(&self) -> &Table
        requires { AreSides self.now }
        ensures rows { result.now.rows ≡ compared_left self.now }
        ensures count { length result.now.rows ≡ length self.now.left.table.rows }
        ensures width { result.now.width ≡ length (naming_of self.now).names }
    {
        match &self.comparables {
            Some(tables) => &tables.left,
            None => &self.left.table,
        }
    }

    /// Returns the table to compare for the right side: the right table of `comparables`, or the
    /// table of `right` if `comparables` is `None`.
    pub fn compared_right(&self) -> &Table
        requires { AreSides self.now }
        ensures rows { result.now.rows ≡ compared_right self.now }
        ensures count { length result.now.rows ≡ length self.now.right.table.rows }
        ensures width { result.now.width ≡ length (naming_of self.now).names }
    {
        match &self.comparables {
            Some(tables) => &tables.right,
            None => &self.right.table,
        }
    }
}
