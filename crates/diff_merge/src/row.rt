//! A row that is passed from a merge to a sink.

ghost use Rattle.std.specs.Prelude.{◌≡◌, [], get_or};
ghost use Rattle.csv.specs.Records.{fields_of};
ghost use Rattle.diff_merge.specs.Rows.{cells_of};

use csv::ByteRecord;
use diff_tables::string_list::StringList;

/// A row of a text, as a list of its cells in the columns that are read.
#[derive(Clone, Copy)]
pub struct Row<'a> {
    // The record of the row, with the fields of all columns.
    pub(crate) record: &'a ByteRecord,
    // The indices of the columns that are read.
    pub(crate) columns: &'a [usize],
    /// The number of the row in the text. The first row is 1.
    pub number: u64,
    /// The line at which the row begins.
    pub line: u64,
}

/// Returns the field with index `column`, or an empty field if the record has fewer fields.
fn field(record: &ByteRecord, column: usize) -> &[u8]
    ensures { result.now ≡ get_or (fields_of record.now) column [] }
{
    match record.get(column) {
        Some(field) => field,
        None => &[],
    }
}

impl<'a> Row<'a> {
    /// Returns cell `i` of the row, counted from 0, or an empty cell if the row has no such cell.
    #[inline(always)]
    pub fn cell(&self, i: usize) -> &[u8]
        ensures { result.now ≡ get_or (cells_of self.now) i [] }
    {
        match self.columns.get(i) {
            Some(column) => field(self.record, *column),
            None => &[],
        }
    }
}

impl<'a> StringList for Row<'a> {
    ghost strings = { cells_of };

    fn count(&self) -> usize {
        self.columns.len()
    }

    #[inline(always)]
    fn string(&self, i: usize) -> &[u8] {
        self.cell(i)
    }
}
