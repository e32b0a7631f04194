//! Gets the documents back from the rows of a table.

ghost use Rattle.std.specs.Prelude.{◌≡◌, ◌<◌, length, IfOk};
ghost use Rattle.json.specs.Strict.{HasUniqueKeys};
ghost use Rattle.json.specs.Tree.{HasNumbers};
ghost use Rattle.json.specs.Value.{value_view};
ghost use Rattle.json_normal.specs.Narrow.{HasNarrowNumbers};
ghost use Rattle.document_rows.specs.Documents.{tree_of};
ghost use Rattle.document_rows.specs.Tables.{HoldsDocuments, line_at};

use diff_tables::table::Table;
use json::{Error, Scratch, Value};
use std::alloc::{AllocError, Global};
use std::str::from_utf8;

/// Returns the line from which row `row` of `table` was read. It is the last cell of the row.
pub fn line_of(table: &Table, row: usize) -> &[u8]
    requires documents { HoldsDocuments table.now }
    requires row { row < length table.now.rows }
    ensures { result.now ≡ line_at table.now row }
{
    table.cell(row, table.width() - 1)
}

/// Parses the line from which row `row` of `table` was read, and returns the document. `scratch` is
/// memory that can be reused for each document. The only error is a failed allocation.
pub fn document_of<'a>(
    alloc: Global,
    table: &'a Table,
    row: usize,
    scratch: &'a mut Scratch,
) -> Result<Value<'a>, AllocError>
    requires documents { HoldsDocuments table.now }
    requires row { row < length table.now.rows }
    ensures value { IfOk result (λ v. value_view v ≡ tree_of (line_at table.now row)) }
    ensures unique { IfOk result (λ v. HasUniqueKeys (value_view v)) }
    ensures narrow { IfOk result (λ v. HasNarrowNumbers (value_view v)) }
    ensures numbers { IfOk result (λ v. HasNumbers (value_view v)) }
{
    let Ok(text) = from_utf8(line_of(table, row)) else {
        unreachable!();
    };
    match Value::parse(alloc, text, scratch) {
        Ok(value) => Ok(value),
        Err(Error::OutOfMemory) => Err(AllocError),
        Err(Error::Invalid) => unreachable!(),
        Err(Error::TooLong) => unreachable!(),
        Err(Error::DuplicateKey) => unreachable!(),
    }
}
