//! Makes tables of a single row.

ghost use Rattle.std.specs.Option.{option_map};
ghost use Rattle.std.specs.Prelude.{◌≡◌, ◌<◌, ◌∷◌, [], All, length, IfOk};
ghost use Rattle.diff_report.specs.Sides.{AreSides};
ghost use Rattle.diff_single.specs.Frame.{naming_by};
ghost use Rattle.diff_single.specs.Rows.{HasOneRowEach, IsOneRow};

use crate::frame::Frame;
use crate::row::Row;
use diff_report::sides::{Side, Sides};
use diff_tables::string_list::StringList;
use diff_tables::strings::Strings;
use diff_tables::table::Table;
use polars_arrays_bytes::binary::BinaryArray;
use std::alloc::{AllocError, Global};

/// Returns a table with one row, which has these cells.
fn table_of<L: StringList>(alloc: Global, cells: &L) -> Result<Table, AllocError>
    ensures { IfOk result
        (λ t. (t.width ≡ length (L.strings cells.now)) × (t.rows ≡ L.strings cells.now ∷ [])) }
{
    let mut strings = Strings::new(alloc)?;
    strings.push_all(cells)?;
    match Table::new(alloc, cells.count(), 1, strings) {
        Ok(table) => Ok(table),
        Err(_) => Err(AllocError),
    }
}

/// Returns a side with this name and with `row` as the only row of its table.
fn side_of<L: StringList>(alloc: Global, name: &[u8], row: &Row<'_, L>) -> Result<Side, AllocError>
    ensures { IfOk result
        (IsOneRow name.now (L.strings row.now.cells.now) row.now.number row.now.line) }
{
    let name = Vec::from_slice(alloc, name)?;
    let lines = Vec::from_slice(alloc, &[row.line])?;
    let numbers = Vec::from_slice(alloc, &[row.number])?;
    let table = table_of(alloc, row.cells)?;
    Ok(Side {
        name,
        table,
        lines,
        numbers: Some(numbers),
    })
}

/// Clones an array. Bytes in a shared buffer are not copied.
fn cloned(alloc: Global, names: &BinaryArray<i64>) -> Result<BinaryArray<i64>, AllocError>
    ensures { IfOk result (λ copy. copy ≡ names.now) }
{
    match names.clone_array(alloc) {
        Ok(copy) => Ok(copy),
        Err(_) => Err(AllocError),
    }
}

/// Returns a copy of a text, or `None` for `None`.
fn copied(alloc: Global, text: Option<&[u8]>) -> Result<Option<Vec<u8>>, AllocError>
    ensures { IfOk result
        (λ copy. option_map (λ v. v.items) copy ≡ option_map (λ v. v.now) text.entry) }
{
    match text {
        Some(bytes) => Ok(Some(Vec::from_slice(alloc, bytes)?)),
        None => Ok(None),
    }
}

/// Returns the two sides of a report with `left` as the only left row and `right` as the only right
/// row. The names and options are copied from `frame`.
pub(crate) fn sides_of<'r, L: StringList, R: StringList>(
    alloc: Global,
    frame: &Frame<'_>,
    left: &Row<'r, L>,
    right: &Row<'r, R>,
) -> Result<Sides, AllocError>
    requires keys { All (λ column. column < length (naming_by frame.now).names) frame.now.keys.now }
    requires left { length (L.strings left.now.cells.now) ≡ length (naming_by frame.now).names }
    requires right { length (R.strings right.now.cells.now) ≡ length (naming_by frame.now).names }
    ensures sides { IfOk result AreSides }
    ensures rows { IfOk result
        (HasOneRowEach frame.now (L.strings left.now.cells.now) left.now.number left.now.line
        (R.strings right.now.cells.now) right.now.number right.now.line) }
{
    let null = copied(alloc, frame.null)?;
    let keys = Vec::from_slice(alloc, frame.keys)?;
    let names = cloned(alloc, frame.names)?;
    let left = side_of(alloc, frame.left, left)?;
    let right = side_of(alloc, frame.right, right)?;
    Ok(Sides {
        left,
        right,
        comparables: None,
        names,
        keys,
        null,
        colored: frame.colored,
    })
}
