//! Applies tolerances to the rows of the right table.

ghost use Rattle.std.specs.Prelude.{◌≡◌, ◌<◌, ◌++◌, ◌∷◌, [], ℕ, List, IfSome, length, get_or, OnOk};
ghost use Rattle.polars_arrays_bytes.specs.OffsetStrings.{offset_strings};
ghost use Rattle.diff_tables.specs.Strings.{AreStrings};
ghost use Rattle.diff_tolerances.specs.Rows.{cell_at, row_at, row_by};

use crate::cells::{Tolerance, cell_by};
use diff_tables::strings::Strings;
use diff_tables::table::Table;
use polars_arrays_bytes::binary::BinaryArray;
use polars_arrays_flat::byte_rows::ByteRows;
use std::alloc::AllocError;

/// Returns the cell to compare in place of the cell of `right` at `row` and `column`. This is the
/// cell of `left` at `partner` and `column` if a tolerance allows the two to differ, and else the
/// right cell. `partner` is the left row that is the partner of `row`, or `None` if it has no
/// partner. `names` has the names of the columns.
fn cell_at<'a>(
    tolerances: &[Tolerance<'_>],
    names: &BinaryArray<i64>,
    left: &'a Table,
    partner: Option<u32>,
    right: &'a Table,
    row: usize,
    column: usize,
) -> &'a [u8]
    requires partner { IfSome partner (λ i. i < length left.now.rows) }
    requires row { row < length right.now.rows }
    requires left_column { column < left.now.width }
    requires right_column { column < right.now.width }
    requires name { column < length (offset_strings (λ x. x) names.now) }
    ensures { result.now ≡ cell_at tolerances.now (offset_strings (λ x. x) names.now)
        (row_at left.now.rows partner) (get_or right.now.rows row []) column }
{
    let cell = right.cell(row, column);
    match partner {
        Some(i) => {
            let near = left.cell(i as usize, column);
            cell_by(tolerances, names.bytes(column), near, cell)
        }
        None => cell,
    }
}

/// Appends to `cells` the cells to compare in place of row `row` of `right`: the partner's cell
/// where a tolerance allows the two to differ, and else the right cell. `partner` is the left row
/// that is the partner of `row`, or `None` if it has no partner. `names` has the names of the
/// columns.
pub(crate) fn push_row(
    cells: &mut Strings,
    tolerances: &[Tolerance<'_>],
    names: &BinaryArray<i64>,
    left: &Table,
    partner: Option<u32>,
    right: &Table,
    row: usize,
) -> Result<(), AllocError>
    requires partner { IfSome partner (λ i. i < length left.now.rows) }
    requires row { row < length right.now.rows }
    requires left_width { left.now.width ≡ length (offset_strings (λ x. x) names.now) }
    requires right_width { right.now.width ≡ length (offset_strings (λ x. x) names.now) }
    ensures { OnOk result
        ((all : List (List ℕ)) → AreStrings cells.old all
        → AreStrings cells.new
        (all ++ row_by tolerances.now (offset_strings (λ x. x) names.now)
        (row_at left.now.rows partner) (get_or right.now.rows row []))) }
{
    for column in 0..names.count() {
        let cell = cell_at(tolerances, names, left, partner, right, row, column);
        cells.push(cell)?;
    }
    Ok(())
}
