//! Applies tolerances to the right table.

ghost use Rattle.std.specs.List.{flat_map, range_with_len};
ghost use Rattle.std.specs.Prelude.{◌≡◌, ◌<◌, ℕ, All, IfOk, IfSome, None, length, get_or};
ghost use Rattle.std.specs.Prelude.{MatchResult};
ghost use Rattle.polars_arrays_bytes.specs.OffsetStrings.{offset_strings};
ghost use Rattle.diff_tables.specs.Errors.{IsCompareFault};
ghost use Rattle.diff_tables.specs.Strings.{AreStrings};
ghost use Rattle.diff_tolerances.specs.Rows.{IsTolerantTable, row_beside};

use crate::cells::Tolerance;
use crate::partners::partners_of;
use crate::rows::push_row;
use diff_keys::error::MatchError;
use diff_tables::strings::Strings;
use diff_tables::table::Table;
use polars_arrays_bytes::binary::BinaryArray;
use std::alloc::{AllocError, Global};

/// Returns, row by row, the cells to compare in place of the cells of `right`: the partner's cell
/// where a tolerance allows the two to differ, and else the right cell. `names` has the names of
/// the columns. `partners[j]` is the left row that is the partner of right row `j`, or `None` if it
/// has no partner.
fn tolerant_cells(
    alloc: Global,
    tolerances: &[Tolerance<'_>],
    names: &BinaryArray<i64>,
    left: &Table,
    partners: &[Option<u32>],
    right: &Table,
) -> Result<Strings, AllocError>
    requires one_each { length partners.now ≡ length right.now.rows }
    requires within { (j : ℕ) → j < length right.now.rows
        → IfSome (get_or partners.now j None) (λ i. i < length left.now.rows) }
    requires left_width { left.now.width ≡ length (offset_strings (λ x. x) names.now) }
    requires right_width { right.now.width ≡ length (offset_strings (λ x. x) names.now) }
    ensures { IfOk result
        (λ cells. AreStrings cells
        (flat_map (row_beside tolerances.now (offset_strings (λ x. x) names.now) left.now.rows
        partners.now right.now.rows) (range_with_len 0 (length right.now.rows)))) }
{
    let mut cells = Strings::new(alloc)?;
    for row in 0..right.count() {
        push_row(
            &mut cells,
            tolerances,
            names,
            left,
            partners[row],
            right,
            row,
        )?;
    }
    Ok(cells)
}

/// Returns the table to compare in place of `right`. A cell of `right` is replaced by the cell in
/// the same column of the row's left partner if a tolerance for this column allows the two to
/// differ: with a tolerance of 0.1, 1.05 is replaced by 1.0. All other cells are unchanged. `names`
/// has the names of the columns. `columns` are the indices of the key columns, by which rows are
/// matched.
///
/// Fails with `TooManyRows` if a table has more than 2^32 rows, and with `Memory` if an allocation
/// fails.
pub fn tolerant_table(
    alloc: Global,
    tolerances: &[Tolerance<'_>],
    names: &BinaryArray<i64>,
    columns: &[usize],
    left: &Table,
    right: &Table,
) -> Result<Table, MatchError>
    requires left_width { left.now.width ≡ length (offset_strings (λ x. x) names.now) }
    requires right_width { right.now.width ≡ length (offset_strings (λ x. x) names.now) }
    requires columns { All (λ c. c < length (offset_strings (λ x. x) names.now)) columns.now }
    ensures { MatchResult result
        (IsTolerantTable tolerances.now (offset_strings (λ x. x) names.now) columns.now left.now
        right.now)
        (IsCompareFault columns.now left.now.rows right.now.rows) }
{
    let partners = partners_of(alloc, left, right, columns)?;
    let Ok(cells) = tolerant_cells(alloc, tolerances, names, left, &partners, right) else {
        return Err(MatchError::Memory);
    };
    match Table::new(alloc, right.width(), right.count(), cells) {
        Ok(made) => Ok(made),
        Err(_) => Err(MatchError::Memory),
    }
}
