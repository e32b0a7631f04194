//! Pairs of columns with the same name in both tables.

ghost use Rattle.std.specs.Prelude.{◌<◌, length, IfOk, MatchOption};
ghost use Rattle.diff_columns.specs.Layout.{IsCompared};
ghost use Rattle.diff_columns.specs.Pairs.{ArePairs, IsPair};

use crate::choice::Choice;
use crate::names::column_named;
use polars_arrays_flat::byte_rows::ByteRows;
use std::alloc::{AllocError, Global};

/// The pairs of columns that are compared: left column `left_columns[k]` with right column
/// `right_columns[k]`.
#[derive(Drop)]
pub(crate) struct ColumnPairs {
    pub(crate) left_columns: Vec<usize>,
    pub(crate) right_columns: Vec<usize>,
}

/// Returns the index of the right column with which left column `column` is compared. Returns
/// `None` if `choice` does not select the column or the right table has no column of the same name.
/// `left` and `right` have the names of the columns.
fn partner<L: ByteRows, R: ByteRows>(
    left: &L,
    right: &R,
    choice: &Choice<'_>,
    column: usize,
) -> Option<usize>
    requires { column < length (L.strings left.now) }
    ensures { MatchOption result
        (¬ (IsCompared choice.now (L.strings left.now) (R.strings right.now) column))
        (IsPair choice.now (L.strings left.now) (R.strings right.now) column) }
{
    let name = left.bytes(column);
    if !choice.has(name) {
        return None;
    }
    column_named(right, name)
}

/// Returns the left columns that are compared, in ascending order, and for each the right column
/// with the same name. `choice` selects columns, and `left` and `right` have the names of the
/// columns.
pub(crate) fn compared_pairs<L: ByteRows, R: ByteRows>(
    alloc: Global,
    left: &L,
    right: &R,
    choice: &Choice<'_>,
) -> Result<ColumnPairs, AllocError>
    ensures { IfOk result
        (λ pairs. ArePairs choice.now (L.strings left.now) (R.strings right.now)
        (length (L.strings left.now)) pairs.left_columns.items pairs.right_columns.items) }
{
    let mut left_columns = Vec::new(alloc);
    let mut right_columns = Vec::new(alloc);
    for i in 0..left.count() {
        if let Some(j) = partner(left, right, choice, i) {
            left_columns.push(i)?;
            right_columns.push(j)?;
        }
    }
    Ok(ColumnPairs {
        left_columns,
        right_columns,
    })
}
