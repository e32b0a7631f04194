//! Finds the partner of each right row.

ghost use Rattle.std.specs.Prelude.{◌≡◌, ◌<◌, All, length, IfOk, MatchResult};
ghost use Rattle.polars_arrays_bytes.specs.OffsetStrings.{offset_strings};
ghost use Rattle.diff_keys.specs.Matching.{IsMatching};
ghost use Rattle.diff_tables.specs.Errors.{IsCompareFault, IsKeysFault};
ghost use Rattle.diff_tables.specs.Keys.{row_keys};
ghost use Rattle.diff_tolerances.specs.Partners.{AreBeside, ArePartnersOf};

use diff_keys::error::MatchError;
use diff_keys::matching::{Matching, match_rows};
use diff_tables::keys::keys_of;
use diff_tables::table::Table;
use polars_arrays_bytes::binary::BinaryArray;
use std::alloc::{AllocError, Global};

/// Matches left rows and the rows of `right` by key. `left_keys` has the encoded key of each left
/// row. `columns` are the indices of the key columns. Fails with `TooManyRows` if a table has more
/// than 2^32 rows, and with `Memory` if an allocation fails.
fn matched_with(
    alloc: Global,
    left_keys: &BinaryArray<i64>,
    right: &Table,
    columns: &[usize],
) -> Result<Matching, MatchError>
    requires { All (λ c. c < right.now.width) columns.now }
    ensures { MatchResult result
        (IsMatching (offset_strings (λ x. x) left_keys.now) (row_keys columns.now right.now.rows))
        (IsKeysFault (offset_strings (λ x. x) left_keys.now)
        (row_keys columns.now right.now.rows)) }
{
    let Ok(right_keys) = keys_of(alloc, right, columns) else {
        return Err(MatchError::Memory);
    };
    match match_rows(alloc, left_keys, &right_keys) {
        Ok(matching) => Ok(matching),
        Err(error) => Err(error),
    }
}

/// Matches the rows of `left` and `right` by their cells in `columns`, the indices of the key
/// columns. Fails with `TooManyRows` if a table has more than 2^32 rows, and with `Memory` if an
/// allocation fails.
fn matched(
    alloc: Global,
    left: &Table,
    right: &Table,
    columns: &[usize],
) -> Result<Matching, MatchError>
    requires left_columns { All (λ c. c < left.now.width) columns.now }
    requires right_columns { All (λ c. c < right.now.width) columns.now }
    ensures { MatchResult result
        (IsMatching (row_keys columns.now left.now.rows) (row_keys columns.now right.now.rows))
        (IsCompareFault columns.now left.now.rows right.now.rows) }
{
    let Ok(left_keys) = keys_of(alloc, left, columns) else {
        return Err(MatchError::Memory);
    };
    match matched_with(alloc, &left_keys, right, columns) {
        Ok(matching) => Ok(matching),
        Err(error) => Err(error),
    }
}

/// Returns for each right row the left row that is its partner, or `None` if it has no partner.
/// `count` is the number of right rows. `left_rows[k]` is the partner of `right_rows[k]`. Rows that
/// are not in `right_rows` have no partner.
fn rows_beside(
    alloc: Global,
    left_rows: &[u32],
    right_rows: &[u32],
    count: usize,
) -> Result<Vec<Option<u32>>, AllocError>
    requires one_length { length left_rows.now ≡ length right_rows.now }
    requires within { All (λ j. j < count) right_rows.now }
    ensures { IfOk result
        (λ found. AreBeside left_rows.now right_rows.now count (length right_rows.now)
        found.items) }
{
    let mut found: Vec<Option<u32>> = vec![in alloc; None; count]?;
    for k in 0..right_rows.len() {
        found[right_rows[k] as usize] = Some(left_rows[k]);
    }
    Ok(found)
}

/// Returns for each right row the number of the left row that is its partner, or `None` if it has
/// no partner. Rows are numbered from 0, and are matched by their cells in `columns`, the indices
/// of the key columns.
///
/// Fails with `TooManyRows` if a table has more than 2^32 rows, and with `Memory` if an allocation
/// fails.
pub(crate) fn partners_of(
    alloc: Global,
    left: &Table,
    right: &Table,
    columns: &[usize],
) -> Result<Vec<Option<u32>>, MatchError>
    requires left_columns { All (λ c. c < left.now.width) columns.now }
    requires right_columns { All (λ c. c < right.now.width) columns.now }
    ensures { MatchResult result
        (λ partners. ArePartnersOf (row_keys columns.now left.now.rows)
        (row_keys columns.now right.now.rows) partners.items)
        (IsCompareFault columns.now left.now.rows right.now.rows) }
{
    let matching = matched(alloc, left, right, columns)?;
    match rows_beside(
        alloc,
        &matching.left_rows,
        &matching.right_rows,
        right.count(),
    ) {
        Ok(partners) => Ok(partners),
        Err(_) => Err(MatchError::Memory),
    }
}
