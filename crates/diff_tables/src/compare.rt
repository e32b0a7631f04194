//! Compares two tables by key.

ghost use Rattle.std.specs.Prelude.{◌≡◌, ◌<◌, All, length, map, slice_index, IfOk, MatchResult};
ghost use Rattle.polars_arrays_bits.specs.Errors.{IsMemory};
ghost use Rattle.polars_arrays_bytes.specs.OffsetStrings.{offset_strings};
ghost use Rattle.diff_keys.specs.Matching.{IsMatching};
ghost use Rattle.diff_keys.specs.Errors.{IsMemory as IsMatchMemory};
ghost use Rattle.diff_keys.specs.Rising.{ListsRising};
ghost use Rattle.diff_keys.specs.Unique.{TellsFirstTwice};
ghost use Rattle.diff_tables.specs.Alike.{ArePlaces};
ghost use Rattle.diff_tables.specs.Comparison.{ArePairs, IsComparison, IsDifferent};
ghost use Rattle.diff_tables.specs.Errors.{IsCompareFault, IsKeysFault};
ghost use Rattle.diff_tables.specs.Keys.{row_keys};

use crate::keys::keys_of;
use crate::table::Table;
use diff_keys::error::MatchError;
use diff_keys::matching::{Matching, match_rows};
use diff_keys::unique::{Twice, first_twice};
use diff_pairs::rows;
use polars_arrays_bits::error::ComputeError;
use polars_arrays_bytes::binary::BinaryArray;
use std::alloc::{AllocError, Global};

/// The result of comparing two tables.
#[derive(Drop)]
pub struct Comparison {
    /// The pairs of matched rows, and the rows without a partner.
    pub matching: Matching,
    /// The indices of the matched pairs that differ, in ascending order. Index `k` means row
    /// `matching.left_rows[k]` and row `matching.right_rows[k]`.
    pub changed: Vec<usize>,
}

/// Returns the indices of the pairs whose two rows differ, in ascending order. Pair `p` is row
/// `left_rows[p]` of `left` and row `right_rows[p]` of `right`. Both tables must have the same
/// width. The only error is `Memory`.
fn changed_rows(
    alloc: Global,
    left: &Table,
    left_rows: Vec<u32>,
    right: &Table,
    right_rows: Vec<u32>,
) -> Result<Vec<usize>, ComputeError>
    requires width { left.now.width ≡ right.now.width }
    requires pairs { ArePairs left.now.rows right.now.rows left_rows.items right_rows.items }
    ensures { MatchResult result
        (λ changed. ListsRising
        (IsDifferent left.now.rows right.now.rows left_rows.items right_rows.items)
        (length left_rows.items) changed.items) IsMemory }
{
    rows::changed_rows(alloc, left.lent(), left_rows, right.lent(), right_rows)
}

/// Returns the elements of `numbers` at the indices `places`.
fn numbers_at(alloc: Global, numbers: &[u32], places: &[usize]) -> Result<Vec<u32>, AllocError>
    requires { ArePlaces (length numbers.now) places.now }
    ensures { IfOk result (λ picked. picked.items ≡ map (slice_index numbers.now) places.now) }
{
    let mut picked = Vec::with_capacity(alloc, places.len())?;
    for k in 0..places.len() {
        picked.push(numbers[places[k]])?;
    }
    Ok(picked)
}

/// Returns the elements of `all` at the indices `places`.
fn places_at(alloc: Global, all: &[usize], places: &[usize]) -> Result<Vec<usize>, AllocError>
    requires { ArePlaces (length all.now) places.now }
    ensures { IfOk result (λ picked. picked.items ≡ map (slice_index all.now) places.now) }
{
    let mut picked = Vec::with_capacity(alloc, places.len())?;
    for k in 0..places.len() {
        picked.push(all[places[k]])?;
    }
    Ok(picked)
}

/// Returns the indices of the matched pairs whose two rows differ, in ascending order. Pair `k` is
/// row `matching.left_rows[k]` of `left` and row `matching.right_rows[k]` of `right`. Both tables
/// must have the same width. The only error is `Memory`.
fn changed_places(
    alloc: Global,
    left: &Table,
    right: &Table,
    matching: &Matching,
) -> Result<Vec<usize>, ComputeError>
    requires width { left.now.width ≡ right.now.width }
    requires pairs { ArePairs left.now.rows right.now.rows matching.now.left_rows.items
        matching.now.right_rows.items }
    ensures { MatchResult result
        (λ changed. ListsRising
        (IsDifferent left.now.rows right.now.rows matching.now.left_rows.items
        matching.now.right_rows.items) (length matching.now.left_rows.items) changed.items)
        IsMemory }
{
    // Most pairs have two rows with equal bytes. The kernel compares only the remaining pairs.
    let places = left.unlike_pairs(alloc, &matching.left_rows, right, &matching.right_rows)?;
    let left_rows = numbers_at(alloc, &matching.left_rows, &places)?;
    let right_rows = numbers_at(alloc, &matching.right_rows, &places)?;
    let changed = changed_rows(alloc, left, left_rows, right, right_rows)?;
    let changed = places_at(alloc, &places, &changed)?;
    Ok(changed)
}

/// Matches left rows with the rows of `right` by key. `left_keys` has the encoded key of each left
/// row. `columns` are the indices of the key columns. Fails with `TooManyRows` if a table has more
/// than 2^32 rows, and with `Memory` if an allocation fails.
fn matched_with(
    alloc: Global,
    left_keys: &BinaryArray<i64>,
    right: &Table,
    columns: &[usize],
) -> Result<Matching, MatchError>
    requires { All (λ c. c < right.now.width) columns.now }
    ensures { MatchResult result
        (IsMatching (offset_strings (λ x. x) left_keys.now) (row_keys columns.now right.now.rows))
        (IsKeysFault (offset_strings (λ x. x) left_keys.now)
        (row_keys columns.now right.now.rows)) }
{
    let Ok(right_keys) = keys_of(alloc, right, columns) else {
        return Err(MatchError::Memory);
    };
    match match_rows(alloc, left_keys, &right_keys) {
        Ok(matching) => Ok(matching),
        Err(error) => Err(error),
    }
}

/// Matches the rows of two tables by their cells in `columns`, the indices of the key columns.
/// Fails with `TooManyRows` if a table has more than 2^32 rows, and with `Memory` if an allocation
/// fails.
fn matched(
    alloc: Global,
    left: &Table,
    right: &Table,
    columns: &[usize],
) -> Result<Matching, MatchError>
    requires left_columns { All (λ c. c < left.now.width) columns.now }
    requires right_columns { All (λ c. c < right.now.width) columns.now }
    ensures { MatchResult result
        (IsMatching (row_keys columns.now left.now.rows) (row_keys columns.now right.now.rows))
        (IsCompareFault columns.now left.now.rows right.now.rows) }
{
    let Ok(left_keys) = keys_of(alloc, left, columns) else {
        return Err(MatchError::Memory);
    };
    match matched_with(alloc, &left_keys, right, columns) {
        Ok(matching) => Ok(matching),
        Err(error) => Err(error),
    }
}

/// Compares two tables with the same number of columns. Rows are matched by their cells in
/// `columns`, the indices of the key columns. The result has the matched pairs of rows, the rows
/// without a partner, and a list of the matched pairs that differ.
///
/// Fails with `TooManyRows` if a table has more than 2^32 rows, and with `Memory` if an allocation
/// fails.
pub fn compare_tables(
    alloc: Global,
    left: &Table,
    right: &Table,
    columns: &[usize],
) -> Result<Comparison, MatchError>
    requires width { left.now.width ≡ right.now.width }
    requires columns { All (λ c. c < left.now.width) columns.now }
    ensures { MatchResult result (IsComparison columns.now left.now.rows right.now.rows)
        (IsCompareFault columns.now left.now.rows right.now.rows) }
{
    let matching = matched(alloc, left, right, columns)?;
    match changed_places(alloc, left, right, &matching) {
        Ok(changed) => Ok(Comparison { matching, changed }),
        Err(_) => Err(MatchError::Memory),
    }
}

/// Returns the first row with the same key as an earlier row, together with that earlier row.
/// Returns `None` if all keys are different. The key of a row is its cells in the columns with the
/// indices `columns`. The only error is `Memory`.
pub fn key_twice(
    alloc: Global,
    table: &Table,
    columns: &[usize],
) -> Result<Option<Twice>, MatchError>
    requires { All (λ c. c < table.now.width) columns.now }
    ensures { MatchResult result (TellsFirstTwice (row_keys columns.now table.now.rows))
        IsMatchMemory }
{
    let Ok(keys) = keys_of(alloc, table, columns) else {
        return Err(MatchError::Memory);
    };
    match first_twice(alloc, &keys) {
        Ok(twice) => Ok(twice),
        Err(error) => Err(error),
    }
}
