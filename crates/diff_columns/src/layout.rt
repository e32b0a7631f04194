//! The columns of two tables, matched by name.

ghost use Rattle.std.specs.Prelude.{IfOk, MatchResult};
ghost use Rattle.diff_columns.specs.Errors.{IsColumnFault};
ghost use Rattle.diff_columns.specs.Layout.{IsLayout};
ghost use Rattle.diff_columns.specs.Names.{AreMatchable, names_of};

use crate::alone::columns_alone;
use crate::choice::Choice;
use crate::error::{ColumnError, Side};
use crate::names::{column_repeated, key_missing};
use crate::pairs::{ColumnPairs, compared_pairs};
use crate::places::key_places;
use polars_arrays_flat::byte_rows::ByteRows;
use std::alloc::{AllocError, Global};

/// The result of matching the columns of two tables by name. Columns are given as indices.
/// For the left columns `id`, `a`, `b`, the right columns `b`, `id`, `c` and the key `id`, `left`
/// is [0, 2], `right` is [1, 0], `keys` is [0], `left_alone` is [1], and `right_alone` is [2].
#[derive(Drop)]
pub struct Layout {
    /// The left columns that are compared, in ascending order.
    pub left: Vec<usize>,
    /// For each entry of `left`, the right column with the same name.
    pub right: Vec<usize>,
    /// For each entry of `Choice::keys`, the index `k` for which `left[k]` is the column of
    /// this name.
    pub keys: Vec<usize>,
    /// The chosen left columns whose names the right table does not have, in ascending order.
    pub left_alone: Vec<usize>,
    /// The chosen right columns whose names the left table does not have, in ascending order.
    pub right_alone: Vec<usize>,
}

/// Checks `left` and `right`, the column names of two tables. `keys` has the names of the key
/// columns. Fails with `NameTwice` if two columns of a table have the same name, and with `NoKey`
/// if a table has no column with the name of a key. The left table is checked first.
fn test_names<L: ByteRows, R: ByteRows>(
    left: &L,
    right: &R,
    keys: &[&[u8]],
) -> Result<(), ColumnError>
    ensures { MatchResult result
        (λ _. AreMatchable (L.strings left.now) (R.strings right.now) (names_of keys.now))
        (IsColumnFault (L.strings left.now) (R.strings right.now) (names_of keys.now)) }
{
    let side = Side::Left;
    if let Some(column) = column_repeated(left) {
        return Err(ColumnError::NameTwice { side, column });
    }
    if let Some(key) = key_missing(left, keys) {
        return Err(ColumnError::NoKey { side, key });
    }
    let side = Side::Right;
    if let Some(column) = column_repeated(right) {
        return Err(ColumnError::NameTwice { side, column });
    }
    if let Some(key) = key_missing(right, keys) {
        return Err(ColumnError::NoKey { side, key });
    }
    Ok(())
}

/// Matches the columns of two tables by name. `left` and `right` are the names of the columns,
/// which `test_names` must accept together with the keys of `choice`. `choice` selects the columns
/// to compare. The only error is a failed allocation.
fn layout_of<L: ByteRows, R: ByteRows>(
    alloc: Global,
    left: &L,
    right: &R,
    choice: &Choice<'_>,
) -> Result<Layout, AllocError>
    requires { AreMatchable (L.strings left.now) (R.strings right.now)
        (names_of choice.now.keys.now) }
    ensures { IfOk result (IsLayout (L.strings left.now) (R.strings right.now) choice.now) }
{
    let ColumnPairs {
        left_columns,
        right_columns,
    } = compared_pairs(alloc, left, right, choice)?;
    let keys = key_places(alloc, left, &left_columns, choice.keys)?;
    let left_alone = columns_alone(alloc, left, right, choice)?;
    let right_alone = columns_alone(alloc, right, left, choice)?;
    Ok(Layout {
        left: left_columns,
        right: right_columns,
        keys,
        left_alone,
        right_alone,
    })
}

/// Matches the columns of two tables by name. `left` and `right` are arrays with the names of the
/// columns. `choice` selects the columns to compare.
///
/// Fails with `NameTwice` if a table has two columns of the same name, with `NoKey` if a table has
/// no column for a key, and with `Memory` if an allocation fails.
pub fn match_columns<L: ByteRows, R: ByteRows>(
    alloc: Global,
    left: &L,
    right: &R,
    choice: &Choice<'_>,
) -> Result<Layout, ColumnError>
    ensures names { IfOk result
        (λ _. AreMatchable (L.strings left.now) (R.strings right.now)
        (names_of choice.now.keys.now)) }
    ensures layout { MatchResult result
        (IsLayout (L.strings left.now) (R.strings right.now) choice.now)
        (IsColumnFault (L.strings left.now) (R.strings right.now) (names_of choice.now.keys.now)) }
{
    test_names(left, right, choice.keys)?;
    match layout_of(alloc, left, right, choice) {
        Ok(layout) => Ok(layout),
        Err(_) => Err(ColumnError::Memory),
    }
}
