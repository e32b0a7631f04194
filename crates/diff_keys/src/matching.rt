//! Matches the rows of two tables by their keys.

ghost use Rattle.std.specs.Prelude.{IfOk, MatchResult};
ghost use Rattle.diff_keys.specs.Errors.{AreFew, IsMatchFault};
ghost use Rattle.diff_keys.specs.Matching.{IsMatching};

use crate::error::MatchError;
use crate::listing::{RowPairs, other_rows, pairs_found, rows_alone};
use crate::partners::partners;
use polars_arrays_flat::byte_rows::ByteRows;
use std::alloc::{AllocError, Global};

/// The result of matching the rows of two tables. Row `left_rows[k]` of the left table and row
/// `right_rows[k]` of the right table are partners. Rows are numbered from 0.
/// For the left keys `a`, `b`, `a` and the right keys `a`, `c`, `a`, `a`, `left_rows` and
/// `right_rows` are both [0, 2], `removed` is [1], and `added` is [1, 3].
#[derive(Drop)]
pub struct Matching {
    /// The left rows that have a partner, in ascending order.
    pub left_rows: Vec<u32>,
    /// For each entry of `left_rows`, its partner in the right table.
    pub right_rows: Vec<u32>,
    /// The left rows without a partner, in ascending order.
    pub removed: Vec<u32>,
    /// The right rows without a partner, in ascending order.
    pub added: Vec<u32>,
}

/// The largest number of rows that a table may have. Row numbers are stored in 32 bits.
const MOST_ROWS: usize = 1 << 32;

/// Matches the rows of two tables of at most 2^32 rows each by their keys. `left` and `right` are
/// arrays with the key of each row. The only error is a failed allocation.
fn match_few<L: ByteRows, R: ByteRows>(
    alloc: Global,
    left: &L,
    right: &R,
) -> Result<Matching, AllocError>
    requires { AreFew (L.strings left.now) (R.strings right.now) }
    ensures { IfOk result (IsMatching (L.strings left.now) (R.strings right.now)) }
{
    let found = partners(alloc, left, right)?;
    let pairs = pairs_found(alloc, &found)?;
    let removed = rows_alone(alloc, &found)?;
    let added = other_rows(alloc, right.count(), &pairs.right_rows)?;
    let RowPairs {
        left_rows,
        right_rows,
    } = pairs;
    Ok(Matching {
        left_rows,
        right_rows,
        removed,
        added,
    })
}

/// Matches the rows of two tables by their keys. `left` and `right` are arrays with the key of each
/// row. If several rows of a table have the same key, the first of them is matched with the first
/// such row of the other table, the second with the second, and so on.
///
/// Fails with `TooManyRows` if a table has more than 2^32 rows, and with `Memory` if an allocation
/// fails.
pub fn match_rows<L: ByteRows, R: ByteRows>(
    alloc: Global,
    left: &L,
    right: &R,
) -> Result<Matching, MatchError>
    ensures few { IfOk result (λ _. AreFew (L.strings left.now) (R.strings right.now)) }
    ensures matching { MatchResult result (IsMatching (L.strings left.now) (R.strings right.now))
        (IsMatchFault (L.strings left.now) (R.strings right.now)) }
{
    if left.count() > MOST_ROWS || right.count() > MOST_ROWS {
        return Err(MatchError::TooManyRows);
    }
    match match_few(alloc, left, right) {
        Ok(matching) => Ok(matching),
        Err(_) => Err(MatchError::Memory),
    }
}
