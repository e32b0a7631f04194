//! Makes lists of row numbers from the partners that were found.

ghost use Rattle.std.specs.Prelude.{◌≤◌, ◌<◌, ◌^◌, All, length, IfOk};
ghost use Rattle.diff_keys.specs.Listing.{AreFlags, HasNone, IsOther, IsUnset, ListsFound};
ghost use Rattle.diff_keys.specs.Rising.{ListsRising};

use std::alloc::{AllocError, Global};

/// Pairs of partners. Row `left_rows[k]` of the left table and row `right_rows[k]` of the right
/// table are partners.
#[derive(Drop)]
pub(crate) struct RowPairs {
    pub(crate) left_rows: Vec<u32>,
    pub(crate) right_rows: Vec<u32>,
}

/// Returns the pairs of partners in the order of the left rows. `found[i]` is the partner of left
/// row `i`, or `None` if it has no partner.
pub(crate) fn pairs_found(alloc: Global, found: &[Option<u32>]) -> Result<RowPairs, AllocError>
    requires { length found.now ≤ 2 ^ 32 }
    ensures { IfOk result
        (λ pairs. ListsFound found.now (length found.now) pairs.left_rows.items
        pairs.right_rows.items) }
{
    let mut left_rows = Vec::new(alloc);
    let mut right_rows = Vec::new(alloc);
    for i in 0..found.len() {
        if let Some(j) = found[i] {
            left_rows.push(i as u32)?;
            right_rows.push(j)?;
        }
    }
    Ok(RowPairs {
        left_rows,
        right_rows,
    })
}

/// Returns the left rows without a partner, in ascending order. `found[i]` is the partner of left
/// row `i`, or `None` if it has no partner.
pub(crate) fn rows_alone(alloc: Global, found: &[Option<u32>]) -> Result<Vec<u32>, AllocError>
    requires { length found.now ≤ 2 ^ 32 }
    ensures { IfOk result
        (λ alone. ListsRising (HasNone found.now) (length found.now) alone.items) }
{
    let mut alone = Vec::new(alloc);
    for i in 0..found.len() {
        if found[i].is_none() {
            alone.push(i as u32)?;
        }
    }
    Ok(alone)
}

/// Returns `count` flags. Flag `j` is set if `rows` contains `j`.
fn flags_of(alloc: Global, count: usize, rows: &[u32]) -> Result<Vec<bool>, AllocError>
    requires { All (λ j. j < count) rows.now }
    ensures { IfOk result (λ flags. AreFlags rows.now count flags.items) }
{
    let mut is_listed = vec![in alloc; false; count]?;
    for k in 0..rows.len() {
        is_listed[rows[k] as usize] = true;
    }
    Ok(is_listed)
}

/// Returns the indices of the flags that are not set, in ascending order.
fn places_unset(alloc: Global, flags: &[bool]) -> Result<Vec<u32>, AllocError>
    requires { length flags.now ≤ 2 ^ 32 }
    ensures { IfOk result
        (λ places. ListsRising (IsUnset flags.now) (length flags.now) places.items) }
{
    let mut places = Vec::new(alloc);
    for j in 0..flags.len() {
        if !flags[j] {
            places.push(j as u32)?;
        }
    }
    Ok(places)
}

/// Returns the numbers below `count` that `rows` does not contain, in ascending order.
pub(crate) fn other_rows(alloc: Global, count: usize, rows: &[u32]) -> Result<Vec<u32>, AllocError>
    requires few { count ≤ 2 ^ 32 }
    requires within { All (λ j. j < count) rows.now }
    ensures { IfOk result (λ others. ListsRising (IsOther rows.now) count others.items) }
{
    let is_listed = flags_of(alloc, count, rows)?;
    let others = places_unset(alloc, &is_listed)?;
    Ok(others)
}
