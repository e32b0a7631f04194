//! Finds the pairs of rows that differ, in two tables of cells.

ghost use Rattle.std.specs.Prelude.{◌≡◌, ◌*◌, ℕ, Bool, List, true, length, MatchResult};
ghost use Rattle.polars_arrays_bits.specs.Errors.{IsMemory};
ghost use Rattle.polars_arrays_nested.specs.declared.any_array.AnyArray.TheVariants.{FixedSizeList};
ghost use Rattle.diff_keys.specs.Rising.{ListsRising};
ghost use Rattle.diff_pairs.specs.Cells.{AreRows, are_far, strings_of};
ghost use Rattle.diff_pairs.specs.Held.{HoldsCells, HoldsRows};
ghost use Rattle.diff_pairs.specs.Pairs.{NameRows};
ghost use Rattle.diff_pairs.specs.Rows.{HaveOtherCells};

use crate::cells::{LentCells, are_far, cell_array};
use crate::changed::changed_pairs;
use polars_arrays_bits::error::ComputeError;
use polars_arrays_nested::any_array::AnyArray;
use polars_arrays_nested::fixed_size_list::FixedSizeListArray;
use std::alloc::Global;

/// Borrowed rows of a table.
#[derive(Clone, Copy)]
pub struct LentRows<'a> {
    /// The number of cells in each row.
    pub width: usize,
    /// The number of rows.
    pub count: usize,
    /// The cells of all rows, row by row.
    pub cells: LentCells<'a>,
}

/// Divides `cells` into `count` lists of `width` cells each, and returns the array of these lists.
/// The only error is `Memory`.
fn lists_of(
    alloc: Global,
    width: usize,
    count: usize,
    cells: AnyArray,
) -> Result<FixedSizeListArray, ComputeError>
    requires { (far : Bool) × (strings : List (List ℕ)) × HoldsCells far strings cells
        × (length strings ≡ width * count) }
    ensures { MatchResult result
        (λ lists. (far : Bool) (strings : List (List ℕ)) → HoldsCells far strings cells
        → length strings ≡ width * count → HoldsRows far width count strings (FixedSizeList lists))
        IsMemory }
{
    let values = Box::new(alloc, cells)?;
    match FixedSizeListArray::try_new(width, count, values, None) {
        Ok(array) => Ok(array),
        Err(_) => unreachable!(),
    }
}

/// Returns an array that has for each of `rows` the list of its cells. The cells have 64-bit
/// offsets if `wide` is true, and else 32-bit offsets. `wide` must be true if the cells of `rows`
/// have 64-bit offsets. No byte is copied if the buffers of the cells are shared. The only error is
/// `Memory`.
fn list_array(
    alloc: Global,
    rows: LentRows<'_>,
    wide: bool,
) -> Result<FixedSizeListArray, ComputeError>
    requires rows { AreRows rows }
    requires wide { are_far rows.cells ≡ true → wide ≡ true }
    ensures { MatchResult result
        (λ lists. HoldsRows wide rows.entry.width rows.entry.count (strings_of rows.entry.cells)
        (FixedSizeList lists)) IsMemory }
{
    match cell_array(alloc, rows.cells, wide) {
        Ok(cells) => lists_of(alloc, rows.width, rows.count, cells),
        Err(error) => Err(error),
    }
}

/// Returns the indices of the pairs whose two rows have different cells, in ascending order. Pair
/// `p` is list `left_rows[p]` of `left` (the cells of a left row) and row `right_rows[p]` of
/// `right`. The lists of `left` must have `right.width` cells each. The cells of `left` have 64-bit
/// offsets if `wide` is true, and else 32-bit offsets. `wide` must be true if the cells of `right`
/// have 64-bit offsets. The only error is `Memory`.
fn changed_lists(
    alloc: Global,
    left: FixedSizeListArray,
    left_rows: Vec<u32>,
    right: LentRows<'_>,
    right_rows: Vec<u32>,
    wide: bool,
) -> Result<Vec<usize>, ComputeError>
    requires rows { AreRows right }
    requires wide { are_far right.cells ≡ true → wide ≡ true }
    requires one_length { length left_rows.items ≡ length right_rows.items }
    requires right_within { NameRows right.count right_rows.items }
    requires left { (count : ℕ) × (strings : List (List ℕ))
        × HoldsRows wide right.width count strings (FixedSizeList left)
        × NameRows count left_rows.items }
    ensures { MatchResult result
        (λ changed. (count : ℕ) (strings : List (List ℕ))
        → HoldsRows wide right.entry.width count strings (FixedSizeList left)
        → NameRows count left_rows.items
        → ListsRising
        (HaveOtherCells right.entry.width strings (strings_of right.entry.cells) left_rows.items
        right_rows.items) (length left_rows.items) changed.items) IsMemory }
{
    match list_array(alloc, right, wide) {
        Ok(right) => {
            let (left, right) = (
                AnyArray::FixedSizeList(left),
                AnyArray::FixedSizeList(right),
            );
            changed_pairs(alloc, left, left_rows, right, right_rows)
        }
        Err(error) => Err(error),
    }
}

/// Returns the indices of the pairs whose two rows have different cells, in ascending order. Pair
/// `p` is row `left_rows[p]` of `left` and row `right_rows[p]` of `right`. Both tables must have
/// the same width. No byte of a cell is copied if the buffers of the cells are shared. The only
/// error is `Memory`.
pub fn changed_rows(
    alloc: Global,
    left: LentRows<'_>,
    left_rows: Vec<u32>,
    right: LentRows<'_>,
    right_rows: Vec<u32>,
) -> Result<Vec<usize>, ComputeError>
    requires left { AreRows left }
    requires right { AreRows right }
    requires width { left.width ≡ right.width }
    requires one_length { length left_rows.items ≡ length right_rows.items }
    requires left_within { NameRows left.count left_rows.items }
    requires right_within { NameRows right.count right_rows.items }
    ensures { MatchResult result
        (λ changed. ListsRising
        (HaveOtherCells right.entry.width (strings_of left.entry.cells)
        (strings_of right.entry.cells) left_rows.items right_rows.items) (length left_rows.items)
        changed.items) IsMemory }
{
    // The kernel compares arrays of the same type, so both get offsets of the same width.
    let wide = are_far(left.cells) || are_far(right.cells);
    match list_array(alloc, left, wide) {
        Ok(left) => changed_lists(alloc, left, left_rows, right, right_rows, wide),
        Err(error) => Err(error),
    }
}
