//! Compares each list of an array with one list, which is given as an array of its items.

ghost use Rattle.std.specs.Prelude.{◌≡◌, ◌+◌, ◌≤◌, MatchResult};
ghost use Rattle.polars_arrays_bits.specs.Errors.{IsMemory};
ghost use Rattle.polars_arrays_nested.specs.AnyRows.{row, rows_from};
ghost use Rattle.polars_arrays_nested.specs.GoodParts.{IsGood};
ghost use Rattle.polars_arrays_nested.specs.Lengths.{len_of};
ghost use Rattle.polars_arrays_nested.specs.ListOffsets.{list_count};
ghost use Rattle.polars_arrays_nested.specs.Parts.{fixed_values, list_offsets, list_values};
ghost use Rattle.polars_arrays_nested.specs.StoredRows.{stored_fixed_list, stored_list};
ghost use Rattle.polars_arrays_nested.specs.Types.{type_of};
ghost use Rattle.polars_arrays_nested.specs.declared.any_array.AnyArray.{List, FixedSizeList};
ghost use Rattle.polars_compare_leaves.specs.Sameness.{same_leaf, same_rows};
ghost use Rattle.polars_compare_nested.specs.Broadcasts.{SameAsAll};

use crate::items::item_window;
use crate::runs::item_count;
use crate::windows::equal_windows;
use polars_arrays_bits::bit_mask::BitMask;
use polars_arrays_bits::bitmap::Bitmap;
use polars_arrays_bits::builder::BitmapBuilder;
use polars_arrays_bits::error::ComputeError;
use polars_arrays_nested::any_array::AnyArray;
use polars_arrays_nested::fixed_size_list::FixedSizeListArray;
use polars_arrays_nested::list::ListArray;
use polars_arrays_numbers::steps::Steps;
use std::alloc::Global;

// Returns whether the `count` items from item `from` on are exactly the rows of `rows`, in order.
// Null is equal to null alone. The error is `Memory`.
fn are_all_rows(
    alloc: Global,
    items: &AnyArray,
    from: usize,
    count: usize,
    rows: &AnyArray,
) -> Result<bool, ComputeError>
    requires items_good { IsGood items.now }
    requires rows_good { IsGood rows.now }
    requires one_type { type_of items.now ≡ type_of rows.now }
    requires within { from + count ≤ len_of items.now }
    ensures { MatchResult result
        (λ bit. bit
        ≡ same_rows same_leaf (rows_from (row items.now) from count)
        (rows_from (row rows.now) 0 (len_of rows.now))) IsMemory }
{
    if count != rows.len() {
        return Ok(false);
    }
    let same = equal_windows(alloc, items, from, rows, 0, count, &mut Steps::new())?;
    Ok(BitMask::from_bitmap(&same).all_set(0, count))
}

/// Returns a bit for each list: 1 if its items are exactly the rows of `rows`, in order. For
/// example, with the rows 1 and 2, the list `[1, 2]` gives 1, and `[1]` and `[2, 1]` give 0. Null
/// lists are compared by their stored items. A null item is equal to null alone. The error is
/// `Memory`.
pub fn list_broadcast(
    alloc: Global,
    lists: &ListArray,
    rows: &AnyArray,
) -> Result<Bitmap, ComputeError>
    requires lists_good { IsGood (List lists.now) }
    requires rows_good { IsGood rows.now }
    requires one_type { type_of (list_values lists.now) ≡ type_of rows.now }
    ensures { MatchResult result
        (SameAsAll (stored_list lists.now) rows.now (list_count (list_offsets lists.now)))
        IsMemory }
{
    let n = lists.offsets().len();
    let mut bits = BitmapBuilder::with_capacity(alloc, n)?;
    for i in 0..n {
        let from = lists.offsets().offset(i);
        let count = item_count(lists, i);
        let same = are_all_rows(alloc, lists.values(), from, count, rows)?;
        bits.push_reserved(same);
    }
    Ok(bits.freeze())
}

/// Returns a bit for each list of fixed size: 1 if its items are exactly the rows of `rows`, in
/// order. Null lists are compared by their stored items. A null item is equal to null alone. The
/// error is `Memory`.
pub fn fixed_size_list_broadcast(
    alloc: Global,
    lists: &FixedSizeListArray,
    rows: &AnyArray,
) -> Result<Bitmap, ComputeError>
    requires lists_good { IsGood (FixedSizeList lists.now) }
    requires rows_good { IsGood rows.now }
    requires one_type { type_of (fixed_values lists.now) ≡ type_of rows.now }
    ensures { MatchResult result
        (SameAsAll (stored_fixed_list lists.now) rows.now (len_of (FixedSizeList lists.now)))
        IsMemory }
{
    let n = lists.len();
    let mut bits = BitmapBuilder::with_capacity(alloc, n)?;
    for i in 0..n {
        let (from, _) = item_window(lists, i, 1);
        let same = are_all_rows(alloc, lists.values(), from, lists.width(), rows)?;
        bits.push_reserved(same);
    }
    Ok(bits.freeze())
}
