//! Finds the pairs of rows that differ, in any two arrays of the same type.

ghost use Rattle.std.specs.Prelude.{◌≡◌, length, MatchResult};
ghost use Rattle.polars_arrays_bits.specs.Errors.{IsMemory};
ghost use Rattle.polars_arrays_nested.specs.GoodParts.{IsGood};
ghost use Rattle.polars_arrays_nested.specs.Lengths.{len_of};
ghost use Rattle.polars_arrays_nested.specs.Types.{type_of};
ghost use Rattle.diff_keys.specs.Rising.{ListsRising};
ghost use Rattle.diff_pairs.specs.Pairs.{IsChanged, NameRows, TellsSame};

use crate::picked::picked;
use crate::unset::unset_places;
use polars_arrays_bits::bitmap::Bitmap;
use polars_arrays_bits::error::ComputeError;
use polars_arrays_nested::any_array::AnyArray;
use polars_compare_nested::kernels::array_tot_eq_missing_kernel;
use std::alloc::Global;

/// Returns a bitmap with one bit for each pair of rows. The bit is 1 if the two rows are equal.
/// Pair `p` is row `left_rows[p]` of `left` and row `right_rows[p]` of `right`. Null is equal to
/// null. The only error is `Memory`.
fn same_pairs(
    alloc: Global,
    left: AnyArray,
    left_rows: Vec<u32>,
    right: AnyArray,
    right_rows: Vec<u32>,
) -> Result<Bitmap, ComputeError>
    requires left_good { IsGood left }
    requires right_good { IsGood right }
    requires one_type { type_of left ≡ type_of right }
    requires one_length { length left_rows.items ≡ length right_rows.items }
    requires left_within { NameRows (len_of left) left_rows.items }
    requires right_within { NameRows (len_of right) right_rows.items }
    ensures { MatchResult result (TellsSame left right left_rows.items right_rows.items) IsMemory }
{
    let left = picked(alloc, left, left_rows)?;
    let right = picked(alloc, right, right_rows)?;
    array_tot_eq_missing_kernel(alloc, &left, &right)
}

/// Returns the indices of the pairs whose two rows differ, in ascending order. Pair `p` is row
/// `left_rows[p]` of `left` and row `right_rows[p]` of `right`. Null is equal to null. `left` and
/// `right` must have the same type. The only error is `Memory`.
pub fn changed_pairs(
    alloc: Global,
    left: AnyArray,
    left_rows: Vec<u32>,
    right: AnyArray,
    right_rows: Vec<u32>,
) -> Result<Vec<usize>, ComputeError>
    requires left_good { IsGood left }
    requires right_good { IsGood right }
    requires one_type { type_of left ≡ type_of right }
    requires one_length { length left_rows.items ≡ length right_rows.items }
    requires left_within { NameRows (len_of left) left_rows.items }
    requires right_within { NameRows (len_of right) right_rows.items }
    ensures { MatchResult result
        (λ changed. ListsRising (IsChanged left right left_rows.items right_rows.items)
        (length left_rows.items) changed.items) IsMemory }
{
    let same = same_pairs(alloc, left, left_rows, right, right_rows)?;
    unset_places(alloc, &same)
}
