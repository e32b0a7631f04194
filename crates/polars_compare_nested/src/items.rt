//! The items of lists of fixed size.

ghost use Rattle.std.specs.Prelude.{◌≡◌, ◌+◌, ◌*◌, ◌≤◌};
ghost use Rattle.polars_arrays_nested.specs.GoodParts.{IsGood};
ghost use Rattle.polars_arrays_nested.specs.Lengths.{len_of};
ghost use Rattle.polars_arrays_nested.specs.Parts.{fixed_values, fixed_width};
ghost use Rattle.polars_arrays_nested.specs.declared.any_array.AnyArray.{FixedSizeList};

use polars_arrays_nested::fixed_size_list::FixedSizeListArray;

/// Returns the index of the first item of list `at`, and the number of items of `n` lists from list
/// `at` on.
pub(crate) fn item_window(array: &FixedSizeListArray, at: usize, n: usize) -> (usize, usize)
    requires good { IsGood (FixedSizeList array.now) }
    requires within { at + n ≤ len_of (FixedSizeList array.now) }
    ensures first { result.0 ≡ fixed_width array.now * at }
    ensures count { result.1 ≡ fixed_width array.now * n }
    ensures within { result.0 + result.1 ≤ len_of (fixed_values array.now) }
{
    // For the proof: the number of items fits in 64 bits, so the products don't overflow.
    let _items = array.values().len();
    (array.width() * at, array.width() * n)
}
