//! Combines the raw bits of a comparison of two windows with their masks.

ghost use Rattle.std.specs.Prelude.{◌≡◌, ◌+◌, ◌≤◌, Bool, MatchResult, length};
ghost use Rattle.polars_arrays_bits.specs.Errors.{IsMemory};
ghost use Rattle.polars_arrays_flat.specs.Row.{Row};
ghost use Rattle.polars_arrays_nested.specs.GoodParts.{IsGood};
ghost use Rattle.polars_arrays_nested.specs.Lengths.{len_of};
ghost use Rattle.polars_arrays_nested.specs.Types.{type_of};
ghost use Rattle.polars_compare_nested.specs.Bits.{RawBits, SameBits};

use polars_arrays_bits::bitmap::Bitmap;
use polars_arrays_bits::error::ComputeError;
use polars_arrays_nested::any_array::AnyArray;
use polars_compare_leaves::joining::{Relation, join_masks};
use std::alloc::Global;

/// Combines `raw`, the bits of a raw comparison of two windows, with the masks of the windows, and
/// returns the bits of missing equality: two nulls are equal, and a null and a present row are not.
/// Bit `i` is that of row `a + i` of the left array and row `b + i` of the right one. If neither
/// array can have nulls, returns `raw` and computes no mask. The error is `Memory`.
#[inline(always)]
pub(crate) fn join_windows(
    alloc: Global,
    raw: Bitmap,
    left: &AnyArray,
    a: usize,
    right: &AnyArray,
    b: usize,
) -> Result<Bitmap, ComputeError>
    requires left_good { IsGood left.now }
    requires right_good { IsGood right.now }
    requires one_type { type_of left.now ≡ type_of right.now }
    requires left_in { a + length raw ≤ len_of left.now }
    requires right_in { b + length raw ≤ len_of right.now }
    ensures { MatchResult result
        (λ bits. (agree : Row → Row → Bool) → RawBits agree left.now a right.now b (length raw) raw
        → SameBits agree left.now a right.now b (length raw) bits) IsMemory }
{
    if !left.may_have_nulls() && !right.may_have_nulls() {
        return Ok(raw);
    }
    let n = raw.len();
    let left_mask = left.window_mask(alloc, a, n)?;
    let right_mask = right.window_mask(alloc, b, n)?;
    join_masks(
        alloc,
        Relation::Equal,
        raw,
        left_mask.bits(),
        right_mask.bits(),
    )
}
