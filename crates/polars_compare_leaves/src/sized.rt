//! Comparisons of stored byte strings of fixed size. Validities are not read.

ghost use Rattle.std.specs.Prelude.{◌≡◌, ◌+◌, ◌≤◌, length, MatchResult};
ghost use Rattle.std.specs.Simd.Lanes.{zip2};
ghost use Rattle.polars_arrays_bits.specs.Errors.{IsMemory};
ghost use Rattle.polars_arrays_bytes.specs.SizedStrings.{sized_strings};
ghost use Rattle.polars_arrays_flat.specs.StoredRows.{byte_slots};
ghost use Rattle.polars_arrays_flat.specs.Validity.{window};

use crate::bytes::{ByteComparison, compare_byte_windows};
use polars_arrays_bits::bitmap::Bitmap;
use polars_arrays_bits::error::ComputeError;
use polars_arrays_bytes::fixed_size::FixedSizeBinaryArray;
use polars_arrays_bytes::of_size::OfSize;
use std::alloc::Global;

// Size in bytes of UUIDs and of numbers of 128 bits. The loop over strings of this size is compiled
// separately, with the size as a constant.
const UUID_SIZE: usize = 16;

/// Returns a bit for each `i` below `n`: 1 if the comparison holds for the stored byte string
/// `a + i` of the left array and the stored byte string `b + i` of the right one. The strings of
/// the two arrays may have different sizes. The error is `Memory`.
pub fn compare_sized_windows<E: ByteComparison>(
    alloc: Global,
    comparison: &E,
    left: &FixedSizeBinaryArray,
    a: usize,
    right: &FixedSizeBinaryArray,
    b: usize,
    n: usize,
) -> Result<Bitmap, ComputeError>
    requires left_in { a + n ≤ length (sized_strings left.now.size left.now.count left.now.values) }
    requires right_in { b + n ≤ length
        (sized_strings right.now.size right.now.count right.now.values) }
    ensures { MatchResult result (λ bits. bits ≡ zip2 E.rows
        (window a n (byte_slots (sized_strings left.now.size left.now.count left.now.values)))
        (window b n (byte_slots (sized_strings right.now.size right.now.count right.now.values))))
        IsMemory }
{
    if left.size() == UUID_SIZE && right.size() == UUID_SIZE {
        let left = OfSize::<UUID_SIZE>::new(left);
        let right = OfSize::<UUID_SIZE>::new(right);
        compare_byte_windows(alloc, comparison, &left, a, &right, b, n)
    } else {
        compare_byte_windows(alloc, comparison, left, a, right, b, n)
    }
}
