//! Comparisons of stored numbers. Validities are not read.

ghost use Rattle.std.specs.Prelude.{◌≡◌, ℕ, ◌+◌, ◌<◌, ◌≤◌, false, ◌&&◌, length, map, MatchResult};
ghost use Rattle.std.specs.Simd.Lanes.{zip2};
ghost use Rattle.polars_arrays_words.specs.Bits.{first_of, is_bit};
ghost use Rattle.polars_arrays_bits.specs.Errors.{IsMemory};
ghost use Rattle.polars_arrays_flat.specs.Row.{Int};
ghost use Rattle.polars_arrays_flat.specs.StoredRows.{number_slots};
ghost use Rattle.polars_arrays_flat.specs.Validity.{HasBits, window};
ghost use Rattle.polars_compare_leaves.specs.Joining.{Joined, told};

use crate::joining::{Relation, join_masks};
use crate::row_comparison::RowComparison;
use polars_arrays_bits::bitmap::Bitmap;
use polars_arrays_bits::error::ComputeError;
use polars_arrays_bits::mutable_bitmap::MutableBitmap;
use polars_arrays_bits::slices::{SlicePairs, and_pairs, compare_constant, compare_few};
use polars_arrays_flat::mask::Mask;
use polars_arrays_flat::primitive::PrimitiveArray;
use polars_arrays_numbers::native_type::NativeType;
use std::alloc::Global;

/// Returns a bit for each `i` below `n`: 1 if the comparison holds for the stored row `a + i` of
/// the left array and the stored row `b + i` of the right one. The error is `Memory`.
pub fn compare_number_windows<T: NativeType, E: RowComparison<T>>(
    alloc: Global,
    comparison: &E,
    left: &PrimitiveArray<T>,
    a: usize,
    right: &PrimitiveArray<T>,
    b: usize,
    n: usize,
) -> Result<Bitmap, ComputeError>
    requires left_in { a + n ≤ length left.now.values }
    requires right_in { b + n ≤ length right.now.values }
    ensures { MatchResult result (λ bits. bits ≡ zip2 E.rows
        (window a n (number_slots T.value left.now.values))
        (window b n (number_slots T.value right.now.values))) IsMemory }
{
    let pairs = SlicePairs {
        comparison,
        left: &left.values()[a..a + n],
        right: &right.values()[b..b + n],
    };
    Bitmap::from_values(alloc, &pairs)
}

/// Returns a word whose bit `i` is 1 if the comparison holds for the stored row `a + i` of the left
/// array and the stored row `b + i` of the right one, for each `i` below `n`, which is at most 64.
/// All other bits are 0. Does not allocate.
#[inline(always)]
pub fn compare_few_numbers<T: NativeType, E: RowComparison<T>>(
    comparison: &E,
    left: &PrimitiveArray<T>,
    a: usize,
    right: &PrimitiveArray<T>,
    b: usize,
    n: usize,
) -> u64
    requires left_in { a + n ≤ length left.now.values }
    requires right_in { b + n ≤ length right.now.values }
    requires few { n ≤ 64 }
    ensures bits { first_of (is_bit result) n ≡ zip2 E.rows
        (window a n (number_slots T.value left.now.values))
        (window b n (number_slots T.value right.now.values)) }
    ensures rest { (i : ℕ) → n ≤ i → i < 64 → is_bit result i ≡ false }
{
    let (left, right) = (left.values(), right.values());
    compare_few(comparison, &left[a..a + n], &right[b..b + n])
}

/// Clears each bit `i` of `bits` for which the comparison doesn't hold for the stored row `a + i`
/// of the left array and the stored row `b + i` of the right one. All other bits stay the same.
/// Does not allocate.
pub fn and_number_windows<T: NativeType, E: RowComparison<T>>(
    bits: &mut MutableBitmap,
    comparison: &E,
    left: &PrimitiveArray<T>,
    a: usize,
    right: &PrimitiveArray<T>,
    b: usize,
)
    requires left_in { a + length bits.old ≤ length left.now.values }
    requires right_in { b + length bits.old ≤ length right.now.values }
    ensures { bits.new ≡ zip2 ◌&&◌ bits.old (zip2 E.rows
        (window a (length bits.old) (number_slots T.value left.now.values))
        (window b (length bits.old) (number_slots T.value right.now.values))) }
{
    let n = bits.len();
    let (left, right) = (left.values(), right.values());
    and_pairs(bits, comparison, &left[a..a + n], &right[b..b + n]);
}

/// Compares the stored rows of two arrays of equal length, and combines the results with the masks
/// of both sides. Returns the bits of missing equality or inequality; `relation` says which of the
/// two `comparison` is. The error is `Memory`.
#[inline(always)]
pub fn join_numbers<T: NativeType, E: RowComparison<T>>(
    alloc: Global,
    relation: Relation,
    comparison: &E,
    left: &PrimitiveArray<T>,
    left_mask: &Mask<'_>,
    right: &PrimitiveArray<T>,
    right_mask: &Mask<'_>,
) -> Result<Bitmap, ComputeError>
    requires one_length { length right.now.values ≡ length left.now.values }
    requires left_bits { HasBits (length left.now.values) left_mask.now }
    requires right_bits { HasBits (length left.now.values) right_mask.now }
    ensures { MatchResult result (Joined (told relation) left_mask.now right_mask.now
        (zip2 E.rows (number_slots T.value left.now.values)
        (number_slots T.value right.now.values))) IsMemory }
{
    let pairs = SlicePairs {
        comparison,
        left: left.values(),
        right: right.values(),
    };
    join_masks(alloc, relation, &pairs, left_mask.bits(), right_mask.bits())
}

/// Returns a bit for each stored row of `left`: 1 if the comparison holds for the row and the
/// number `right`. The error is `Memory`.
pub fn compare_number<T: NativeType, E: RowComparison<T>>(
    alloc: Global,
    comparison: &E,
    left: &PrimitiveArray<T>,
    right: T,
) -> Result<Bitmap, ComputeError>
    ensures { MatchResult result (λ bits. bits ≡ map (λ row. E.rows row (Int (T.value right)))
        (number_slots T.value left.now.values)) IsMemory }
{
    compare_constant(alloc, comparison, left.values(), right)
}
