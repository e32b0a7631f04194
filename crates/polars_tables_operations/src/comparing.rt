//! Compares the rows of an array with those of another one, or with a scalar.

ghost use Rattle.std.specs.Prelude.{◌≡◌, None, length, replicate, MatchResult};
ghost use Rattle.polars_arrays_bits.specs.Errors.{IsMemory};
ghost use Rattle.polars_arrays_flat.specs.ArrayRows.{truth_rows};
ghost use Rattle.polars_arrays_flat.specs.StoredRows.{rows_under, truth_slots};
ghost use Rattle.polars_arrays_flat.specs.Validity.{HasBits};
ghost use Rattle.polars_compute_arithmetic.specs.Maps.{joined_validity};
ghost use Rattle.polars_tables_operations.specs.Comparing.{ComparesRows, answer_validity};
ghost use Rattle.polars_tables_operations.specs.Comparing.{compared_rows};

use crate::kernel_array::KernelArray;
use crate::operation::ComparisonKind;
use polars_arrays_bits::bitmap::Bitmap;
use polars_arrays_bits::error::ComputeError;
use polars_arrays_flat::boolean::BooleanArray;
use polars_arrays_flat::mask::Mask;
use std::alloc::Global;

// Returns a bit for each row: the result of the comparison. If the result is null, the bit has no
// meaning. The only error is `Memory`, since any two arrays of the same kind and length can be
// compared.
fn compare_bits<A: KernelArray>(
    alloc: Global,
    comparison: ComparisonKind,
    left: &A,
    right: &A,
) -> Result<Bitmap, ComputeError>
    requires as_long { length (A.slots right.now) ≡ length (A.slots left.now) }
    requires left_bits { HasBits (length (A.slots left.now)) (A.mask left.now) }
    requires right_bits { HasBits (length (A.slots right.now)) (A.mask right.now) }
    ensures { MatchResult result
        (ComparesRows comparison (rows_under (A.mask left.now) (A.slots left.now))
        (rows_under (A.mask right.now) (A.slots right.now)))
        IsMemory }
{
    match comparison {
        ComparisonKind::Equal => left.tot_eq_kernel(alloc, right),
        ComparisonKind::Unequal => left.tot_ne_kernel(alloc, right),
        ComparisonKind::Less => left.tot_lt_kernel(alloc, right),
        ComparisonKind::LessOrEqual => left.tot_le_kernel(alloc, right),
        ComparisonKind::Greater => left.tot_gt_kernel(alloc, right),
        ComparisonKind::GreaterOrEqual => left.tot_ge_kernel(alloc, right),
        ComparisonKind::EqualMissing => left.tot_eq_missing_kernel(alloc, right),
        ComparisonKind::UnequalMissing => left.tot_ne_missing_kernel(alloc, right),
    }
}

// Returns a bit for each row: the result of comparing the row with the scalar. If the result is
// null, the bit has no meaning. The only error is `Memory`, since each of these kinds of arrays can
// be compared with a scalar.
fn compare_bits_scalar<A: KernelArray>(
    alloc: Global,
    comparison: ComparisonKind,
    rows: &A,
    scalar: &A::Value,
) -> Result<Bitmap, ComputeError>
    requires { HasBits (length (A.slots rows.now)) (A.mask rows.now) }
    ensures { MatchResult result
        (ComparesRows comparison (rows_under (A.mask rows.now) (A.slots rows.now))
        (replicate (length (A.slots rows.now)) (A.value_row scalar.now)))
        IsMemory }
{
    match comparison {
        ComparisonKind::Equal => rows.tot_eq_kernel_broadcast(alloc, scalar),
        ComparisonKind::Unequal => rows.tot_ne_kernel_broadcast(alloc, scalar),
        ComparisonKind::Less => rows.tot_lt_kernel_broadcast(alloc, scalar),
        ComparisonKind::LessOrEqual => rows.tot_le_kernel_broadcast(alloc, scalar),
        ComparisonKind::Greater => rows.tot_gt_kernel_broadcast(alloc, scalar),
        ComparisonKind::GreaterOrEqual => rows.tot_ge_kernel_broadcast(alloc, scalar),
        ComparisonKind::EqualMissing => rows.tot_eq_missing_kernel_broadcast(alloc, scalar),
        ComparisonKind::UnequalMissing => rows.tot_ne_missing_kernel_broadcast(alloc, scalar),
    }
}

// Returns a bit for each of `n` rows, 1 if the row is present on both sides. Returns `None` if both
// masks have no bits, so that all rows are present. The only error is `Memory`.
fn present_in_both(
    alloc: Global,
    left: &Mask<'_>,
    right: &Mask<'_>,
    n: usize,
) -> Result<Option<Bitmap>, ComputeError>
    requires left_bits { HasBits n left.now }
    requires right_bits { HasBits n right.now }
    ensures { MatchResult result (λ bits. bits ≡ joined_validity left.now right.now) IsMemory }
{
    match (left.bits(), right.bits()) {
        (Some(left), Some(right)) => Ok(Some(left.and(alloc, &right)?)),
        (Some(left), None) => Ok(Some(left.to_bitmap(alloc)?)),
        (None, Some(right)) => Ok(Some(right.to_bitmap(alloc)?)),
        (None, None) => Ok(None),
    }
}

// Returns the validity of the results of a comparison of `n` pairs of rows. Missing comparisons
// have no null results. The result of any other comparison is null if one of the two rows is null.
// The only error is `Memory`.
fn validity_of(
    alloc: Global,
    comparison: ComparisonKind,
    left: &Mask<'_>,
    right: &Mask<'_>,
    n: usize,
) -> Result<Option<Bitmap>, ComputeError>
    requires left_bits { HasBits n left.now }
    requires right_bits { HasBits n right.now }
    ensures { MatchResult result
        (λ bits. bits ≡ answer_validity comparison left.now right.now) IsMemory }
{
    match comparison {
        ComparisonKind::EqualMissing | ComparisonKind::UnequalMissing => Ok(None),
        _ => present_in_both(alloc, left, right, n),
    }
}

// Makes an array of `bits`, the results of a comparison. `left` and `right` are the masks of the
// compared rows. They decide which results are null (`validity_of`). The only error is `Memory`.
fn answered(
    alloc: Global,
    comparison: ComparisonKind,
    left: &Mask<'_>,
    right: &Mask<'_>,
    bits: Bitmap,
) -> Result<BooleanArray, ComputeError>
    requires left_bits { HasBits (length bits) left.now }
    requires right_bits { HasBits (length bits) right.now }
    ensures { MatchResult result
        (λ answers. truth_rows answers
        ≡ rows_under (answer_validity comparison left.now right.now) (truth_slots bits)) IsMemory }
{
    let validity = validity_of(alloc, comparison, left, right, bits.len())?;
    let Ok(answers) = BooleanArray::try_new(bits, validity) else {
        unreachable!();
    };
    Ok(answers)
}

/// Compares two arrays of equal length, row by row, and returns the result for each pair of rows:
/// true, false, or null as `ComparisonKind` describes. The only error is `Memory`.
pub fn compare_rows<A: KernelArray>(
    alloc: Global,
    comparison: ComparisonKind,
    left: &A,
    right: &A,
) -> Result<BooleanArray, ComputeError>
    requires { length (A.slots right.now) ≡ length (A.slots left.now) }
    ensures { MatchResult result
        (λ answers. truth_rows answers
        ≡ compared_rows comparison (rows_under (A.mask left.now) (A.slots left.now))
        (rows_under (A.mask right.now) (A.slots right.now))) IsMemory }
{
    let left_mask = left.missing_mask(alloc)?;
    let right_mask = right.missing_mask(alloc)?;
    let bits = compare_bits(alloc, comparison, left, right)?;
    answered(alloc, comparison, &left_mask, &right_mask, bits)
}

/// Compares each row of an array with a scalar, and returns the result for each row: true, false,
/// or null as `ComparisonKind` describes. The only error is `Memory`.
pub fn compare_scalar<A: KernelArray>(
    alloc: Global,
    comparison: ComparisonKind,
    rows: &A,
    scalar: &A::Value,
) -> Result<BooleanArray, ComputeError>
    ensures { MatchResult result
        (λ answers. truth_rows answers
        ≡ compared_rows comparison (rows_under (A.mask rows.now) (A.slots rows.now))
        (replicate (length (rows_under (A.mask rows.now) (A.slots rows.now)))
        (A.value_row scalar.now))) IsMemory }
{
    let mask = rows.missing_mask(alloc)?;
    let bits = compare_bits_scalar(alloc, comparison, rows, scalar)?;
    let every = Mask::all();
    answered(alloc, comparison, &mask, &every, bits)
}
