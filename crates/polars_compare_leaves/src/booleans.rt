//! Comparisons of stored truth values, 64 at a time. Validities are not read.

ghost use Rattle.std.specs.Prelude.{◌≡◌, ◌+◌, ◌≤◌, Bool, length, map, MatchResult};
ghost use Rattle.std.specs.Simd.Lanes.{zip2};
ghost use Rattle.polars_arrays_bits.specs.Errors.{IsMemory};
ghost use Rattle.polars_arrays_flat.specs.Row.{Row, Truth};
ghost use Rattle.polars_arrays_flat.specs.StoredRows.{truth_slots};
ghost use Rattle.polars_arrays_flat.specs.Validity.{window};
ghost use Rattle.polars_compare_leaves.specs.Order.{row_at_least, row_at_most, row_greater};
ghost use Rattle.polars_compare_leaves.specs.Order.{row_less};
ghost use Rattle.polars_compare_leaves.specs.Sameness.{other_row, same_row};

use polars_arrays_bits::bit_mask::BitMask;
use polars_arrays_bits::bitmap::Bitmap;
use polars_arrays_bits::error::ComputeError;
use polars_arrays_flat::array::Array;
use polars_arrays_flat::boolean::BooleanArray;
use polars_arrays_numbers::comparison::{
    Equal, Greater, GreaterOrEqual, Less, LessOrEqual, Unequal,
};
use std::alloc::Global;

/// A comparison of two truth values: `Equal`, `Unequal`, `Less`, `LessOrEqual`, `Greater` or
/// `GreaterOrEqual`. `false` is less than `true`.
pub trait TruthComparison {
    // The comparison as a relation of two rows.
    ghost rows: { Row → Row → Bool };

    /// Returns whether the comparison holds for `left` and `right`.
    fn compare(&self, left: bool, right: bool) -> bool
        ensures { result ≡ rows (Truth left) (Truth right) };

    /// Returns a bit for each index `i`: 1 if the comparison holds for bit `i` of the left mask and
    /// bit `i` of the right one. Both have the same length. The error is `Memory`.
    fn compare_bits(
        &self,
        alloc: Global,
        left: &BitMask<'_>,
        right: &BitMask<'_>,
    ) -> Result<Bitmap, ComputeError>
        requires { length right.now ≡ length left.now }
        ensures { MatchResult result
            (λ bits. bits ≡ zip2 (λ l r. rows (Truth l) (Truth r)) left.now right.now) IsMemory };
}

impl TruthComparison for Equal {
    ghost rows = { same_row };

    fn compare(&self, left: bool, right: bool) -> bool {
        left == right
    }

    fn compare_bits(
        &self,
        alloc: Global,
        left: &BitMask<'_>,
        right: &BitMask<'_>,
    ) -> Result<Bitmap, ComputeError> {
        left.xnor(alloc, right)
    }
}

impl TruthComparison for Unequal {
    ghost rows = { other_row };

    fn compare(&self, left: bool, right: bool) -> bool {
        left != right
    }

    fn compare_bits(
        &self,
        alloc: Global,
        left: &BitMask<'_>,
        right: &BitMask<'_>,
    ) -> Result<Bitmap, ComputeError> {
        left.xor(alloc, right)
    }
}

impl TruthComparison for Less {
    ghost rows = { row_less };

    fn compare(&self, left: bool, right: bool) -> bool {
        !left && right
    }

    fn compare_bits(
        &self,
        alloc: Global,
        left: &BitMask<'_>,
        right: &BitMask<'_>,
    ) -> Result<Bitmap, ComputeError> {
        right.and_not(alloc, left)
    }
}

impl TruthComparison for LessOrEqual {
    ghost rows = { row_at_most };

    fn compare(&self, left: bool, right: bool) -> bool {
        !left || right
    }

    fn compare_bits(
        &self,
        alloc: Global,
        left: &BitMask<'_>,
        right: &BitMask<'_>,
    ) -> Result<Bitmap, ComputeError> {
        right.or_not(alloc, left)
    }
}

impl TruthComparison for Greater {
    ghost rows = { row_greater };

    fn compare(&self, left: bool, right: bool) -> bool {
        left && !right
    }

    fn compare_bits(
        &self,
        alloc: Global,
        left: &BitMask<'_>,
        right: &BitMask<'_>,
    ) -> Result<Bitmap, ComputeError> {
        left.and_not(alloc, right)
    }
}

impl TruthComparison for GreaterOrEqual {
    ghost rows = { row_at_least };

    fn compare(&self, left: bool, right: bool) -> bool {
        left || !right
    }

    fn compare_bits(
        &self,
        alloc: Global,
        left: &BitMask<'_>,
        right: &BitMask<'_>,
    ) -> Result<Bitmap, ComputeError> {
        left.or_not(alloc, right)
    }
}

/// Returns a bit for each `i` below `n`: 1 if the comparison holds for the stored row `a + i` of
/// the left array and the stored row `b + i` of the right one. The error is `Memory`.
pub fn compare_truth_windows<E: TruthComparison>(
    alloc: Global,
    comparison: &E,
    left: &BooleanArray,
    a: usize,
    right: &BooleanArray,
    b: usize,
    n: usize,
) -> Result<Bitmap, ComputeError>
    requires left_in { a + n ≤ length left.now.values }
    requires right_in { b + n ≤ length right.now.values }
    ensures { MatchResult result (λ bits. bits ≡ zip2 E.rows
        (window a n (truth_slots left.now.values))
        (window b n (truth_slots right.now.values))) IsMemory }
{
    let left = BitMask::from_bitmap(left.values()).window(a, n);
    let right = BitMask::from_bitmap(right.values()).window(b, n);
    comparison.compare_bits(alloc, &left, &right)
}

/// Returns a bit for each stored row of `left`: 1 if the comparison holds for the row and the truth
/// value `right`. The error is `Memory`.
pub fn compare_truth<E: TruthComparison>(
    alloc: Global,
    comparison: &E,
    left: &BooleanArray,
    right: bool,
) -> Result<Bitmap, ComputeError>
    ensures { MatchResult result (λ bits. bits ≡ map (λ row. E.rows row (Truth right))
        (truth_slots left.now.values)) IsMemory }
{
    match (
        comparison.compare(true, right),
        comparison.compare(false, right),
    ) {
        (true, true) => Bitmap::new_with_value(alloc, true, left.len()),
        (true, false) => left.values().clone_bitmap(alloc),
        (false, true) => left.values().not(alloc),
        (false, false) => Bitmap::new_zeroed(alloc, left.len()),
    }
}
