//! Comparisons of the rows of columns, row by row.

ghost use Rattle.std.specs.Prelude.{◌≡◌, length, map, IfOk, MatchResult};
ghost use Rattle.std.specs.Simd.Lanes.{zip2};
ghost use Rattle.arrow_columns.specs.Comparing.{both, holds_of, under};
ghost use Rattle.polars_arrays_bits.specs.Errors.{IsMemory};
ghost use Rattle.polars_arrays_flat.specs.ArrayRows.{number_rows};
ghost use Rattle.polars_arrays_flat.specs.Row.{Int};
ghost use Rattle.polars_arrays_flat.specs.StoredRows.{number_slots};
ghost use Rattle.polars_arrays_flat.specs.Validity.{HasBits};
ghost use Rattle.polars_compare_leaves.specs.Joining.{Joined, told};
ghost use Rattle.polars_compare_leaves.specs.Sameness.{other_row};

use crate::column::Column;
use polars_arrays_bits::bit_mask::BitMask;
use polars_arrays_bits::bitmap::Bitmap;
use polars_arrays_bits::error::ComputeError;
use polars_arrays_bits::mutable_bitmap::MutableBitmap;
use polars_arrays_bits::slices::{SlicePairs, compare_constant, compare_pairs};
use polars_arrays_numbers::comparison::{
    Equal, Greater, GreaterOrEqual, Less, LessOrEqual, Unequal,
};
use polars_arrays_numbers::native_type::NativeType;
use polars_compare_leaves::joining::{Relation, join_masks};
use polars_compare_leaves::row_comparison::RowComparison;
use std::alloc::Global;

/// A comparison of two rows. Under `Equal` and `Unequal`, null is equal only to null. The other
/// comparisons are false if one of the two rows is null.
#[derive(Clone, Copy, PartialEq, Eq, Debug)]
pub enum Test {
    Equal,
    Unequal,
    Less,
    LessOrEqual,
    Greater,
    GreaterOrEqual,
}

// Compares two columns of equal length row by row. Two present rows are compared with `comparison`.
// If one of the two rows is null, they are compared under `relation`, which is `Equal` or
// `Unequal`: null is equal only to null. Returns a bit for each pair of rows, 1 if the comparison
// is true. The only error is `Memory`.
fn join<T: NativeType, E: RowComparison<T>>(
    alloc: Global,
    relation: Relation,
    comparison: &E,
    left: &Column<'_, T>,
    right: &Column<'_, T>,
) -> Result<Bitmap, ComputeError>
    requires { length right.now.values ≡ length left.now.values }
    ensures left_bits { HasBits (length left.now.values) left.now.validity }
    ensures right_bits { HasBits (length right.now.values) right.now.validity }
    ensures joined { MatchResult result (Joined (told relation) left.now.validity right.now.validity
        (zip2 E.rows (number_slots T.value left.now.values)
        (number_slots T.value right.now.values))) IsMemory }
    ensures count { IfOk result (λ bits. length bits ≡ length left.now.values) }
{
    let pairs = SlicePairs {
        comparison,
        left: left.values(),
        right: right.values(),
    };
    join_masks(alloc, relation, &pairs, left.mask(), right.mask())
}

/// Sets each bit of `bits` to 0 if the bit of `mask` for the same row is 0, that is, if the row is
/// null. Changes nothing if `mask` is `None`.
pub fn keep_present(bits: &mut MutableBitmap, mask: Option<BitMask<'_>>)
    requires { HasBits (length bits.old) mask }
    ensures { bits.new ≡ under mask.entry bits.old }
{
    if let Some(present) = mask {
        bits.and_assign_mask(&present);
    }
}

// Compares two columns of equal length row by row. Returns a bit for each pair of rows, 1 if both
// rows are present and `comparison` is true. The only error is `Memory`.
fn compare_present<T: NativeType, E: RowComparison<T>>(
    alloc: Global,
    comparison: &E,
    left: &Column<'_, T>,
    right: &Column<'_, T>,
) -> Result<Bitmap, ComputeError>
    requires { length right.now.values ≡ length left.now.values }
    ensures bits { MatchResult result (λ bits. bits ≡ zip2 (both E.rows)
        (number_rows T.value left.now) (number_rows T.value right.now)) IsMemory }
    ensures count { IfOk result (λ bits. length bits ≡ length left.now.values) }
{
    let raw = compare_pairs(alloc, comparison, left.values(), right.values())?;
    let mut bits = raw.into_mut(alloc)?;
    keep_present(&mut bits, left.mask());
    keep_present(&mut bits, right.mask());
    Ok(bits.freeze())
}

/// Compares the rows of two columns of equal length. Returns a bit for each pair of rows, 1 if the
/// comparison is true. The only error is `Memory`.
pub fn compare<T: NativeType>(
    alloc: Global,
    test: Test,
    left: &Column<'_, T>,
    right: &Column<'_, T>,
) -> Result<Bitmap, ComputeError>
    requires { length right.now.values ≡ length left.now.values }
    ensures bits { MatchResult result (λ bits. bits ≡ zip2 (holds_of test)
        (number_rows T.value left.now) (number_rows T.value right.now)) IsMemory }
    ensures count { IfOk result (λ bits. length bits ≡ length left.now.values) }
{
    match test {
        Test::Equal => join(alloc, Relation::Equal, &Equal, left, right),
        Test::Unequal => join(alloc, Relation::Unequal, &Unequal, left, right),
        Test::Less => compare_present(alloc, &Less, left, right),
        Test::LessOrEqual => compare_present(alloc, &LessOrEqual, left, right),
        Test::Greater => compare_present(alloc, &Greater, left, right),
        Test::GreaterOrEqual => compare_present(alloc, &GreaterOrEqual, left, right),
    }
}

// Compares each row of a column with the number `right`. Returns a bit for each row, 1 if the row
// is present and `comparison` is true. The only error is `Memory`.
fn compare_present_with<T: NativeType, E: RowComparison<T>>(
    alloc: Global,
    comparison: &E,
    left: &Column<'_, T>,
    right: T,
) -> Result<Bitmap, ComputeError>
    ensures bits { MatchResult result (λ bits. bits
        ≡ map (λ row. both E.rows row (Int (T.value right)))
        (number_rows T.value left.now)) IsMemory }
    ensures count { IfOk result (λ bits. length bits ≡ length left.now.values) }
{
    let raw = compare_constant(alloc, comparison, left.values(), right)?;
    let mut bits = raw.into_mut(alloc)?;
    keep_present(&mut bits, left.mask());
    Ok(bits.freeze())
}

// Returns a bit for each row of a column, 1 if the row is null or differs from `right`. The only
// error is `Memory`.
fn compare_unequal_with<T: NativeType>(
    alloc: Global,
    left: &Column<'_, T>,
    right: T,
) -> Result<Bitmap, ComputeError>
    ensures bits { MatchResult result (λ bits. bits
        ≡ map (λ row. other_row row (Int (T.value right)))
        (number_rows T.value left.now)) IsMemory }
    ensures count { IfOk result (λ bits. length bits ≡ length left.now.values) }
{
    let same = compare_present_with(alloc, &Equal, left, right)?;
    let other = BitMask::from_bitmap(&same).not(alloc)?;
    Ok(other)
}

/// Compares each row of a column with the number `right`. Returns a bit for each row, 1 if the
/// comparison is true. For a null row, only the comparison `Unequal` is true. The only error is
/// `Memory`.
pub fn compare_with<T: NativeType>(
    alloc: Global,
    test: Test,
    left: &Column<'_, T>,
    right: T,
) -> Result<Bitmap, ComputeError>
    ensures bits { MatchResult result (λ bits. bits
        ≡ map (λ row. holds_of test row (Int (T.value right)))
        (number_rows T.value left.now)) IsMemory }
    ensures count { IfOk result (λ bits. length bits ≡ length left.now.values) }
{
    match test {
        Test::Equal => compare_present_with(alloc, &Equal, left, right),
        Test::Unequal => compare_unequal_with(alloc, left, right),
        Test::Less => compare_present_with(alloc, &Less, left, right),
        Test::LessOrEqual => compare_present_with(alloc, &LessOrEqual, left, right),
        Test::Greater => compare_present_with(alloc, &Greater, left, right),
        Test::GreaterOrEqual => compare_present_with(alloc, &GreaterOrEqual, left, right),
    }
}
