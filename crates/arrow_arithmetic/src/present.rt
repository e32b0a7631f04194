//! The validity of results.

ghost use Rattle.std.specs.Prelude.{◌≡◌, length, map, IfOk, MatchResult};
ghost use Rattle.arrow_arithmetic.specs.Answers.{is_answered};
ghost use Rattle.arrow_columns.specs.Comparing.{under};
ghost use Rattle.polars_arrays_bits.specs.Errors.{IsMemory};

use arrow_columns::column::Column;
use arrow_columns::comparing::keep_present;
use num_traits::Zero;
use polars_arrays_bits::bitmap::Bitmap;
use polars_arrays_bits::error::ComputeError;
use polars_arrays_bits::slices::compare_constant;
use polars_arrays_numbers::comparison::Unequal;
use polars_arrays_numbers::native_type::NativeType;
use std::alloc::Global;

/// The numbers for which an operation has a result: every number, every number but 0, or none.
#[derive(Clone, Copy)]
pub(crate) enum Answered {
    Each,
    Nonzero,
    Nothing,
}

// Returns a bit for each number of `values`, 1 if it is one of the numbers `answered`, for which
// the operation has a result. The only error is `Memory`.
fn answered_bits<T: NativeType + Zero>(
    alloc: Global,
    answered: Answered,
    values: &[T],
) -> Result<Bitmap, ComputeError>
    ensures { MatchResult result (λ bits. bits
        ≡ map (λ x. is_answered answered (T.value x)) values.now) IsMemory }
{
    match answered {
        Answered::Each => Bitmap::new_with_value(alloc, true, values.len()),
        Answered::Nonzero => compare_constant(alloc, &Unequal, values, T::zero()),
        Answered::Nothing => Bitmap::new_with_value(alloc, false, values.len()),
    }
}

/// Returns a bit for each row of a column, 1 if the row is present and its number is one of the
/// numbers `answered`, for which the operation has a result. The only error is `Memory`.
pub(crate) fn present_rows<T: NativeType + Zero>(
    alloc: Global,
    answered: Answered,
    column: &Column<'_, T>,
) -> Result<Bitmap, ComputeError>
    ensures bits { MatchResult result (λ bits. bits ≡ under column.now.validity
        (map (λ x. is_answered answered (T.value x)) column.now.values)) IsMemory }
    ensures count { IfOk result (λ bits. length bits ≡ length column.now.values) }
{
    let raw = answered_bits(alloc, answered, column.values())?;
    let mut bits = raw.into_mut(alloc)?;
    keep_present(&mut bits, column.mask());
    Ok(bits.freeze())
}

/// Returns a bit for each pair of rows of two columns of equal length, 1 if both rows are present
/// and the right number is one of the numbers `answered`, for which the operation has a result. The
/// only error is `Memory`.
pub(crate) fn present_pairs<T: NativeType + Zero>(
    alloc: Global,
    answered: Answered,
    left: &Column<'_, T>,
    right: &Column<'_, T>,
) -> Result<Bitmap, ComputeError>
    requires { length right.now.values ≡ length left.now.values }
    ensures bits { MatchResult result (λ bits. bits ≡ under right.now.validity
        (under left.now.validity
        (map (λ x. is_answered answered (T.value x)) right.now.values))) IsMemory }
    ensures count { IfOk result (λ bits. length bits ≡ length left.now.values) }
{
    let raw = answered_bits(alloc, answered, right.values())?;
    let mut bits = raw.into_mut(alloc)?;
    keep_present(&mut bits, left.mask());
    keep_present(&mut bits, right.mask());
    Ok(bits.freeze())
}
