//! Comparisons of two columns of numbers, row by row.

ghost use Rattle.std.specs.Prelude.{◌≡◌, ◌≢◌, length, pos, IfErr, IfOk, OnErr, OnOk};
ghost use Rattle.std.specs.Simd.Lanes.{zip2};
ghost use Rattle.arrow_calls.specs.Columns.{IsColumn, rows_lent};
ghost use Rattle.arrow_calls.specs.Operations.{test_number};
ghost use Rattle.arrow_calls.specs.Statuses.{IsTrueOf, IsTrueStatus};
ghost use Rattle.arrow_columns.specs.Comparing.{holds_of};
ghost use Rattle.arrow_columns.specs.declared.comparing.Test.TheVariants.{Equal};
ghost use Rattle.dunkelva_c.specs.Comparisons.{AreAlike, IsComparison, IsNumberedComparison};
ghost use Rattle.dunkelva_c.specs.Comparisons.{IsTruePairFault};
ghost use Rattle.dunkelva_c.specs.Comparisons.{IsTrueRoomFault, IsTrueTestFault, compared_rows};

use crate::columns::at_one_kind;
use arrow_calls::columns::column;
use arrow_calls::fault::{Fault, status};
use arrow_calls::operations::comparison_of_code;
use arrow_columns::comparing::{Test, compare};
use arrow_parts::part::{Part, PartKind};
use arrow_parts::written::write_bits;
use polars_arrays_bits::bitmap::Bitmap;
use polars_arrays_numbers::native_type::NativeType;
use std::alloc::Global;

// Compares the numbers `xs` and `ys` of two parts, row by row. Returns a bit for each row, 1 if the
// comparison `test` is true. Fails with `Parts` if a part is not a valid column, and with `Memory`
// if an allocation fails.
fn compare_numbers<T: NativeType>(
    alloc: Global,
    test: Test,
    left: &Part<'_>,
    right: &Part<'_>,
    xs: &[T],
    ys: &[T],
) -> Result<Bitmap, Fault>
    requires { right.now.rows ≡ left.now.rows }
    ensures bits { IfOk result (λ bits. bits
        ≡ zip2 (holds_of test) (rows_lent T.value left.now xs.now)
        (rows_lent T.value right.now ys.now)) }
    ensures count { IfOk result (λ bits. length bits ≡ left.now.rows) }
    ensures refused { IfErr result (IsTrueOf
        (IsColumn left.now (length xs.now) × IsColumn right.now (length ys.now))) }
{
    let left = column(alloc, left, xs)?;
    let right = column(alloc, right, ys)?;
    let bits = compare(alloc, test, &left, &right)?;
    Ok(bits)
}

// Calls `compare_numbers` with the numbers of two parts, at the type that their kind stands for.
// Fails with `Types` if the parts differ in kind or in length, with `NotServed` if they are not
// numbers of 8 to 64 bits, and as `compare_numbers` does.
fn compare_parts(
    alloc: Global,
    test: Test,
    left: &Part<'_>,
    right: &Part<'_>,
) -> Result<Bitmap, Fault>
    ensures alike { IfOk result (λ _. AreAlike left.now right.now) }
    ensures bits { IfOk result (λ bits. bits ≡ compared_rows test left.now right.now) }
    ensures count { IfOk result (λ bits. length bits ≡ left.now.rows) }
    ensures refused { IfErr result (IsTruePairFault left.now right.now) }
{
    if left.kind != right.kind || left.rows != right.rows {
        return Err(Fault::Types);
    }
    at_one_kind!(left, right, (xs, ys) => compare_numbers(alloc, test, left, right, xs, ys))
}

// Compares two parts, row by row, and writes the bits into `out`. Fails as `compare_parts` does,
// and with `Room` if `out` has fewer bits than rows; `out` is then unchanged.
fn write_compared(
    alloc: Global,
    test: Test,
    left: &Part<'_>,
    right: &Part<'_>,
    out: &mut [u64],
) -> Result<(), Fault>
    ensures written { OnOk result (IsComparison test left.now right.now out.new) }
    ensures kept { OnErr result (out.new ≡ out.old) }
    ensures refused { IfErr result (IsTrueRoomFault (length out.old) left.now right.now) }
{
    let bits = compare_parts(alloc, test, left, right)?;
    write_bits(&bits, out)?;
    Ok(())
}

/// Compares two columns of numbers of the same kind and length, row by row. Writes a bit for each
/// row into `out`, 1 if the comparison is true, and sets all later bits to 0.
///
/// `test` is 0 for equal, 1 for unequal, 2 for less, 3 for less or equal, 4 for greater, and 5 for
/// greater or equal. For 0 and 1, null is equal to null alone. For the others, the bit is 0 if one
/// of the two rows is null. Returns 0 on success. Otherwise returns the status of a `Fault`, and
/// `out` is unchanged.
#[unsafe(no_mangle)]
pub extern "C" fn dunkelva_parts_compare(
    alloc: Global,
    test: u32,
    left: &Part<'_>,
    right: &Part<'_>,
    out: &mut [u64],
) -> i32
    ensures written { result ≡ pos 0 → IsNumberedComparison (test_number test) left.now right.now
        out.new }
    ensures kept { result ≢ pos 0 → out.new ≡ out.old }
    ensures refused { IsTrueStatus (IsTrueTestFault (test_number test)
        (length out.old) left.now right.now) result }
{
    let Some(test) = comparison_of_code(test) else {
        return status(Fault::NotServed);
    };
    match write_compared(alloc, test, left, right, out) {
        Ok(()) => 0,
        Err(fault) => status(fault),
    }
}

/// Compares two columns of numbers of the same kind and length for equality, row by row. Null is
/// equal to null alone. Writes a bit for each row into `out`, 1 if the rows are equal, and sets all
/// later bits to 0. Returns 0 on success. Otherwise returns the status of a `Fault`, and `out` is
/// unchanged.
#[unsafe(no_mangle)]
pub extern "C" fn dunkelva_parts_equal_lent(
    alloc: Global,
    left: &Part<'_>,
    right: &Part<'_>,
    out: &mut [u64],
) -> i32
    ensures written { result ≡ pos 0 → IsComparison Equal left.now right.now out.new }
    ensures kept { result ≢ pos 0 → out.new ≡ out.old }
    ensures refused { IsTrueStatus (IsTrueRoomFault (length out.old) left.now right.now) result }
{
    match write_compared(alloc, Test::Equal, left, right, out) {
        Ok(()) => 0,
        Err(fault) => status(fault),
    }
}
