//! Comparisons of a column of numbers with a constant number.

ghost use Rattle.std.specs.Prelude.{◌≡◌, ◌≢◌, length, map, pos, IfErr, IfOk, OnErr, OnOk};
ghost use Rattle.arrow_calls.specs.Columns.{rows_lent};
ghost use Rattle.arrow_calls.specs.Numbers.{words_number};
ghost use Rattle.arrow_calls.specs.Operations.{test_number};
ghost use Rattle.arrow_calls.specs.Statuses.{IsTrueStatus};
ghost use Rattle.arrow_columns.specs.Comparing.{holds_of};
ghost use Rattle.dunkelva_c.specs.NumberComparisons.{AreCompared, IsNumberedTest};
ghost use Rattle.dunkelva_c.specs.NumberComparisons.{IsTrueNumberFault};
ghost use Rattle.dunkelva_c.specs.NumberComparisons.{IsTrueNumberRoomFault, IsTrueNumberTestFault};
ghost use Rattle.dunkelva_c.specs.NumberComparisons.{IsTrueTypeFault, compared_with};
ghost use Rattle.polars_arrays_flat.specs.Row.{Int};

use crate::columns::at_number_kind;
use arrow_calls::columns::column;
use arrow_calls::fault::{Fault, status};
use arrow_calls::number::{narrow, whole_of};
use arrow_calls::operations::comparison_of_code;
use arrow_columns::comparing::{Test, compare_with};
use arrow_parts::part::{Part, PartKind};
use arrow_parts::written::write_bits;
use polars_arrays_bits::bitmap::Bitmap;
use polars_compute_slots::number::UniqueNumber;
use std::alloc::Global;

// Compares each of `values`, the numbers of a part, with the constant `number`. Returns a bit for
// each row, 1 if the comparison `test` is true. Fails with `Types` if type `T` can't represent the
// constant, with `Parts` if the part is not a valid column, and with `Memory` if an allocation
// fails.
fn compare_numbers<T: UniqueNumber>(
    alloc: Global,
    test: Test,
    part: &Part<'_>,
    number: i128,
    values: &[T],
) -> Result<Bitmap, Fault>
    ensures bits { IfOk result (λ bits. bits
        ≡ map (λ row. holds_of test row (Int number)) (rows_lent T.value part.now values.now)) }
    ensures count { IfOk result (λ bits. length bits ≡ part.now.rows) }
    ensures refused { IfErr result (IsTrueTypeFault T.low T.high number
        (length values.now) part.now) }
{
    let Some(right) = narrow::<T>(number) else {
        return Err(Fault::Types);
    };
    let left = column(alloc, part, values)?;
    let bits = compare_with(alloc, test, &left, right)?;
    Ok(bits)
}

// Calls `compare_numbers` with the numbers of a part, at the type that the part's kind stands for.
// Fails with `NotServed` if the part has no numbers of 8 to 64 bits, and as `compare_numbers` does.
fn compare_part(alloc: Global, test: Test, part: &Part<'_>, number: i128) -> Result<Bitmap, Fault>
    ensures bits { IfOk result (λ bits. bits ≡ compared_with test part.now number) }
    ensures count { IfOk result (λ bits. length bits ≡ part.now.rows) }
    ensures refused { IfErr result (IsTrueNumberFault number part.now) }
{
    at_number_kind!(part, values => compare_numbers(alloc, test, part, number, values))
}

// Compares each number of a part with the constant `number`, and writes the bits into `out`. Fails
// as `compare_part` does, and with `Room` if `out` has fewer bits than rows; `out` is then
// unchanged.
fn write_compared(
    alloc: Global,
    test: Test,
    part: &Part<'_>,
    number: i128,
    out: &mut [u64],
) -> Result<(), Fault>
    ensures written { OnOk result (AreCompared test part.now number out.new) }
    ensures kept { OnErr result (out.new ≡ out.old) }
    ensures refused { IfErr result (IsTrueNumberRoomFault number (length out.old) part.now) }
{
    let bits = compare_part(alloc, test, part, number)?;
    write_bits(&bits, out)?;
    Ok(())
}

/// Compares each row of a column of numbers with a constant number on the right. `low` and `high`
/// are the lower and the upper word of the constant, in two's complement of 128 bits. Writes a bit
/// for each row into `out`, 1 if the comparison is true, and sets all later bits to 0.
///
/// `test` has the same meaning as in `dunkelva_parts_compare`. For a null row, only the comparison
/// for unequal is true. Returns 0 on success. Otherwise returns the status of a `Fault`, and `out`
/// is unchanged. The `Fault` is `Types` if the column's type can't represent the constant.
#[unsafe(no_mangle)]
pub extern "C" fn dunkelva_part_compare_number(
    alloc: Global,
    test: u32,
    part: &Part<'_>,
    low: u64,
    high: u64,
    out: &mut [u64],
) -> i32
    ensures written { result ≡ pos 0
        → IsNumberedTest (test_number test) part.now (words_number low high) out.new }
    ensures kept { result ≢ pos 0 → out.new ≡ out.old }
    ensures refused { IsTrueStatus (IsTrueNumberTestFault (test_number test)
        (words_number low high) (length out.old) part.now) result }
{
    let Some(test) = comparison_of_code(test) else {
        return status(Fault::NotServed);
    };
    match write_compared(alloc, test, part, whole_of(low, high), out) {
        Ok(()) => 0,
        Err(fault) => status(fault),
    }
}
