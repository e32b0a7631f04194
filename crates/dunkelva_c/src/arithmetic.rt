//! Arithmetic on two columns of numbers.

ghost use Rattle.std.specs.Prelude.{◌≡◌, ◌≢◌, length, pos, IfErr, OnErr, OnOk};
ghost use Rattle.num_traits.specs.Laws.{bit_len};
ghost use Rattle.arrow_arithmetic.specs.Arithmetic.{arithmetic_number, operation_of};
ghost use Rattle.arrow_calls.specs.Columns.{rows_lent};
ghost use Rattle.arrow_calls.specs.Statuses.{IsTrueStatus};
ghost use Rattle.arrow_parts.specs.Kinds.{kind_number};
ghost use Rattle.dunkelva_c.specs.Arithmetic.{AreNumberedResults, AreRows, AreRowsAt};
ghost use Rattle.dunkelva_c.specs.Arithmetic.{IsTrueArithmeticFault};
ghost use Rattle.dunkelva_c.specs.Arithmetic.{IsTruePartsFault, IsTrueResultFault, results_of};
ghost use Rattle.dunkelva_c.specs.Arithmetic.{slices};
ghost use Rattle.dunkelva_c.specs.Comparisons.{AreAlike};
ghost use Rattle.polars_compute_arithmetic.specs.Operations.{result_rows};

use crate::results::{check_room, into_one_kind, write_present};
use arrow_arithmetic::calculating::{Arithmetic, calculate};
use arrow_calls::columns::column;
use arrow_calls::fault::{Fault, status};
use arrow_parts::part::{Part, PartKind};
use polars_compute_arithmetic::arithmetic::pl_num::PlNumArithmetic;
use std::alloc::Global;

// Applies the operation `arithmetic` to the numbers `xs` and `ys` of two parts, row by row. Writes
// the results into `out`, their validity into `present`, and the number of nulls into `nulls`.
//
// Fails with `Parts` if a part is not a valid column, with `Room` if `out` or `present` has a wrong
// length (see `check_room`), and with `Memory` if an allocation fails. Nothing is then written.
fn calculate_numbers<T: PlNumArithmetic>(
    alloc: Global,
    arithmetic: Arithmetic,
    left: &Part<'_>,
    right: &Part<'_>,
    xs: &[T],
    ys: &[T],
    out: &mut [T],
    present: &mut [u64],
    nulls: &mut u64,
) -> Result<(), Fault>
    requires { right.now.rows ≡ left.now.rows }
    ensures written { OnOk result (AreRows T.value (result_rows T.low (bit_len T.width)
        (operation_of arithmetic) (rows_lent T.value left.now xs.now)
        (rows_lent T.value right.now ys.now)) out.new present.new nulls.new) }
    ensures kept { OnErr result ((out.new ≡ out.old) × (present.new ≡ present.old)
        × (nulls.new ≡ nulls.old)) }
    ensures refused { IfErr result (IsTrueResultFault (length xs.now) (length ys.now)
        (length out.old) (length present.old) left.now right.now) }
{
    let lefts = column(alloc, left, xs)?;
    let rights = column(alloc, right, ys)?;
    check_room(left, out.len(), present.len())?;
    let bits = calculate(alloc, arithmetic, &lefts, &rights, out)?;
    write_present(&bits, present, nulls);
    Ok(())
}

// Calls `calculate_numbers` at the number type of two parts, with the slice of this type for the
// results. Fails with `Types` if the parts differ in kind or in length, with `NotServed` if they
// are not numbers of 8 to 64 bits, and as `calculate_numbers` does. Nothing is then written.
fn calculate_parts(
    alloc: Global,
    arithmetic: Arithmetic,
    left: &Part<'_>,
    right: &Part<'_>,
    i8s: &mut [i8],
    i16s: &mut [i16],
    i32s: &mut [i32],
    i64s: &mut [i64],
    u8s: &mut [u8],
    u16s: &mut [u16],
    u32s: &mut [u32],
    u64s: &mut [u64],
    present: &mut [u64],
    nulls: &mut u64,
) -> Result<(), Fault>
    ensures alike { OnOk result (AreAlike left.now right.now) }
    ensures written { OnOk result (AreRowsAt (kind_number left.now.kind)
        (results_of arithmetic left.now right.now)
        (slices i8s.new i16s.new i32s.new i64s.new u8s.new u16s.new u32s.new u64s.new)
        present.new nulls.new) }
    ensures kept { OnErr result (
        (slices i8s.new i16s.new i32s.new i64s.new u8s.new u16s.new u32s.new u64s.new
        ≡ slices i8s.old i16s.old i32s.old i64s.old u8s.old u16s.old u32s.old u64s.old)
        × (present.new ≡ present.old) × (nulls.new ≡ nulls.old)) }
    ensures refused { IfErr result (IsTruePartsFault
        (slices i8s.old i16s.old i32s.old i64s.old u8s.old u16s.old u32s.old u64s.old)
        (length present.old) left.now right.now) }
{
    if left.kind != right.kind || left.rows != right.rows {
        return Err(Fault::Types);
    }
    into_one_kind!(
        left,
        right,
        i8s,
        i16s,
        i32s,
        i64s,
        u8s,
        u16s,
        u32s,
        u64s,
        calculate_numbers(alloc, arithmetic, left, right),
        present,
        nulls
    )
}

/// Calculates an operation on two columns of numbers of the same kind and length, row by row.
/// Writes the results into the slice of the columns' type, which must have the length of the
/// columns; the other slices are not used. Writes a bit for each row into `present`, 1 if the
/// result is present, and sets all later bits to 0. Writes the number of null results into `nulls`.
///
/// A result is null if one of the two rows is null, or if the divisor is 0; the number written for
/// it is arbitrary. Other results are wrapped to the type.
///
/// `operation` is 0 for the sum, 1 for the difference, 2 for the product, 3 for the quotient
/// rounded down, 4 for the quotient rounded toward 0, and 5 for the remainder of the division whose
/// quotient is rounded down. Returns 0 on success. Otherwise returns the status of a `Fault`, and
/// nothing is written.
#[unsafe(no_mangle)]
pub extern "C" fn dunkelva_parts_arithmetic(
    alloc: Global,
    operation: u32,
    left: &Part<'_>,
    right: &Part<'_>,
    i8s: &mut [i8],
    i16s: &mut [i16],
    i32s: &mut [i32],
    i64s: &mut [i64],
    u8s: &mut [u8],
    u16s: &mut [u16],
    u32s: &mut [u32],
    u64s: &mut [u64],
    present: &mut [u64],
    nulls: &mut u64,
) -> i32
    ensures written { result ≡ pos 0 → AreNumberedResults (arithmetic_number operation)
        left.now right.now
        (slices i8s.new i16s.new i32s.new i64s.new u8s.new u16s.new u32s.new u64s.new)
        present.new nulls.new }
    ensures kept { result ≢ pos 0 →
        (slices i8s.new i16s.new i32s.new i64s.new u8s.new u16s.new u32s.new u64s.new
        ≡ slices i8s.old i16s.old i32s.old i64s.old u8s.old u16s.old u32s.old u64s.old)
        × (present.new ≡ present.old) × (nulls.new ≡ nulls.old) }
    ensures refused { IsTrueStatus (IsTrueArithmeticFault (arithmetic_number operation)
        (slices i8s.old i16s.old i32s.old i64s.old u8s.old u16s.old u32s.old u64s.old)
        (length present.old) left.now right.now) result }
{
    let Some(arithmetic) = Arithmetic::of(operation) else {
        return status(Fault::NotServed);
    };
    match calculate_parts(
        alloc, arithmetic, left, right, i8s, i16s, i32s, i64s, u8s, u16s, u32s, u64s, present,
        nulls,
    ) {
        Ok(()) => 0,
        Err(fault) => status(fault),
    }
}
