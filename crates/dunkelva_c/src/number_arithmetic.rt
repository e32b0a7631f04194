//! Arithmetic on a column of numbers and a constant number.

ghost use Rattle.std.specs.Prelude.{◌≡◌, ◌≢◌, length, pos, IfErr, OnErr, OnOk};
ghost use Rattle.num_traits.specs.Laws.{bit_len};
ghost use Rattle.arrow_arithmetic.specs.Arithmetic.{arithmetic_number, operation_of, placed};
ghost use Rattle.arrow_arithmetic.specs.Arithmetic.{side_number};
ghost use Rattle.arrow_calls.specs.Columns.{rows_lent};
ghost use Rattle.arrow_calls.specs.Numbers.{words_number};
ghost use Rattle.arrow_calls.specs.Statuses.{IsTrueStatus};
ghost use Rattle.dunkelva_c.specs.Arithmetic.{AreAnswers, AreNumberedAnswers, AreRows};
ghost use Rattle.dunkelva_c.specs.Arithmetic.{IsTrueSidedFault};
ghost use Rattle.dunkelva_c.specs.Arithmetic.{IsTrueTypedFault, IsTrueWithFault, slices};
ghost use Rattle.polars_compute_arithmetic.specs.Operations.{answer_rows};

use crate::results::{check_room, into_kind, write_present};
use arrow_arithmetic::calculating::{Arithmetic, Side, calculate_number};
use arrow_calls::columns::column;
use arrow_calls::fault::{Fault, status};
use arrow_calls::number::{narrow, whole_of};
use arrow_parts::part::{Part, PartKind};
use polars_compute_arithmetic::arithmetic::pl_num::PlNumArithmetic;
use polars_compute_slots::number::UniqueNumber;
use std::alloc::Global;

// Applies the operation `arithmetic` to each of `values`, the numbers of a part, and the constant
// `number`, which is the operand on side `side`. Writes the results into `out`, their validity into
// `present`, and the number of nulls into `nulls`.
//
// Fails with `Types` if type `T` can't represent the constant, with `Parts` if the part is not a
// valid column, with `Room` if `out` or `present` has a wrong length (see `check_room`), and with
// `Memory` if an allocation fails. Nothing is then written.
fn calculate_numbers<T: PlNumArithmetic + UniqueNumber>(
    alloc: Global,
    arithmetic: Arithmetic,
    side: Side,
    number: i128,
    part: &Part<'_>,
    values: &[T],
    out: &mut [T],
    present: &mut [u64],
    nulls: &mut u64,
) -> Result<(), Fault>
    ensures written { OnOk result (AreRows T.value (answer_rows T.low (bit_len T.width)
        (placed side (operation_of arithmetic) number)
        (rows_lent T.value part.now values.now)) out.new present.new nulls.new) }
    ensures kept { OnErr result ((out.new ≡ out.old) × (present.new ≡ present.old)
        × (nulls.new ≡ nulls.old)) }
    ensures refused { IfErr result (IsTrueTypedFault T.low T.high number (length values.now)
        (length out.old) (length present.old) part.now) }
{
    let Some(operand) = narrow::<T>(number) else {
        return Err(Fault::Types);
    };
    let column = column(alloc, part, values)?;
    check_room(part, out.len(), present.len())?;
    let bits = calculate_number(alloc, arithmetic, side, operand, &column, out)?;
    write_present(&bits, present, nulls);
    Ok(())
}

// Calls `calculate_numbers` at the number type of a part, with the slice of this type for the
// results. Fails with `NotServed` if the part has no numbers of 8 to 64 bits, and as
// `calculate_numbers` does. Nothing is then written.
fn calculate_part(
    alloc: Global,
    arithmetic: Arithmetic,
    side: Side,
    number: i128,
    part: &Part<'_>,
    i8s: &mut [i8],
    i16s: &mut [i16],
    i32s: &mut [i32],
    i64s: &mut [i64],
    u8s: &mut [u8],
    u16s: &mut [u16],
    u32s: &mut [u32],
    u64s: &mut [u64],
    present: &mut [u64],
    nulls: &mut u64,
) -> Result<(), Fault>
    ensures written { OnOk result (AreAnswers (placed side (operation_of arithmetic) number)
        part.now (slices i8s.new i16s.new i32s.new i64s.new u8s.new u16s.new u32s.new u64s.new)
        present.new nulls.new) }
    ensures kept { OnErr result (
        (slices i8s.new i16s.new i32s.new i64s.new u8s.new u16s.new u32s.new u64s.new
        ≡ slices i8s.old i16s.old i32s.old i64s.old u8s.old u16s.old u32s.old u64s.old)
        × (present.new ≡ present.old) × (nulls.new ≡ nulls.old)) }
    ensures refused { IfErr result (IsTrueWithFault number
        (slices i8s.old i16s.old i32s.old i64s.old u8s.old u16s.old u32s.old u64s.old)
        (length present.old) part.now) }
{
    into_kind!(
        part,
        i8s,
        i16s,
        i32s,
        i64s,
        u8s,
        u16s,
        u32s,
        u64s,
        calculate_numbers(alloc, arithmetic, side, number, part),
        present,
        nulls
    )
}

/// Calculates an operation on each row of a column and a constant number. `low` and `high` are the
/// lower and the upper word of the constant, in two's complement of 128 bits. `side` is 0 if the
/// constant is on the left of the operation, and 1 if it is on the right.
///
/// `operation`, `present`, `nulls` and the slices for the results have the same meaning as in
/// `dunkelva_parts_arithmetic`. Returns 0 on success. Otherwise returns the status of a `Fault`,
/// and nothing is written. The `Fault` is `Types` if the column's type can't represent the
/// constant.
#[unsafe(no_mangle)]
pub extern "C" fn dunkelva_part_arithmetic_number(
    alloc: Global,
    operation: u32,
    side: u32,
    low: u64,
    high: u64,
    part: &Part<'_>,
    i8s: &mut [i8],
    i16s: &mut [i16],
    i32s: &mut [i32],
    i64s: &mut [i64],
    u8s: &mut [u8],
    u16s: &mut [u16],
    u32s: &mut [u32],
    u64s: &mut [u64],
    present: &mut [u64],
    nulls: &mut u64,
) -> i32
    ensures written { result ≡ pos 0 → AreNumberedAnswers (arithmetic_number operation)
        (side_number side) (words_number low high) part.now
        (slices i8s.new i16s.new i32s.new i64s.new u8s.new u16s.new u32s.new u64s.new)
        present.new nulls.new }
    ensures kept { result ≢ pos 0 →
        (slices i8s.new i16s.new i32s.new i64s.new u8s.new u16s.new u32s.new u64s.new
        ≡ slices i8s.old i16s.old i32s.old i64s.old u8s.old u16s.old u32s.old u64s.old)
        × (present.new ≡ present.old) × (nulls.new ≡ nulls.old) }
    ensures refused { IsTrueStatus (IsTrueSidedFault (arithmetic_number operation)
        (side_number side) (words_number low high)
        (slices i8s.old i16s.old i32s.old i64s.old u8s.old u16s.old u32s.old u64s.old)
        (length present.old) part.now) result }
{
    let Some(arithmetic) = Arithmetic::of(operation) else {
        return status(Fault::NotServed);
    };
    let Some(side) = Side::of(side) else {
        return status(Fault::NotServed);
    };
    match calculate_part(
        alloc,
        arithmetic,
        side,
        whole_of(low, high),
        part,
        i8s,
        i16s,
        i32s,
        i64s,
        u8s,
        u16s,
        u32s,
        u64s,
        present,
        nulls,
    ) {
        Ok(()) => 0,
        Err(fault) => status(fault),
    }
}
