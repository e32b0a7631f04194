//! Negation and absolute values of a column of numbers.

ghost use Rattle.std.specs.Prelude.{◌≡◌, ◌≢◌, length, pos, IfErr, OnErr, OnOk};
ghost use Rattle.num_traits.specs.Laws.{bit_len};
ghost use Rattle.arrow_arithmetic.specs.Arithmetic.{function_of, sign_number};
ghost use Rattle.arrow_calls.specs.Columns.{rows_lent};
ghost use Rattle.arrow_calls.specs.Statuses.{IsTrueStatus};
ghost use Rattle.dunkelva_c.specs.Arithmetic.{AreAnswers, AreNumberedSigns, AreRows};
ghost use Rattle.dunkelva_c.specs.Arithmetic.{IsTrueAnswerFault};
ghost use Rattle.dunkelva_c.specs.Arithmetic.{IsTruePartFault, IsTrueSignFault, slices};
ghost use Rattle.polars_compute_arithmetic.specs.Operations.{answer_rows};

use crate::results::{check_room, into_kind, write_present};
use arrow_arithmetic::calculating::{Sign, change_sign};
use arrow_calls::columns::column;
use arrow_calls::fault::{Fault, status};
use arrow_parts::part::{Part, PartKind};
use polars_compute_arithmetic::arithmetic::pl_num::PlNumArithmetic;
use std::alloc::Global;

// Applies the function `sign` to each of `values`, the numbers of a part. Writes the results into
// `out`, their validity into `present`, and the number of nulls into `nulls`.
//
// Fails with `Parts` if the part is not a valid column, with `Room` if `out` or `present` has a
// wrong length (see `check_room`), and with `Memory` if an allocation fails. Nothing is then
// written.
fn change_numbers<T: PlNumArithmetic>(
    alloc: Global,
    sign: Sign,
    part: &Part<'_>,
    values: &[T],
    out: &mut [T],
    present: &mut [u64],
    nulls: &mut u64,
) -> Result<(), Fault>
    ensures written { OnOk result (AreRows T.value (answer_rows T.low (bit_len T.width)
        (function_of sign) (rows_lent T.value part.now values.now))
        out.new present.new nulls.new) }
    ensures kept { OnErr result ((out.new ≡ out.old) × (present.new ≡ present.old)
        × (nulls.new ≡ nulls.old)) }
    ensures refused { IfErr result (IsTrueAnswerFault (length values.now)
        (length out.old) (length present.old) part.now) }
{
    let column = column(alloc, part, values)?;
    check_room(part, out.len(), present.len())?;
    let bits = change_sign(alloc, sign, &column, out)?;
    write_present(&bits, present, nulls);
    Ok(())
}

// Calls `change_numbers` at the number type of a part, with the slice of this type for the results.
// Fails with `NotServed` if the part has no numbers of 8 to 64 bits, and as `change_numbers` does.
// Nothing is then written.
fn change_part(
    alloc: Global,
    sign: Sign,
    part: &Part<'_>,
    i8s: &mut [i8],
    i16s: &mut [i16],
    i32s: &mut [i32],
    i64s: &mut [i64],
    u8s: &mut [u8],
    u16s: &mut [u16],
    u32s: &mut [u32],
    u64s: &mut [u64],
    present: &mut [u64],
    nulls: &mut u64,
) -> Result<(), Fault>
    ensures written { OnOk result (AreAnswers (function_of sign) part.now
        (slices i8s.new i16s.new i32s.new i64s.new u8s.new u16s.new u32s.new u64s.new)
        present.new nulls.new) }
    ensures kept { OnErr result (
        (slices i8s.new i16s.new i32s.new i64s.new u8s.new u16s.new u32s.new u64s.new
        ≡ slices i8s.old i16s.old i32s.old i64s.old u8s.old u16s.old u32s.old u64s.old)
        × (present.new ≡ present.old) × (nulls.new ≡ nulls.old)) }
    ensures refused { IfErr result (IsTruePartFault
        (slices i8s.old i16s.old i32s.old i64s.old u8s.old u16s.old u32s.old u64s.old)
        (length present.old) part.now) }
{
    into_kind!(
        part,
        i8s,
        i16s,
        i32s,
        i64s,
        u8s,
        u16s,
        u32s,
        u64s,
        change_numbers(alloc, sign, part),
        present,
        nulls
    )
}

/// Negates each row of a column, or calculates its absolute value. Results are wrapped to the type
/// of the column, and nulls stay null. `sign` is 0 for negation, and 1 for absolute values.
///
/// `present`, `nulls` and the slices for the results have the same meaning as in
/// `dunkelva_parts_arithmetic`. Returns 0 on success. Otherwise returns the status of a `Fault`,
/// and nothing is written.
#[unsafe(no_mangle)]
pub extern "C" fn dunkelva_part_sign(
    alloc: Global,
    sign: u32,
    part: &Part<'_>,
    i8s: &mut [i8],
    i16s: &mut [i16],
    i32s: &mut [i32],
    i64s: &mut [i64],
    u8s: &mut [u8],
    u16s: &mut [u16],
    u32s: &mut [u32],
    u64s: &mut [u64],
    present: &mut [u64],
    nulls: &mut u64,
) -> i32
    ensures written { result ≡ pos 0 → AreNumberedSigns (sign_number sign) part.now
        (slices i8s.new i16s.new i32s.new i64s.new u8s.new u16s.new u32s.new u64s.new)
        present.new nulls.new }
    ensures kept { result ≢ pos 0 →
        (slices i8s.new i16s.new i32s.new i64s.new u8s.new u16s.new u32s.new u64s.new
        ≡ slices i8s.old i16s.old i32s.old i64s.old u8s.old u16s.old u32s.old u64s.old)
        × (present.new ≡ present.old) × (nulls.new ≡ nulls.old) }
    ensures refused { IsTrueStatus (IsTrueSignFault (sign_number sign)
        (slices i8s.old i16s.old i32s.old i64s.old u8s.old u16s.old u32s.old u64s.old)
        (length present.old) part.now) result }
{
    let Some(sign) = Sign::of(sign) else {
        return status(Fault::NotServed);
    };
    match change_part(
        alloc, sign, part, i8s, i16s, i32s, i64s, u8s, u16s, u32s, u64s, present, nulls,
    ) {
        Ok(()) => 0,
        Err(fault) => status(fault),
    }
}
