//! Bitwise reductions of a column of numbers.

ghost use Rattle.std.specs.Prelude.{◌≡◌, ◌≢◌, length, pos, IfErr, IfOk};
ghost use Rattle.num_traits.specs.Laws.{bit_len};
ghost use Rattle.arrow_calls.specs.Columns.{IsColumn, rows_lent};
ghost use Rattle.arrow_calls.specs.Operations.{operator_number};
ghost use Rattle.arrow_calls.specs.Statuses.{IsTrueOf, IsTrueStatus};
ghost use Rattle.dunkelva_c.specs.ColumnBits.{HasJoinedBits, IsNumberedReduction, IsReduction};
ghost use Rattle.dunkelva_c.specs.ColumnBits.{IsTrueReduceFault};
ghost use Rattle.dunkelva_c.specs.Columns.{IsTrueFault};

use crate::columns::at_number_kind;
use arrow_calls::columns::column;
use arrow_calls::fault::{Fault, status};
use arrow_calls::number::{Number, number_of, whole};
use arrow_calls::operations::operator_of;
use arrow_columns::reducing::{BitOperator, reduce_bits};
use arrow_parts::part::{Part, PartKind};
use polars_compute_reductions::bit_number::BitNumber;
use polars_compute_slots::number::UniqueNumber;
use std::alloc::Global;

// Joins `values`, the numbers of a part, bit by bit with `operator`, without those of null rows.
// Returns `None` if no row is present. Fails with `Parts` if the part is not a valid column, and
// with `Memory` if an allocation fails.
fn reduce_numbers<T: BitNumber + UniqueNumber>(
    alloc: Global,
    operator: BitOperator,
    part: &Part<'_>,
    values: &[T],
) -> Result<Option<i128>, Fault>
    ensures joined { IfOk result (HasJoinedBits T.low T.high (bit_len T.width) operator
        (rows_lent T.value part.now values.now)) }
    ensures refused { IfErr result (IsTrueOf (IsColumn part.now (length values.now))) }
{
    let column = column(alloc, part, values)?;
    Ok(whole(reduce_bits(operator, &column)))
}

// Calls `reduce_numbers` with the numbers of a part, at the type that the part's kind stands for.
// Fails with `NotServed` if the part has no numbers of 8 to 64 bits, and as `reduce_numbers` does.
fn reduce_part(alloc: Global, operator: BitOperator, part: &Part<'_>) -> Result<Option<i128>, Fault>
    ensures bits { IfOk result (IsReduction operator part.now) }
    ensures refused { IfErr result (IsTrueFault part.now) }
{
    at_number_kind!(part, values => reduce_numbers(alloc, operator, part, values))
}

/// Joins the numbers of the present rows of a column bit by bit, and writes the result into `out`.
/// If no row is present, `out.exists` becomes 0. `operator` is 0 for AND, 1 for OR and 2 for
/// exclusive OR. Returns 0 on success. Otherwise returns the status of a `Fault`, and `out` is
/// unchanged.
#[unsafe(no_mangle)]
pub extern "C" fn dunkelva_part_reduce_bits(
    alloc: Global,
    operator: u32,
    part: &Part<'_>,
    out: &mut Number,
) -> i32
    ensures written { result ≡ pos 0 → IsNumberedReduction
        (operator_number operator) part.now out.new }
    ensures kept { result ≢ pos 0 → out.new ≡ out.old }
    ensures refused { IsTrueStatus (IsTrueReduceFault (operator_number operator) part.now) result }
{
    let Some(operator) = operator_of(operator) else {
        return status(Fault::NotServed);
    };
    match reduce_part(alloc, operator, part) {
        Ok(whole) => {
            *out = number_of(whole);
            0
        }
        Err(fault) => status(fault),
    }
}
