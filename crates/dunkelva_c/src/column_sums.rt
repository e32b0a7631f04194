//! Sums of columns.

ghost use Rattle.std.specs.Prelude.{◌≡◌, ◌≢◌, length, pos, IfErr, IfOk};
ghost use Rattle.num_traits.specs.Laws.{bit_len};
ghost use Rattle.arrow_calls.specs.Columns.{IsColumn, rows_lent};
ghost use Rattle.arrow_calls.specs.Numbers.{number_words};
ghost use Rattle.arrow_calls.specs.Statuses.{IsTrueOf, IsTrueStatus};
ghost use Rattle.arrow_columns.specs.Reductions.{sum_if_any};
ghost use Rattle.dunkelva_c.specs.Columns.{IsTrueFault, sum_of_part};

use crate::columns::at_number_kind;
use arrow_calls::columns::column;
use arrow_calls::fault::{Fault, status};
use arrow_calls::number::{Number, number_of, whole};
use arrow_columns::reducing::sum;
use arrow_parts::part::{Part, PartKind};
use polars_compute_reductions::sum::WrappingAdd;
use polars_compute_slots::number::UniqueNumber;
use std::alloc::Global;

// Returns the sum of `values`, the numbers of a part, without those of null rows. The sum is
// wrapped to type `T`, and is `None` if no row is present. Fails with `Parts` if the part is not a
// valid column, and with `Memory` if an allocation fails.
fn sum_of<T: UniqueNumber + WrappingAdd>(
    alloc: Global,
    part: &Part<'_>,
    values: &[T],
) -> Result<Option<i128>, Fault>
    ensures sum { IfOk result (λ sum. sum ≡ sum_if_any T.low (bit_len T.width)
        (rows_lent T.value part.now values.now)) }
    ensures refused { IfErr result (IsTrueOf (IsColumn part.now (length values.now))) }
{
    let column = column(alloc, part, values)?;
    Ok(whole(sum(&column)))
}

// Returns the sum of a part's present rows, wrapped to the type of its kind, or `None` if no row is
// present. Fails with `NotServed` if the part has no numbers of 8 to 64 bits, and as `sum_of` does.
fn part_sum(alloc: Global, part: &Part<'_>) -> Result<Option<i128>, Fault>
    ensures sum { IfOk result (λ sum. sum ≡ sum_of_part part.now) }
    ensures refused { IfErr result (IsTrueFault part.now) }
{
    at_number_kind!(part, values => sum_of(alloc, part, values))
}

/// Writes the sum of the present rows of a column of numbers, wrapped to their type, into `sum`. If
/// no row is present, `sum.exists` becomes 0. Returns 0 on success. Otherwise returns the status of
/// a `Fault`, and `sum` is unchanged.
#[unsafe(no_mangle)]
pub extern "C" fn dunkelva_part_sum(alloc: Global, part: &Part<'_>, sum: &mut Number) -> i32
    ensures written { result ≡ pos 0 → sum.new ≡ number_words (sum_of_part part.now) }
    ensures kept { result ≢ pos 0 → sum.new ≡ sum.old }
    ensures refused { IsTrueStatus (IsTrueFault part.now) result }
{
    match part_sum(alloc, part) {
        Ok(whole) => {
            *sum = number_of(whole);
            0
        }
        Err(fault) => status(fault),
    }
}
