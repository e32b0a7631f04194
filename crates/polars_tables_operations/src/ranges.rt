//! Collects the distinct numbers of a list that lie in a range.

ghost use Rattle.std.specs.Prelude.{◌≡◌, ℤ, Ok};
ghost use Rattle.polars_arrays_flat.specs.ArrayRows.{number_rows};
ghost use Rattle.polars_tables_operations.specs.Distinct.{are_ends, of_state};
ghost use Rattle.polars_tables_rows.specs.Faults.{Tells, of_ends};
ghost use Rattle.polars_compute_slots.specs.State.{State};

use crate::line_number::LineNumber;
use polars_arrays_flat::primitive::PrimitiveArray;
use polars_compute_unique::kernel::RangedUniqueKernel;
use polars_compute_unique::primitive::PrimitiveRangedUniqueState;
use polars_tables_rows::fault::{LineError, or_memory};
use polars_tables_rows::row_array::RowArray;
use std::alloc::Global;

// Returns the two numbers in the list `ends`, which are the ends of a range. The error is `Length`
// if the list does not have two rows, and `Range` if one of the two is null.
fn ends_of<T: LineNumber>(ends: &PrimitiveArray<T>) -> Result<(T, T), LineError>
    ensures { Tells {Y = ℤ × ℤ}
        (λ pair. (T.value pair.0, T.value pair.1))
        (of_ends (number_rows T.value ends.now) (λ m n. Ok (m, n))) result }
{
    if ends.count() != 2 {
        return Err(LineError::Length);
    }
    let (Some(first), Some(last)) = (ends.value(0), ends.value(1)) else {
        return Err(LineError::Range);
    };
    Ok((first, last))
}

// Returns whether `first` is at most `last`, and there are at most a million numbers from `first`
// to `last`, both included.
fn are_ends<T: LineNumber>(first: T, last: T) -> bool
    ensures { result ≡ are_ends (T.value first) (T.value last) }
{
    let (first, last) = (first.whole(), last.whole());
    first <= last && last - first < 1_000_000
}

// Creates a state that collects distinct rows with numbers from `first` to `last`, and appends
// `rows` to it. Fails with `Range` if `are_ends` is false or a present row lies outside the range,
// and with `Memory` if an allocation fails.
fn seen_between<T: LineNumber>(
    alloc: Global,
    first: T,
    last: T,
    rows: &PrimitiveArray<T>,
) -> Result<PrimitiveRangedUniqueState<T>, LineError>
    ensures { Tells {Y = State}
        (λ state. state)
        (of_state (T.value first) (T.value last) (number_rows T.value rows.now) (λ s. Ok s))
        result }
{
    if !are_ends(first, last) {
        return Err(LineError::Range);
    }
    let mut state = or_memory(PrimitiveRangedUniqueState::new(alloc, first, last))?;
    if !state.accepts(rows) {
        drop(state);
        return Err(LineError::Range);
    }
    state.append(rows);
    Ok(state)
}

/// Creates a state that collects distinct rows with numbers in a range, and appends `rows` to it.
/// The list `ends` has the first and the last number of the range. Fails with `Length` if `ends`
/// does not have two rows, with `Range` if they are refused as ends (`LineError::Range`) or a
/// present row lies outside the range, and with `Memory` if an allocation fails.
pub fn state_of<T: LineNumber>(
    alloc: Global,
    ends: &PrimitiveArray<T>,
    rows: &PrimitiveArray<T>,
) -> Result<PrimitiveRangedUniqueState<T>, LineError>
    ensures { Tells {Y = State}
        (λ state. state)
        (of_ends (number_rows T.value ends.now)
        (λ m n. of_state m n (number_rows T.value rows.now) (λ s. Ok s))) result }
{
    let (first, last) = ends_of(ends)?;
    seen_between(alloc, first, last, rows)
}
