//! Counts different integers.

ghost use Rattle.std.specs.Ordering.{int_eq};
ghost use Rattle.std.specs.Prelude.{◌≡◌, MatchResult};
ghost use Rattle.polars_arrays_bits.specs.Errors.{IsMemory};
ghost use Rattle.polars_compute_slots.specs.State.{RangeFits};
ghost use Rattle.schema_values.specs.Distinct.{distinct_total};

use polars_arrays_bits::error::ComputeError;
use polars_arrays_flat::primitive::PrimitiveArray;
use polars_compute_unique::kernel::RangedUniqueKernel;
use polars_compute_unique::primitive::{PrimitiveRangedUniqueState, range_fits};
use std::alloc::Global;
use std::collections::HashMap;

/// Returns the number of different integers in `numbers`. Uses a hash table. The only error is
/// `Memory`.
fn count_by_lookup(alloc: Global, numbers: &[i64]) -> Result<usize, ComputeError>
    ensures { MatchResult result (λ count. count ≡ distinct_total int_eq numbers.now) IsMemory }
{
    let mut seen = HashMap::new(alloc);
    let mut count: usize = 0;
    let all = numbers.len();
    for k in 0..all {
        let old = seen.insert(numbers[all - 1 - k], k)?;
        count += usize::from(old.is_none());
    }
    Ok(count)
}

/// Returns whether the range `least..=greatest` is small enough for `count_by_state`: it has at
/// most `64 * rows + 1024` numbers.
fn is_dense(least: i64, greatest: i64, rows: usize) -> bool {
    let most = (rows as i128).saturating_mul(64).saturating_add(1024);
    i128::from(greatest) - i128::from(least) < most
}

/// Returns the number of different integers in `numbers`. Uses a flag for each number from `least`
/// to `greatest`, or a hash table if a number lies outside of this range. The only error is
/// `Memory`.
fn count_by_state(
    alloc: Global,
    numbers: Vec<i64>,
    least: i64,
    greatest: i64,
) -> Result<usize, ComputeError>
    requires { RangeFits least greatest }
    ensures { MatchResult result (λ count. count ≡ distinct_total int_eq numbers.items) IsMemory }
{
    let array = PrimitiveArray::from_vec(numbers);
    let mut state = PrimitiveRangedUniqueState::new(alloc, least, greatest)?;
    if !state.accepts(&array) {
        return count_by_lookup(alloc, array.values());
    }
    state.append(&array);
    Ok(state.finalize_n_unique_non_null())
}

/// Returns the number of different integers in `numbers`. `ends` has the least and the greatest of
/// them, or `None` if `numbers` is empty. `ends` decides the method of counting, but not the
/// result. The only error is `Memory`.
pub(crate) fn count_numbers(
    alloc: Global,
    numbers: Vec<i64>,
    ends: Option<(i64, i64)>,
) -> Result<usize, ComputeError>
    ensures { MatchResult result (λ count. count ≡ distinct_total int_eq numbers.items) IsMemory }
{
    let Some((least, greatest)) = ends else {
        return count_by_lookup(alloc, &numbers);
    };
    if is_dense(least, greatest, numbers.len()) && range_fits(least, greatest) {
        return count_by_state(alloc, numbers, least, greatest);
    }
    count_by_lookup(alloc, &numbers)
}
