//! Kernels for distinct truth values: those of arrays, and those of states.

use crate::column::Column;
use crate::mask::masked;
use crate::tally::Tally;
use polars_arrays_flat::array::Array;
use polars_arrays_flat::boolean::BooleanArray;
use polars_compute_unique::boolean::BooleanUniqueKernelState;
use polars_compute_unique::kernel::{GenericUniqueKernel, RangedUniqueKernel};
use recorded_text::fault::Fault;
use std::alloc::{AllocError, Global};

/// A kernel that returns or counts the distinct rows of an array or state, or says if a state has
/// seen false, true and null.
#[derive(Clone, Copy)]
pub enum Distinct {
    Unique,
    NUnique,
    NUniqueNonNull,
    HasSeenAll,
    FinalizeUnique,
    FinalizeNUnique,
    FinalizeNUniqueNonNull,
}

/// The kernels, with the names that are printed.
pub const DISTINCT: [(&str, Distinct); 7] = [
    ("unique", Distinct::Unique),
    ("n_unique", Distinct::NUnique),
    ("n_unique_non_null", Distinct::NUniqueNonNull),
    ("has_seen_all", Distinct::HasSeenAll),
    ("finalize_unique", Distinct::FinalizeUnique),
    ("finalize_n_unique", Distinct::FinalizeNUnique),
    (
        "finalize_n_unique_non_null",
        Distinct::FinalizeNUniqueNonNull,
    ),
];

/// Calls each kernel on the array of `column`, or on a state that has seen it, and compares the
/// result with the distinct rows of the list.
pub fn ask(alloc: Global, tallies: &mut [Tally<Distinct>], column: &Column) -> Result<(), Fault> {
    let expected = distinct_rows(alloc, column.rows())?;
    for tally in tallies.iter_mut() {
        let agrees = agrees(alloc, tally.call, column.array(), &expected)?;
        tally.counts.begin_call(true);
        tally.counts.compare(agrees);
    }
    Ok(())
}

// Returns the distinct ones of `rows`, in the order false, true, null.
fn distinct_rows(alloc: Global, rows: &[Option<bool>]) -> Result<Vec<Option<bool>>, AllocError> {
    let mut distinct = Vec::new(alloc);
    for row in [Some(false), Some(true), None] {
        if rows.contains(&row) {
            distinct.push(row)?;
        }
    }
    Ok(distinct)
}

// Calls the kernel `call` on `array` or on its state, and returns whether the result is right for
// the distinct rows `expected`.
fn agrees(
    alloc: Global,
    call: Distinct,
    array: &BooleanArray,
    expected: &[Option<bool>],
) -> Result<bool, Fault> {
    let state = state_of(array);
    let agrees = match call {
        Distinct::Unique => has_rows(&array.unique(alloc)?, expected),
        Distinct::NUnique => array.n_unique() == expected.len(),
        Distinct::NUniqueNonNull => array.n_unique_non_null() == present_rows(expected),
        Distinct::HasSeenAll => state.has_seen_all() == (expected.len() == 3),
        Distinct::FinalizeUnique => has_rows(&state.finalize_unique(alloc)?, expected),
        Distinct::FinalizeNUnique => state.finalize_n_unique() == expected.len(),
        Distinct::FinalizeNUniqueNonNull => {
            state.finalize_n_unique_non_null() == present_rows(expected)
        }
    };
    Ok(agrees)
}

// Returns a state that has seen the rows of `array`. The rows are appended to a second state, which
// is then merged into the returned one.
fn state_of(array: &BooleanArray) -> BooleanUniqueKernelState {
    let mut state = BooleanUniqueKernelState::new();
    let mut other = BooleanUniqueKernelState::new();
    if other.accepts(array) {
        other.append(array);
    }
    if state.same_range(&other) {
        state.append_state(&other);
    }
    state
}

// Returns the number of distinct rows that are not null.
fn present_rows(distinct: &[Option<bool>]) -> usize {
    distinct
        .len()
        .saturating_sub(usize::from(distinct.contains(&None)))
}

// Returns whether `array` has exactly the rows `rows`, in this order.
fn has_rows(array: &BooleanArray, rows: &[Option<bool>]) -> bool {
    let mut agrees = array.len() == rows.len();
    for (i, row) in rows.iter().enumerate() {
        agrees &= masked(array.values().get(i), array.validity(), i) == *row;
    }
    agrees
}
