//! States as text. The text has, separated by spaces: whether the state has seen all values of its
//! range and a null (`true` or `false`), the number of rows of the array to which it is finalised,
//! the number of these rows that are present, and the rows. The rows of a state of dictionary keys
//! are the keys. If the state cannot be finalised, `refused:` and the error stand in place of the
//! rows.

use crate::state_kinds::{RecordedState, Shown};
use polars_arrays_bits::error::ComputeError;
use polars_compute_unique::kernel::RangedUniqueKernel;
use recorded_text::fault::Fault;
use std::alloc::Global;

/// The separator of the parts of a result.
pub const BAR: &str = " | ";

/// Returns the text of `state`. If `state` is an error, returns it. Otherwise the error is
/// `Memory`, or `Case` if a row cannot be written.
pub fn write_seen<S: RecordedState>(
    alloc: Global,
    state: Result<S, Fault>,
) -> Result<String, Fault> {
    let mut text = String::new(alloc);
    push_seen(alloc, &mut text, "", state)?;
    Ok(text)
}

/// Appends a bar and the text of `state` to `text`, and returns `text`. If `text` or `state` is an
/// error, returns it. Other errors are those of `write_seen`.
pub fn add_seen<S: RecordedState>(
    alloc: Global,
    text: Result<String, Fault>,
    state: Result<S, Fault>,
) -> Result<String, Fault> {
    let mut text = text?;
    push_seen(alloc, &mut text, BAR, state)?;
    Ok(text)
}

// Appends the separator `before` and the text of `state` to `text`. If `state` is an error, returns
// it. Other errors are those of `write_seen`.
fn push_seen<S: RecordedState>(
    alloc: Global,
    text: &mut String,
    before: &str,
    state: Result<S, Fault>,
) -> Result<(), Fault> {
    let state = state?;
    push_counts(text, before, &state)?;
    push_end::<S>(text, state.finalize_unique(alloc))
}

// Appends `before`, and the parts of the text of `state` that stand before the rows.
fn push_counts<S: RangedUniqueKernel>(
    text: &mut String,
    before: &str,
    state: &S,
) -> Result<(), Fault> {
    let all = state.has_seen_all();
    let rows = state.finalize_n_unique();
    let present = state.finalize_n_unique_non_null();
    write!(text, "{before}{all} {rows} {present}").map_err(Fault::from)
}

// Appends the rows of `end`, the array to which a state was finalised. If `end` is an error,
// appends `refused:` and the error, or returns `Memory` if an allocation failed.
fn push_end<S: RecordedState>(
    text: &mut String,
    end: Result<S::Array, ComputeError>,
) -> Result<(), Fault> {
    match end {
        Ok(array) => push_rows::<S>(text, &array),
        Err(refused) => push_refusal(text, refused),
    }
}

// Appends the rows of an array, each after a space.
fn push_rows<S: RecordedState>(text: &mut String, rows: &S::Array) -> Result<(), Fault> {
    for i in 0..S::count_rows(rows) {
        text.push(' ')?;
        S::push_row(text, rows, Shown::Row, i)?;
    }
    Ok(())
}

// Appends `refused:` and the error `refused` to `text`. If the error is a failed allocation,
// appends nothing and returns `Memory`.
fn push_refusal(text: &mut String, refused: ComputeError) -> Result<(), Fault> {
    match refused {
        ComputeError::Memory(_) => Err(Fault::Memory),
        refused => write!(text, " refused: {refused}").map_err(Fault::from),
    }
}
