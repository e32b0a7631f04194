//! Calls that append clones of several arrays to a new state, with one call of `append_all`.
//!
//! - `append_all_numbers TYPE MIN MAX A..`: the state of the numbers from MIN to MAX, as text in
//!   the form that `seen` describes
//! - `append_all_truths A..`: the state of truth values
//! - `append_all_keys V A..`: the state of the keys of a dictionary with the entries V
//! - `stored_numbers TYPE MIN MAX A..`, `stored_truths A..` and `stored_keys V A..`: the stored
//!   values of the array to which such a state is finalised, including the stored value of a null
//!   row

ghost use Rattle.std.specs.Prelude.{All, IsTrue};
ghost use Rattle.polars_compute_slots.specs.State.{are_within, range_of};
ghost use Rattle.recorded_text.specs.Cases.{HasGoodArrays};

use crate::columns::{if_done, rows_named};
use crate::new_states::{NewStates, read_new};
use crate::seen::write_seen;
use crate::state_kinds::{RecordedState, Shown};
use polars_arrays_bits::error::ComputeError;
use polars_compute_unique::kernel::RangedUniqueKernel;
use polars_compute_unique::merge::append_all;
use recorded_text::fault::Fault;
use recorded_text::store::Store;
use recorded_text::words::Words;
use std::alloc::Global;

/// Reads a range from `words`, creates a state of the range, and appends all arrays that the
/// remaining words name. Returns the text of the state, in the form that `seen` describes. The
/// error is `Case` if the state does not accept one of the arrays, or else that of `read_new`,
/// `rows_named` or `write_seen`.
pub fn write_all<N: NewStates>(
    alloc: Global,
    store: &Store,
    words: &mut Words,
) -> Result<String, Fault>
    requires { HasGoodArrays store.now }
{
    write_seen(alloc, state_of_all::<N>(alloc, store, words))
}

/// Reads a range from `words`, creates a state of the range, appends all arrays that the remaining
/// words name, and finalises the state. Returns the stored values of the resulting array as text.
/// The errors are those of `write_all`, and `Case` if the state cannot be finalised.
pub fn write_stored<N: NewStates>(
    alloc: Global,
    store: &Store,
    words: &mut Words,
) -> Result<String, Fault>
    requires { HasGoodArrays store.now }
{
    let state = state_of_all::<N>(alloc, store, words)?;
    write_end::<N::State>(alloc, state.finalize_unique(alloc))
}

// Returns the stored values of `end`, the array to which a state was finalised, as text. If `end`
// is an error, returns `Memory` for a failed allocation, or else `Case`.
fn write_end<S: RecordedState>(
    alloc: Global,
    end: Result<S::Array, ComputeError>,
) -> Result<String, Fault> {
    write_rows::<S>(alloc, &end?)
}

// Returns the stored values of all rows of an array as text, separated by spaces.
fn write_rows<S: RecordedState>(alloc: Global, rows: &S::Array) -> Result<String, Fault> {
    let mut text = String::new(alloc);
    for i in 0..S::count_rows(rows) {
        if i > 0 {
            text.push(' ')?;
        }
        S::push_row(&mut text, rows, Shown::Stored, i)?;
    }
    Ok(text)
}

// Reads a range from `words`, creates a state of the range, and appends clones of the arrays that
// the remaining words name. The errors are those of `read_new` and `append_copies`.
fn state_of_all<N: NewStates>(
    alloc: Global,
    store: &Store,
    words: &mut Words,
) -> Result<N::State, Fault>
    requires { HasGoodArrays store.now }
{
    let mut state = read_new::<N>(alloc, store, words)?;
    let appended = append_copies(alloc, &mut state, store, words.rest());
    if_done(state, appended)
}

// Clones the arrays of `store` that `names` lists, and appends the clones to `state`. The error is
// `Case` if the state does not accept one of them; then none is appended. Other errors are those of
// `copy_all`.
fn append_copies<S: RecordedState>(
    alloc: Global,
    state: &mut S,
    store: &Store,
    names: &[&str],
) -> Result<(), Fault>
    requires { HasGoodArrays store.now }
{
    let arrays = copy_all::<S>(alloc, store, names)?;
    if !all_accepted(state, &arrays) {
        return Err(Fault::Case);
    }
    append_all(state, &arrays);
    Ok(())
}

// Clones the arrays of `store` that `names` lists. The error is `Case` if a name has no array, or
// if its array is not of the kind that `S` accepts, or else `Memory`.
fn copy_all<S: RecordedState>(
    alloc: Global,
    store: &Store,
    names: &[&str],
) -> Result<Vec<S::Array>, Fault>
    requires { HasGoodArrays store.now }
{
    let mut arrays = Vec::new(alloc);
    for name in names {
        arrays.push(S::copy_rows(alloc, rows_named::<S>(store, name)?)?)?;
    }
    Ok(arrays)
}

// Returns whether `array` can be appended to `state`.
fn is_accepted<S: RangedUniqueKernel>(state: &S, array: &S::Array) -> bool
    ensures taken { IsTrue result → IsTrue (S.is_taken array.now) }
    ensures within { IsTrue result
        → IsTrue (are_within (range_of (S.state state.now)) (S.fed array.now)) }
{
    state.accepts(array)
}

// Returns whether each of `arrays` can be appended to `state`.
fn all_accepted<S: RangedUniqueKernel>(state: &S, arrays: &[S::Array]) -> bool
    ensures taken { IsTrue result → All (λ array. IsTrue (S.is_taken array)) arrays.now }
    ensures within { IsTrue result
        → All (λ array. IsTrue (are_within (range_of (S.state state.now)) (S.fed array)))
        arrays.now }
{
    for i in 0..arrays.len() {
        if !is_accepted(state, &arrays[i]) {
            return false;
        }
    }
    true
}
