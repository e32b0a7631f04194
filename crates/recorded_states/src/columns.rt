//! Functions that append the arrays of a column to a new state. A column is a list of arrays, which
//! a line names.

ghost use Rattle.recorded_text.specs.Cases.{HasGoodArrays};

use crate::new_states::NewStates;
use crate::state_kinds::RecordedState;
use polars_compute_unique::kernel::RangedUniqueKernel;
use recorded_text::fault::Fault;
use recorded_text::store::Store;
use recorded_text::words::Words;
use std::alloc::Global;

/// Appends `array` to `state`. The error is `Case` if the state does not accept the array; the
/// state is then unchanged.
pub fn append<S: RangedUniqueKernel>(state: &mut S, array: &S::Array) -> Result<(), Fault> {
    if !state.accepts(array) {
        return Err(Fault::Case);
    }
    state.append(array);
    Ok(())
}

/// Merges `other` into `state`. The error is `Case` if their ranges differ; `state` is then
/// unchanged.
pub fn join<S: RangedUniqueKernel>(state: &mut S, other: &S) -> Result<(), Fault> {
    if !state.same_range(other) {
        return Err(Fault::Case);
    }
    state.append_state(other);
    Ok(())
}

/// Returns the array of `store` with the name `name`. The error is `Case` if there is none, or if
/// it is not of the kind that `S` accepts.
pub fn rows_named<'a, S: RecordedState>(store: &'a Store, name: &str) -> Result<&'a S::Array, Fault>
    requires { HasGoodArrays store.now }
{
    S::rows_in(store.array(name)?)
}

/// Appends the arrays of `store` that `names` lists to `state`, in this order. The error is `Case`
/// if a name has no array, or if its array is of the wrong kind or not accepted by the state. The
/// arrays before this name stay appended.
pub fn append_named<S: RecordedState>(
    state: &mut S,
    store: &Store,
    names: &[&str],
) -> Result<(), Fault>
    requires { HasGoodArrays store.now }
{
    for name in names {
        append(state, rows_named::<S>(store, name)?)?;
    }
    Ok(())
}

/// Creates a state of `range`, and appends the arrays of `store` that `names` lists. The error is
/// `Case` if no state of the range can be created, or as in `append_named`. Otherwise the error is
/// `Memory`.
pub fn gathered<N: NewStates>(
    alloc: Global,
    range: &N,
    store: &Store,
    names: &[&str],
) -> Result<N::State, Fault>
    requires { HasGoodArrays store.now }
{
    let mut state = range.new_state(alloc)?;
    let appended = append_named(&mut state, store, names);
    if_done(state, appended)
}

/// Returns `state` if `done` is `Ok`, or else the error in `done`.
pub fn if_done<S: RecordedState>(state: S, done: Result<(), Fault>) -> Result<S, Fault> {
    match done {
        Ok(()) => Ok(state),
        Err(fault) => Err(fault),
    }
}

/// Creates the state of a column, and appends the arrays of the column. `words` are first those of
/// the range of the state, and then the names of the arrays. The errors are those of `N::read` and
/// `gathered`.
pub fn read_state<N: NewStates>(
    alloc: Global,
    store: &Store,
    words: &[&str],
) -> Result<N::State, Fault>
    requires { HasGoodArrays store.now }
{
    let mut words = Words::new(words);
    let range = N::read(alloc, store, &mut words)?;
    gathered(alloc, &range, store, words.rest())
}
