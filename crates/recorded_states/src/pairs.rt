//! Calls on two states with arrays appended, separate and merged. The arrays A.. are appended to
//! the first state, and B.. to the second. Each state is written as text in the form that `seen`
//! describes. The parts of a result are separated by ` | `.
//!
//! - `state_numbers TYPE MIN MAX A.. | B..`: for each of A.. the number of its rows that were read
//!   (`CountedState`), the same numbers for B.., the first state, the second, and the first with
//!   the second merged into it. Both states are of the numbers from MIN to MAX
//! - `state_empty TYPE A.. | B..`: the same parts, for states of an empty range of numbers
//! - `state_truths A.. | B..`: the first state, the second, and the first with the second merged
//!   into it. Both are of truth values
//! - `state_keys V A.. | W B..`: the same parts as in `state_truths`, for states of the keys of
//!   dictionaries with the entries V and W; then the second state with the first merged into it
//! - `state_keys_rows V A.. | W B..`: the rows of the array to which the first state is finalised
//!   after the second was merged into it

ghost use Rattle.recorded_text.specs.Cases.{HasGoodArrays};

use crate::columns::{gathered, if_done, join, read_state, rows_named};
use crate::new_states::NewStates;
use crate::seen::{BAR, add_seen, write_seen};
use crate::state_kinds::{CountedState, RecordedState};
use polars_compute_unique::kernel::RangedUniqueKernel;
use recorded_text::fault::Fault;
use recorded_text::store::Store;
use recorded_text::words::Words;
use std::alloc::Global;

// Returns the words before and after the first `|`. The error is `Word` if there is none.
fn split_at_bar<'a>(words: &'a [&'a str]) -> Result<(&'a [&'a str], &'a [&'a str]), Fault> {
    match words.iter().position(|word| *word == "|") {
        Some(at) => Ok((&words[..at], &words[at + 1..])),
        None => Err(Fault::Word),
    }
}

/// Reads the names of arrays before and after a `|` from `words`. Returns the text of
/// `state_numbers` for states of `range`. If `range` is an error, returns it. Otherwise the error
/// is `Word` if there is no `|`, or else that of `gathered` or `write_seen`.
pub fn of_range<N: NewStates<State: CountedState>>(
    alloc: Global,
    range: Result<N, Fault>,
    store: &Store,
    words: &mut Words,
) -> Result<String, Fault>
    requires { HasGoodArrays store.now }
{
    let range = range?;
    let (left, right) = split_at_bar(words.rest())?;
    write_counted(alloc, &range, store, left, right)
}

// Returns the text of `state_numbers`: the numbers of rows read of the arrays `left` and of the
// arrays `right`, two states of `range` to which these were appended, and the first with the second
// merged into it.
fn write_counted<N: NewStates<State: CountedState>>(
    alloc: Global,
    range: &N,
    store: &Store,
    left: &[&str],
    right: &[&str],
) -> Result<String, Fault>
    requires { HasGoodArrays store.now }
{
    let mut text = String::new(alloc);
    let first = counted(alloc, &mut text, range, store, left)?;
    text.push_str(BAR)?;
    let second = counted(alloc, &mut text, range, store, right)?;
    add_states(
        alloc,
        text,
        first,
        second,
        gathered(alloc, range, store, left),
    )
}

// Creates a state of `range`, and appends the arrays that `names` lists to it. Appends the number
// of rows read of each to `text`. The error is `Case` if no state of the range can be created, or
// else that of `push_steps`.
fn counted<N: NewStates<State: CountedState>>(
    alloc: Global,
    text: &mut String,
    range: &N,
    store: &Store,
    names: &[&str],
) -> Result<N::State, Fault>
    requires { HasGoodArrays store.now }
{
    let mut state = range.new_state(alloc)?;
    let pushed = push_steps(text, &mut state, store, names);
    if_done(state, pushed)
}

// Appends the arrays that `names` lists to `state`, and the number of rows read of each to `text`,
// separated by spaces. The error is `Case` if a name has no array, or if its array is of the wrong
// kind or not accepted by the state. Otherwise the error is `Memory`.
fn push_steps<S: CountedState>(
    text: &mut String,
    state: &mut S,
    store: &Store,
    names: &[&str],
) -> Result<(), Fault>
    requires { HasGoodArrays store.now }
{
    for (i, name) in names.iter().enumerate() {
        let before = if i > 0 { " " } else { "" };
        let steps = state.append_and_count(rows_named::<S>(store, name)?)?;
        write!(text, "{before}{steps}")?;
    }
    Ok(())
}

// Appends three states to `text`, each after a bar: `first`, `second`, and `again` with `second`
// merged into it. `again` is a second state to which the arrays of `first` were appended. If
// `again` is an error, returns that error.
fn add_states<S: RecordedState>(
    alloc: Global,
    text: String,
    first: S,
    second: S,
    again: Result<S, Fault>,
) -> Result<String, Fault> {
    let both = with_joined(again, &second);
    let text = add_seen(alloc, Ok(text), Ok(first));
    let text = add_seen(alloc, text, Ok(second));
    add_seen(alloc, text, both)
}

// Merges `other` into the state `made`, and returns the merged state. If `made` is an error,
// returns that error. Otherwise the error is `Case` if the ranges of the two states differ.
fn with_joined<S: RecordedState>(made: Result<S, Fault>, other: &S) -> Result<S, Fault> {
    let mut state = made?;
    let joined = join(&mut state, other);
    if_done(state, joined)
}

// Merges the state `made` into `state`. If `made` is an error, returns that error. Otherwise the
// error is `Case` if the ranges of the two states differ.
fn join_made<S: RecordedState>(state: &mut S, made: Result<S, Fault>) -> Result<(), Fault> {
    join(state, &made?)
}

// Returns the state of the column `left`, that of the column `right`, and the first with the second
// merged into it, as text. Each column is the words that `read_state` reads. The errors are those
// of `joined` and `write_seen`.
fn write_columns<N: NewStates>(
    alloc: Global,
    store: &Store,
    left: &[&str],
    right: &[&str],
) -> Result<String, Fault>
    requires { HasGoodArrays store.now }
{
    let text = write_seen(alloc, read_state::<N>(alloc, store, left));
    let text = add_seen(alloc, text, read_state::<N>(alloc, store, right));
    add_seen(alloc, text, joined::<N>(alloc, store, left, right))
}

// Creates the states of two columns, and returns the state of `column` with the state of `other`
// merged into it. The error is `Case` if their ranges differ, or else as in `read_state`.
fn joined<N: NewStates>(
    alloc: Global,
    store: &Store,
    column: &[&str],
    other: &[&str],
) -> Result<N::State, Fault>
    requires { HasGoodArrays store.now }
{
    let mut state = read_state::<N>(alloc, store, column)?;
    let joined = join_made(&mut state, read_state::<N>(alloc, store, other));
    if_done(state, joined)
}

/// Reads two columns from `words`, separated by `|`. Returns the state of the first, that of the
/// second, and the first with the second merged into it, as text. The error is `Word` if there is
/// no `|`, `Case` if the ranges of the columns differ, or else as in `read_state` or `write_seen`.
pub fn of_columns<N: NewStates>(
    alloc: Global,
    store: &Store,
    words: &mut Words,
) -> Result<String, Fault>
    requires { HasGoodArrays store.now }
{
    let (left, right) = split_at_bar(words.rest())?;
    write_columns::<N>(alloc, store, left, right)
}

/// Reads two columns from `words`, separated by `|`. Returns four states as text: that of the first
/// column, that of the second, the first with the second merged into it, and the second with the
/// first merged into it. The errors are those of `of_columns`.
pub fn either_way<N: NewStates>(
    alloc: Global,
    store: &Store,
    words: &mut Words,
) -> Result<String, Fault>
    requires { HasGoodArrays store.now }
{
    let (left, right) = split_at_bar(words.rest())?;
    let text = write_columns::<N>(alloc, store, left, right);
    add_seen(alloc, text, joined::<N>(alloc, store, right, left))
}

/// Reads two columns from `words`, separated by `|`. Returns the state of the first with that of
/// the second merged into it. The error is `Word` if there is no `|`, `Case` if the ranges of the
/// columns differ, or else as in `read_state`.
pub fn read_joined<N: NewStates>(
    alloc: Global,
    store: &Store,
    words: &mut Words,
) -> Result<N::State, Fault>
    requires { HasGoodArrays store.now }
{
    let (left, right) = split_at_bar(words.rest())?;
    joined::<N>(alloc, store, left, right)
}
