//! Calls on states of the keys of a dictionary. Such a state has the entries of the dictionary, and
//! an inner state of numbers for the keys (`key_state`). The calls that are not listed here are
//! described in `conditions`, `appending`, `pairs` and `trees`.
//!
//! - `key_state V MIN MAX A..`: a state with the entries V, in the form that `seen` describes. Its
//!   inner state was replaced by a state of the numbers from MIN to MAX, to which the arrays A..,
//!   of type `u32`, were appended
//! - `key_state_accepts V MIN MAX A`: whether a state with the entries V accepts the dictionary
//!   array A, after its inner state was replaced by a new state of the numbers from MIN to MAX
//! - `ended_keys V A..`: the type of the array to which a state with the entries V is finalised
//!   after the arrays A.. were appended. After ` | ` follows another state with the entries V, in
//!   the form that `seen` describes, to which that array was appended

ghost use Rattle.polars_arrays_nested.specs.GoodParts.{IsGood};
ghost use Rattle.polars_arrays_nested.specs.declared.any_array.AnyArray.{Dictionary};
ghost use Rattle.recorded_text.specs.Cases.{HasGoodArrays};

use crate::columns::{append, append_named, gathered, if_done, rows_named};
use crate::new_states::{Entries, NewStates, NumberRange, new_state_over};
use crate::pairs::{either_way, read_joined};
use crate::questions::{Question, answer_question, write_truth};
use crate::seen::{add_seen, write_seen};
use crate::state_kinds::RecordedState;
use crate::trees::merge_leaves;
use polars_arrays_bits::error::ComputeError;
use polars_arrays_flat::data_type::ArrowDataType;
use polars_arrays_nested::any_array::AnyArray;
use polars_arrays_nested::dictionary::DictionaryArray;
use polars_compute_unique::dictionary::DictionaryRangedUniqueState;
use polars_compute_unique::kernel::RangedUniqueKernel;
use polars_compute_unique::primitive::PrimitiveRangedUniqueState;
use recorded_text::fault::Fault;
use recorded_text::row_text::write_made;
use recorded_text::store::Store;
use recorded_text::type_text::write_type;
use recorded_text::words::Words;
use std::alloc::Global;

// Returns the `Question` for the call with the name `call`. Returns `None` for the calls that
// `answer` handles itself, and for calls of other modules.
fn question_of(call: &str) -> Option<Question> {
    match call {
        "keys_fit" => Some(Question::Fit),
        "accepts_keys" => Some(Question::Accept),
        "same_range_keys" => Some(Question::SameRange),
        "append_all_keys" => Some(Question::AppendAll),
        "stored_keys" => Some(Question::Stored),
        "one_range_keys" => Some(Question::OneRange),
        _ => None,
    }
}

/// Reads the operands of `call` from `words`, and returns the result as text. Returns `None` if
/// `call` is not the name of a call on states of keys.
pub fn answer(
    alloc: Global,
    call: &str,
    store: &Store,
    words: &mut Words,
) -> Result<Option<String>, Fault>
    requires { HasGoodArrays store.now }
{
    if let Some(question) = question_of(call) {
        return answer_question::<Entries>(alloc, question, store, words).map(Some);
    }
    let answer = match call {
        "key_state" => write_state(alloc, store, words),
        "key_state_accepts" => write_accepted(alloc, store, words),
        "state_keys" => either_way::<Entries>(alloc, store, words),
        "state_keys_rows" => write_joined(alloc, store, words),
        "merge_tree_keys" => merge_leaves::<Entries>(alloc, store, words),
        "ended_keys" => write_ended(alloc, store, words),
        _ => return Ok(None),
    };
    answer.map(Some)
}

// Reads the operands of `key_state` from `words`: the name of the entries, the first and the last
// number, and the names of the arrays. Returns the text of the state.
fn write_state(alloc: Global, store: &Store, words: &mut Words) -> Result<String, Fault>
    requires { HasGoodArrays store.now }
{
    let entries = store.read(words)?;
    let range: NumberRange<u32> = NumberRange::read(alloc, store, words)?;
    write_seen(
        alloc,
        state_put(alloc, entries, &range, store, words.rest()),
    )
}

// Creates a state of the keys of `entries`, replaces its inner state by a new one of `range`, and
// appends the arrays that `names` lists to the inner state. The error is `Case` if one of the two
// states cannot be created, or as in `append_named`, or else `Memory`.
fn state_put(
    alloc: Global,
    entries: &AnyArray,
    range: &NumberRange<u32>,
    store: &Store,
    names: &[&str],
) -> Result<DictionaryRangedUniqueState, Fault>
    requires good { IsGood entries.now }
    requires arrays { HasGoodArrays store.now }
{
    let mut state = new_state_over(alloc, entries)?;
    let put = put_keys(&mut state, range.new_state(alloc), store, names);
    if_done(state, put)
}

// Reads the operands of `key_state_accepts` from `words`: the name of the entries, the first and
// the last number, and the name of a dictionary array. Returns the text `true` if the state accepts
// the array, or else `false`.
fn write_accepted(alloc: Global, store: &Store, words: &mut Words) -> Result<String, Fault>
    requires { HasGoodArrays store.now }
{
    let entries = store.read(words)?;
    let range: NumberRange<u32> = NumberRange::read(alloc, store, words)?;
    let array = rows_named::<DictionaryRangedUniqueState>(store, words.read()?)?;
    write_truth(alloc, accepts_put(alloc, entries, &range, store, array))
}

// Creates a state of the keys of `entries`, replaces its inner state by a new one of `range`, and
// returns whether the state then accepts `array`. The errors are those of `state_put`.
fn accepts_put(
    alloc: Global,
    entries: &AnyArray,
    range: &NumberRange<u32>,
    store: &Store,
    array: &DictionaryArray,
) -> Result<bool, Fault>
    requires good { IsGood entries.now }
    requires arrays { HasGoodArrays store.now }
{
    let state = state_put(alloc, entries, range, store, &[])?;
    let accepts = state.accepts(array);
    drop(state);
    Ok(accepts)
}

// Replaces the inner state of `state` by `keys`, and appends the arrays of `store` that `names`
// lists to it. If `keys` is an error, returns it. Other errors are those of `append_named`.
fn put_keys(
    state: &mut DictionaryRangedUniqueState,
    keys: Result<PrimitiveRangedUniqueState<u32>, Fault>,
    store: &Store,
    names: &[&str],
) -> Result<(), Fault>
    requires { HasGoodArrays store.now }
{
    let key_state = state.key_state();
    *key_state = keys?;
    append_named(key_state, store, names)
}

// Reads two columns from `words`, merges the state of the second into that of the first, and
// finalises it. Returns the rows of the resulting dictionary array as text: the entries to which
// its keys refer. The errors are those of `read_joined`, and `Case` if the state cannot be
// finalised.
fn write_joined(alloc: Global, store: &Store, words: &mut Words) -> Result<String, Fault>
    requires { HasGoodArrays store.now }
{
    let state = read_joined::<Entries>(alloc, store, words)?;
    write_entries(alloc, state.finalize_unique(alloc)?)
}

// Returns the rows of a dictionary array as text, separated by spaces, and drops the array.
fn write_entries(alloc: Global, array: DictionaryArray) -> Result<String, Fault>
    requires { IsGood (Dictionary array) }
{
    write_made(alloc, AnyArray::Dictionary(array))
}

// Reads the operands of `ended_keys` from `words`: the name of the entries, and the names of the
// arrays. Returns the type of the array to which the state is finalised, a bar, and the text of
// another state to which that array was appended.
fn write_ended(alloc: Global, store: &Store, words: &mut Words) -> Result<String, Fault>
    requires { HasGoodArrays store.now }
{
    let range = Entries::read(alloc, store, words)?;
    let array = end(alloc, &range, store, words.rest())?;
    let text = write_made_type(alloc, array.dtype(alloc));
    add_seen(alloc, text, state_of(alloc, &range, &array))
}

// Creates a state of `range`, appends the arrays of `store` that `names` lists, and returns the
// array to which the state is finalised. The error is `Case` if the state cannot be finalised, or
// as in `gathered`.
fn end(
    alloc: Global,
    range: &Entries,
    store: &Store,
    names: &[&str],
) -> Result<DictionaryArray, Fault>
    requires { HasGoodArrays store.now }
{
    let array = gathered(alloc, range, store, names)?.finalize_unique(alloc)?;
    Ok(array)
}

// Creates a state of `range`, and appends `array` to it. The error is `Case` if no state of the
// range can be created, or if the state does not accept the array, or else `Memory`.
fn state_of(
    alloc: Global,
    range: &Entries,
    array: &DictionaryArray,
) -> Result<DictionaryRangedUniqueState, Fault> {
    let mut state = range.new_state(alloc)?;
    let appended = append(&mut state, array);
    if_done(state, appended)
}

// Returns the text of the type `made`, and drops the type. If `made` is an error, returns `Memory`
// for a failed allocation, or else `Case`.
fn write_made_type(
    alloc: Global,
    made: Result<ArrowDataType, ComputeError>,
) -> Result<String, Fault> {
    let dtype = made?;
    let text = write_type(alloc, &dtype);
    drop(dtype);
    text
}
