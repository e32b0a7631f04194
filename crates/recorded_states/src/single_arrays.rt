//! Calls for the distinct rows of one array of truth values.
//!
//! - `unique A`: the distinct rows
//! - `n_unique A`: the number of distinct rows. Null counts as a row
//! - `n_unique_non_null A`: the number of distinct rows that are present

ghost use Rattle.recorded_text.specs.Cases.{HasGoodArrays};

use crate::columns::rows_named;
use polars_arrays_bits::error::ComputeError;
use polars_arrays_flat::boolean::BooleanArray;
use polars_arrays_nested::any_array::AnyArray;
use polars_compute_unique::boolean::BooleanUniqueKernelState;
use polars_compute_unique::kernel::GenericUniqueKernel;
use recorded_text::fault::Fault;
use recorded_text::row_text::write_made;
use recorded_text::store::Store;
use recorded_text::words::Words;
use std::alloc::Global;

/// Reads the name of an array from `words`, and returns the result of `call` for this array as
/// text. Returns `None` if `call` is not the name of a call of this module.
pub fn answer(
    alloc: Global,
    call: &str,
    store: &Store,
    words: &mut Words,
) -> Result<Option<String>, Fault>
    requires { HasGoodArrays store.now }
{
    match call {
        "unique" | "n_unique" | "n_unique_non_null" => {
            answer_distinct(alloc, call, store, words).map(Some)
        }
        _ => Ok(None),
    }
}

// Reads the name of an array of truth values from `words`, and returns the result of `call` as
// text. The error is `Case` if there is no such array, or if it is of another kind. It is `Word` if
// there is no next word, or if `call` is not a call of this module. Otherwise it is `Memory`.
fn answer_distinct(
    alloc: Global,
    call: &str,
    store: &Store,
    words: &mut Words,
) -> Result<String, Fault>
    requires { HasGoodArrays store.now }
{
    let truths = rows_named::<BooleanUniqueKernelState>(store, words.read()?)?;
    match call {
        "unique" => write_unique(alloc, truths.unique(alloc)),
        "n_unique" => write_count(alloc, truths.n_unique()),
        "n_unique_non_null" => write_count(alloc, truths.n_unique_non_null()),
        _ => Err(Fault::Word),
    }
}

// Returns the rows of `made` as text, and drops the array. If `made` is an error, returns `Memory`
// for a failed allocation, or else `Case`.
fn write_unique(alloc: Global, made: Result<BooleanArray, ComputeError>) -> Result<String, Fault> {
    write_made(alloc, AnyArray::Boolean(made?))
}

// Returns `count` as text. The error is `Memory`.
fn write_count(alloc: Global, count: usize) -> Result<String, Fault> {
    count.to_string(alloc).map_err(Fault::from)
}
