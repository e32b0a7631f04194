//! Calls that test a condition of other calls. The result is `true` or `false`.
//!
//! - `range_fits TYPE MIN MAX`: whether a state of the numbers from MIN to MAX can be created
//! - `keys_fit V`: whether a state of the keys of a dictionary with the entries V can be created
//! - `accepts_numbers TYPE MIN MAX A`: whether a state of the numbers from MIN to MAX accepts the
//!   array A
//! - `accepts_truths A`: whether a state of truth values accepts the array A
//! - `accepts_keys V A`: whether a state of the keys of a dictionary with the entries V accepts the
//!   array A
//! - `same_range_numbers TYPE MIN MAX MIN MAX`: whether two states, each of the numbers from its
//!   MIN to its MAX, have the same range
//! - `same_range_keys V W`: whether a state of keys to the entries V has the same range as one of
//!   keys to the entries W

ghost use Rattle.recorded_text.specs.Cases.{HasGoodArrays};

use crate::columns::rows_named;
use crate::new_states::{NewStates, read_new};
use polars_compute_unique::kernel::RangedUniqueKernel;
use recorded_text::fault::Fault;
use recorded_text::store::Store;
use recorded_text::words::Words;
use std::alloc::Global;

/// Reads a range from `words`, and returns whether a state of this range can be created.
pub fn fit<N: NewStates>(alloc: Global, store: &Store, words: &mut Words) -> Result<bool, Fault>
    requires { HasGoodArrays store.now }
{
    Ok(N::read(alloc, store, words)?.fit())
}

/// Reads a range and the name of an array from `words`, and returns whether a new state of this
/// range accepts the array. The error is `Case` if no state of the range can be created, or else
/// that of `N::read`, `Words::read` or `rows_named`, or `Memory`.
pub fn accept<N: NewStates>(alloc: Global, store: &Store, words: &mut Words) -> Result<bool, Fault>
    requires { HasGoodArrays store.now }
{
    let state = read_new::<N>(alloc, store, words)?;
    let array = rows_named::<N::State>(store, words.read()?)?;
    Ok(state.accepts(array))
}

/// Reads two ranges from `words`, creates a state of each, and returns whether the two states have
/// the same range. The error is `Case` if no state of one of the ranges can be created, or else
/// that of `N::read`, or `Memory`.
pub fn have_one_range<N: NewStates>(
    alloc: Global,
    store: &Store,
    words: &mut Words,
) -> Result<bool, Fault>
    requires { HasGoodArrays store.now }
{
    let state = read_new::<N>(alloc, store, words)?;
    let other = read_new::<N>(alloc, store, words)?;
    Ok(state.same_range(&other))
}
