//! Recorded cases of states of distinct values: of numbers in a range, of truth values, and of the
//! keys of dictionaries.
//!
//! A call and its operands are words of a line. An operand such as A, B, V or W is the name of an
//! array. A TYPE is one of `i8`, `i16`, `i32`, `i64`, `u8`, `u16`, `u32` and `u64`, and MIN and MAX
//! are the first and the last number of a range. `seen` describes the text of a state.
//!
//! The preconditions of a call are tested first. If one does not hold, the line has no result, and
//! the error is `Case`. It is also `Case` if there is no array of a name, or if the array is of the
//! wrong kind. The error is `Word` if a word is missing or wrong, and `Memory` if an allocation
//! failed.
#![tactic(auto)]

ghost use Rattle.recorded_text.specs.Cases.{HasGoodArrays};

mod appending;
mod columns;
mod conditions;
mod key_states;
mod new_states;
mod number_states;
mod numbers;
mod pairs;
mod questions;
mod seen;
mod single_arrays;
mod state_kinds;
mod trees;
mod truth_states;

use recorded_text::fault::Fault;
use recorded_text::store::Store;
use recorded_text::words::Words;
use std::alloc::Global;

// Evaluates the given results in order, and returns from the surrounding function with the first
// that is an error or a `Some`. If all are `None`, continues after the macro.
macro_rules! first_answer {
    ($($answer:expr),+ $(,)?) => {
        $(if let Some(answer) = $answer? {
            return Ok(Some(answer));
        })+
    };
}

/// Reads the operands of `call` from `words`, and returns the result as text. Returns `None` if
/// `call` is not the name of a call of this crate.
pub fn answer(
    alloc: Global,
    call: &str,
    store: &Store,
    words: &mut Words,
) -> Result<Option<String>, Fault>
    requires { HasGoodArrays store.now }
{
    first_answer!(
        number_states::answer(alloc, call, store, words),
        truth_states::answer(alloc, call, store, words),
        key_states::answer(alloc, call, store, words),
    );
    single_arrays::answer(alloc, call, store, words)
}
