//! Recorded cases of arithmetic: operations on arrays of numbers and on single numbers, functions
//! of stored values, and sums.
//!
//! An operand that is an array is written as its name, or as `slice NAME AT N`: its `N` rows from
//! row `AT` on. The call gets a clone of it, which owns its values exactly if the array does.
//!
//! The `Fault` of a function is `Word` if a word is missing or malformed, `Memory` if an allocation
//! fails, and `Case` if an array does not exist or the call does not take the operands or the
//! function that the words name.
#![tactic(auto)]

ghost use Rattle.recorded_text.specs.Cases.{HasGoodArrays};

mod arrays;
mod calls;
mod functions;
mod made;
mod number_kinds;
mod numbers;
mod operands;
mod operations;
mod single_numbers;
mod sums;

use crate::calls::Call;
use crate::numbers::{Asked, ask_next};
use recorded_text::fault::Fault;
use recorded_text::store::Store;
use recorded_text::words::Words;
use std::alloc::Global;

/// Makes the call with this name, such as `wrapping_add`, on the operands that it reads from
/// `words`, and returns its result as text. Returns `None` if no call of arithmetic has the name.
pub fn answer(
    alloc: Global,
    call: &str,
    store: &Store,
    words: &mut Words,
) -> Result<Option<String>, Fault>
    requires { HasGoodArrays store.now }
{
    match Call::named(call) {
        Some(call) => ask(alloc, call, store, words).map(Some),
        None => Ok(None),
    }
}

// Makes a call on the operands that it reads from `words`, and returns its result as text.
fn ask(alloc: Global, call: Call, store: &Store, words: &mut Words) -> Result<String, Fault>
    requires { HasGoodArrays store.now }
{
    match call {
        Call::Apply(function) => ask_next(alloc, Asked::Apply(function), store, words),
        Call::Operate(operation) => arrays::of_arrays(alloc, operation, store, words),
        Call::OperateBy(operation) => arrays::of_array_and_number(alloc, operation, store, words),
        Call::OperateFrom(operation) => arrays::of_number_and_array(alloc, operation, store, words),
        Call::UnaryValues => functions::unary_values(alloc, store, words),
        Call::UnaryInPlace => functions::unary_in_place(alloc, store, words),
        Call::BinaryValues => functions::binary_values(alloc, store, words),
        Call::BinaryInPlace => functions::binary_in_place(alloc, store, words),
        Call::SumRows => ask_next(alloc, Asked::SumRows, store, words),
        Call::SumValues => ask_next(alloc, Asked::SumValues, store, words),
        Call::SumMasked => sums::of_masked_values(alloc, store, words),
        Call::Calculate => single_numbers::calculate(alloc, words),
        Call::AddNumbers => single_numbers::add(alloc, words),
    }
}
