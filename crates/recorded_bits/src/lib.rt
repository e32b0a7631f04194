//! Recorded cases of numbers, bitmaps, masks, builders, buffers and comparisons of slices. A case
//! is a line of text with the name of a call and the operands of the call.
//!
//! A function that reads words returns the error `Word` if a word is missing or wrong, and one that
//! allocates returns `Memory` if an allocation fails. Comments on functions say when another error
//! is returned.
#![tactic(auto)]

mod answer_text;
mod bits;
mod buffers;
mod builders;
mod calls;
mod comparisons;
mod errors;
mod masks;
mod mutable_bits;
mod number_types;
mod numbers;
mod operators;
mod sweeps;
mod truth_values;

use crate::calls::{CALLS, Call};
use crate::number_types::{Asked, ask_next};
use polars_arrays_numbers::steps::Steps;
use recorded_text::fault::Fault;
use recorded_text::names::find;
use recorded_text::words::Words;
use std::alloc::Global;

/// Returns the result of the call named `call` as text, or `None` if this crate has no call with
/// that name. The operands of the call are read from `words`. The error is `Case` if the call has
/// no result for these operands.
pub fn answer(alloc: Global, call: &str, words: &mut Words) -> Result<Option<String>, Fault> {
    match find(&CALLS, call) {
        Some(call) => ask(alloc, call, words).map(Some),
        None => Ok(None),
    }
}

// Returns the result of `call` as text. The operands of the call are read from `words`. The error
// is `Case` if the call has no result for these operands.
fn ask(alloc: Global, call: Call, words: &mut Words) -> Result<String, Fault> {
    match call {
        Call::NumberType(asked) => ask_next(alloc, Asked::Type(asked), words),
        Call::Offset(asked) => numbers::of_offset(alloc, asked, words),
        Call::Key => numbers::of_key(alloc, words),
        Call::Steps => numbers::count(alloc, Steps::new(), words),
        Call::DefaultSteps => numbers::count(alloc, Steps::default(), words),
        Call::Bits(asked) => bits::ask(alloc, asked, words),
        Call::Masks(asked) => masks::ask(alloc, asked, words),
        Call::Builder => builders::operate(alloc, words),
        Call::MutableBits => mutable_bits::operate(alloc, words),
        Call::Buffer => ask_next(alloc, Asked::Buffer, words),
        Call::Compared(compared) => comparisons::by_name(alloc, compared, words),
        Call::ComputeError => errors::write_compute_error(alloc, words),
        Call::ArrayError => errors::write_array_error(alloc, words),
        Call::Sweep => sweeps::answer(alloc, words),
        Call::SweepOfBlocks => sweeps::answer_of_blocks(alloc, words),
    }
}
