//! Recorded cases of counts of bits, of bitwise reductions, and of extremes: the least and the
//! greatest row of an array, or number of a slice.
//!
//! A call and its operands are words of a line. An operand A is the name of an array, which is
//! borrowed. Sums are in `recorded_arithmetic`. The function `answer` creates one text, and each
//! module appends its result to it.
//!
//! The error is `Word` if a word is missing or wrong, `Case` if there is no array of a name or if
//! the array is of the wrong kind, and `Memory` if an allocation failed.
#![tactic(auto)]

ghost use Rattle.recorded_text.specs.Cases.{HasGoodArrays};

mod bits;
mod calls;
mod dispatched;
mod extremes;
mod found_text;
mod kinds;
mod places;
mod scalar_bits;

use crate::calls::{CALLS, Call};
use recorded_text::fault::Fault;
use recorded_text::names::find;
use recorded_text::store::Store;
use recorded_text::words::Words;
use std::alloc::Global;

/// Reads the operands of `call` from `words`, and returns the result as text. Returns `None` if
/// `call` is not the name of a call of this crate.
pub fn answer(
    alloc: Global,
    call: &str,
    store: &Store,
    words: &mut Words,
) -> Result<Option<String>, Fault>
    requires { HasGoodArrays store.now }
{
    match find(&CALLS, call) {
        Some(call) => write_answer(alloc, call, store, words).map(Some),
        None => Ok(None),
    }
}

// Reads the operands of `call` from `words`, and returns the result as text.
fn write_answer(
    alloc: Global,
    call: Call,
    store: &Store,
    words: &mut Words,
) -> Result<String, Fault>
    requires { HasGoodArrays store.now }
{
    let mut text = String::new(alloc);
    push_answer(alloc, &mut text, call, store, words)?;
    Ok(text)
}

// Reads the operands of `call` from `words`, and appends the result to `text`.
fn push_answer(
    alloc: Global,
    text: &mut String,
    call: Call,
    store: &Store,
    words: &mut Words,
) -> Result<(), Fault>
    requires { HasGoodArrays store.now }
{
    match call {
        Call::Bits(question) => bits::push_answer(alloc, text, question, store.read(words)?),
        Call::Extremes(subject, asked) => {
            extremes::push_answer(text, subject, asked, store.read(words)?)
        }
        Call::Dispatched(asked) => dispatched::push_answer(text, asked, store.read(words)?),
        Call::Best(best) => places::push_answer(text, best, store, words),
        Call::Join(join) => scalar_bits::push_answer(text, join, words),
    }
}
