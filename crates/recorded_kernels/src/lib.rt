//! Calls of kernels in recorded cases: equality and order of two arrays, of an array and a scalar,
//! and of two windows, some with the number of comparisons of leaves.
//!
//! A call and its operands are words of a line, and the result is a text. The operands A and B are
//! names of arrays. The indices `i`, `j`, `a` and `b` of rows begin at 0, and `n` is a number of
//! rows. BYTES is `x` and two hexadecimal digits for each byte. In a result, bits are written as
//! `b0:` and a digit for each bit, or `x` if the bit is not defined. An operand BITS looks alike,
//! such as `b0:101`.
//!
//! The `Fault` of a function is `Word` if a word is missing or malformed, `Case` if an array does
//! not exist or the call does not take arrays of its kind, and `Memory` if an allocation fails.
//! Comments on functions name other reasons for `Case`.
#![tactic(auto)]

ghost use Rattle.recorded_text.specs.Cases.{HasGoodArrays};

mod any_kind;
mod borrowed;
mod calls;
mod counters;
mod joining;
mod kernel_names;
mod leaf_kernels;
mod named_comparisons;
mod named_kinds;
mod operands;
mod raw_bits;
mod rows;
mod scalars;
mod stored_numbers;
mod stored_rows;
mod view_rows;
mod windows;

use crate::calls::Call;
use recorded_text::fault::Fault;
use recorded_text::store::Store;
use recorded_text::words::Words;
use std::alloc::Global;

/// Returns the result of `call` if this crate defines it, or `None` for any other call. `words` are
/// the operands, which may name arrays of `store`.
pub fn answer(
    alloc: Global,
    call: &str,
    store: &Store,
    words: &mut Words,
) -> Result<Option<String>, Fault>
    requires { HasGoodArrays store.now }
{
    match Call::named(call) {
        Some(call) => ask(alloc, call, store, words).map(Some),
        None => Ok(None),
    }
}

// Returns the result of `call`, with the operands that `words` give.
fn ask(alloc: Global, call: Call, store: &Store, words: &mut Words) -> Result<String, Fault>
    requires { HasGoodArrays store.now }
{
    match call {
        Call::Rows(question) => rows::ask(alloc, question, store, words),
        Call::Scalar(question) => scalars::ask(alloc, question, store, words),
        Call::Bytes(question) => borrowed::ask_bytes(alloc, question, store, words),
        Call::Text(question) => borrowed::ask_text(alloc, question, store, words),
        Call::Missing(relation) => any_kind::missing(alloc, relation, store, words),
        Call::WithSteps => any_kind::with_steps(alloc, store, words),
        Call::Lists(kind) => any_kind::lists(alloc, kind, store, words),
        Call::Law(law) => any_kind::call_law(alloc, law),
        Call::Counted(counted) => windows::ask(alloc, counted, store, words),
        Call::Numbers => stored_numbers::beside(alloc, store, words),
        Call::NumberWindows => stored_numbers::windows(alloc, store, words),
        Call::Compared(compared) => named_comparisons::ask(alloc, compared, store, words),
        Call::Views(asked) => view_rows::ask(alloc, asked, store, words),
        Call::Join(join) => joining::ask(alloc, join, words),
    }
}
