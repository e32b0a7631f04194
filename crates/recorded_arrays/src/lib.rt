//! Recorded cases of arrays: constructors, slices, clones and sharing, borrowed parts, null rows,
//! and types.
//!
//! A function that reads words returns the error `Word` if a word is missing or wrong, and one that
//! allocates returns `Memory` if an allocation fails. Comments on functions say when another error
//! is returned.
#![tactic(auto)]

ghost use Rattle.polars_arrays_nested.specs.GoodParts.{IsGood};
ghost use Rattle.recorded_text.specs.Cases.{HasGoodArrays};

mod any_kind;
mod arrays;
mod byte_strings;
mod calls;
mod lent;
mod null_rows;
mod number_arrays;
mod number_types;
mod string_arrays;
mod structs;
mod types;
mod values_text;
mod views;
mod windows;

use crate::calls::{Call, OfOne, OfTwo};
use polars_arrays_nested::any_array::AnyArray;
use recorded_text::fault::Fault;
use recorded_text::store::Store;
use recorded_text::words::Words;
use std::alloc::Global;

/// Runs the call named `call` with arguments from `words`, and returns its result as text, or
/// `None` if this crate has no such call. An argument that is an array is the name of an array in
/// `store`. Returns the error `Case` if `store` lacks an array, or if the call has no result for
/// these arguments.
pub fn answer(
    alloc: Global,
    call: &str,
    store: &Store,
    words: &mut Words,
) -> Result<Option<String>, Fault>
    requires { HasGoodArrays store.now }
{
    match Call::named(call) {
        Some(call) => ask(alloc, call, store, words).map(Some),
        None => Ok(None),
    }
}

// Reads the arguments of `call` from `words`, and returns its result as text. An argument that is
// an array is the name of an array in `store`. Returns the error `Case` if `store` lacks an array,
// or if the call has no result for these arguments.
fn ask(alloc: Global, call: Call, store: &Store, words: &mut Words) -> Result<String, Fault>
    requires { HasGoodArrays store.now }
{
    match call {
        Call::One(asked) => ask_next(alloc, asked, store, words),
        Call::Two(asked) => ask_next_two(alloc, asked, store, words),
        Call::StructOfParts => structs::try_new(alloc, store, words),
        Call::NumberType(asked) => number_types::ask(alloc, asked, words),
        Call::StringsType(strings) => types::strings_data_type(alloc, strings, words),
        Call::Bytes(comparison) => byte_strings::compare(alloc, comparison, words),
        Call::PairLess => byte_strings::less_pair(alloc, words),
        Call::View(asked) => views::ask_next(alloc, asked, words),
        Call::ViewOfShort => views::of_short(alloc, words),
    }
}

// Reads the name of an array of `store` from the next word, and returns the result of `asked` on
// this array as text. Reads other arguments from the words after the name. Returns the error `Case`
// if `store` has no array of that name, or if the call has no result for this array and these
// arguments.
fn ask_next(alloc: Global, asked: OfOne, store: &Store, words: &mut Words) -> Result<String, Fault>
    requires { HasGoodArrays store.now }
{
    ask_one(alloc, asked, store.read(words)?, words)
}

// Returns the result of `asked` on `array` as text. Reads other arguments from `words`. Returns the
// error `Case` if the call has no result for this array and these arguments.
fn ask_one(
    alloc: Global,
    asked: OfOne,
    array: &AnyArray,
    words: &mut Words,
) -> Result<String, Fault>
    requires { IsGood array.now }
{
    match asked {
        OfOne::Array(asked) => arrays::ask(alloc, asked, array, words),
        OfOne::Lent(asked) => lent::ask(alloc, asked, array, words),
        OfOne::NullRows(asked) => null_rows::ask(alloc, asked, array, words),
        OfOne::Numbers(asked) => number_arrays::ask(alloc, asked, array, words),
        OfOne::Strings(asked) => string_arrays::ask(alloc, asked, array, words),
        OfOne::Type => types::dtype(alloc, array),
        OfOne::TypeCopy => types::copied_type(alloc, array),
    }
}

// Reads the names of two arrays of `store` from the next two words, and returns the result of
// `asked` on these arrays as text. Returns the error `Case` if `store` lacks one of the arrays, or
// if the call has no result for them.
fn ask_next_two(
    alloc: Global,
    asked: OfTwo,
    store: &Store,
    words: &mut Words,
) -> Result<String, Fault>
    requires { HasGoodArrays store.now }
{
    let left = store.read(words)?;
    let right = store.read(words)?;
    match asked {
        OfTwo::Leaves => arrays::write_leaves(alloc, left, right),
        OfTwo::Types(comparison) => types::write_comparison(alloc, left, right, comparison),
    }
}
