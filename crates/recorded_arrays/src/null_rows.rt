//! Null rows of an array, one by one and as masks.
//!
//! A mask is written as its bits, with 1 for each present row. A mask without bits, which says that
//! all rows are present, is written as `none`.

ghost use Rattle.polars_arrays_nested.specs.GoodParts.{IsGood};
ghost use Rattle.polars_arrays_nested.specs.declared.any_array.AnyArray.{Dictionary};

use crate::any_kind;
use crate::values_text::write_value;
use crate::windows::read_window;
use polars_arrays_nested::any_array::AnyArray;
use polars_arrays_nested::dictionary::DictionaryArray;
use recorded_text::bits_text::write_made_mask;
use recorded_text::fault::Fault;
use recorded_text::words::Words;
use std::alloc::Global;

/// A call of a method about null rows. `IsNullKey` calls `is_null_row` of `DictionaryArray`,
/// `MaskOfKind` calls `missing_mask` of the trait `Array`, and the others call methods of
/// `AnyArray`.
#[derive(Clone, Copy)]
pub enum Asked {
    IsNullRow,
    IsNullKey,
    MayHaveNulls,
    MissingMask,
    MaskOfKind,
    WindowMask,
}

/// Returns the result of `asked` on `array` as text. Reads the index of a row, or a window, from
/// `words` if the call needs one. Returns the error `Case` if the index or window is out of range,
/// or if `IsNullKey` is called on an array that is no dictionary.
pub fn ask(
    alloc: Global,
    asked: Asked,
    array: &AnyArray,
    words: &mut Words,
) -> Result<String, Fault>
    requires { IsGood array.now }
{
    match asked {
        Asked::IsNullRow => is_null_row(alloc, array, words.read_number()),
        Asked::IsNullKey => is_null_key(alloc, array, words.read_number()),
        Asked::MayHaveNulls => write_value(alloc, array.may_have_nulls()),
        Asked::MissingMask => write_made_mask(alloc, array.missing_mask(alloc)),
        Asked::MaskOfKind => any_kind::ask(alloc, any_kind::Asked::MissingMask, array),
        Asked::WindowMask => window_mask(alloc, array, words),
    }
}

// Returns the text `true` if row `i` of `array` is null, otherwise `false`. If `i` is an error,
// returns it. Returns the error `Case` if there is no row `i`.
fn is_null_row(alloc: Global, array: &AnyArray, i: Result<usize, Fault>) -> Result<String, Fault>
    requires { IsGood array.now }
{
    let i = i?;
    if i >= array.len() {
        return Err(Fault::Case);
    }
    write_value(alloc, array.is_null_row(i))
}

// Returns the text `true` if row `i` of a dictionary array is null, otherwise `false`. If `i` is an
// error, returns it. Returns the error `Case` for an array of another kind, or if there is no row
// `i`.
fn is_null_key(alloc: Global, array: &AnyArray, i: Result<usize, Fault>) -> Result<String, Fault>
    requires { IsGood array.now }
{
    let i = i?;
    match array {
        AnyArray::Dictionary(array) => names_null(alloc, array, i),
        _ => Err(Fault::Case),
    }
}

// Returns the text `true` if row `i` of `array` is null, otherwise `false`. Returns the error
// `Case` if there is no row `i`.
fn names_null(alloc: Global, array: &DictionaryArray, i: usize) -> Result<String, Fault>
    requires { IsGood (Dictionary array.now) }
{
    if i >= array.keys().len() {
        return Err(Fault::Case);
    }
    write_value(alloc, array.is_null_row(i))
}

// Reads a window from the next two words, and returns the mask of these rows of `array` as text.
// Returns the error `Case` if the window is out of range.
fn window_mask(alloc: Global, array: &AnyArray, words: &mut Words) -> Result<String, Fault>
    requires { IsGood array.now }
{
    let (at, n) = read_window(words, array.len())?;
    write_made_mask(alloc, array.window_mask(alloc, at, n))
}
