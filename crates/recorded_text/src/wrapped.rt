//! Arrays that are nested many levels deep. A loop wraps an array in one level after the other, so
//! reading them takes no stack for the levels.
//!
//! A level is an array with a row for each row of the array that it wraps. Its kind is `list` or
//! `fixedlist` for lists of one row each, `struct` for structs with the row in their only field
//! `f`, or `dict` for keys that refer to the row.

ghost use Rattle.std.specs.Prelude.{IfOk};
ghost use Rattle.std.specs.List.{All};
ghost use Rattle.polars_arrays_nested.specs.GoodParts.{IsGood};

use crate::fault::Fault;
use crate::nested::{boxed, read_any, struct_of};
use crate::words::Words;
use polars_arrays_bits::buffer::Buffer;
use polars_arrays_flat::primitive::PrimitiveArray;
use polars_arrays_nested::any_array::AnyArray;
use polars_arrays_nested::dict_keys::DictKeys;
use polars_arrays_nested::dictionary::DictionaryArray;
use polars_arrays_nested::fixed_size_list::FixedSizeListArray;
use polars_arrays_nested::list::ListArray;
use polars_arrays_nested::list_offsets::ListOffsets;
use std::alloc::Global;

/// The greatest number of levels in a line for a stack of 8 MiB, the usual size.
pub const LEVELS: usize = 1000;

/// The greatest number of levels in a line that may need a larger stack than 8 MiB.
pub const FAR_LEVELS: usize = 100_000;

/// Reads a number of levels, a word with the kinds of the levels separated by commas, and an array,
/// and wraps the array in the levels. The first kind is that of the outermost level. If there are
/// fewer kinds than levels, the kinds are repeated; kinds in excess of the levels are ignored. The
/// error is `Depth` if there are more than `most` levels. It is `Word` if a word is missing or
/// wrong, if a kind is unknown, or if a level would need a number above the greatest `i32`. Other
/// errors are those of `read_any`.
pub fn read_wrapped(alloc: Global, words: &mut Words, most: usize) -> Result<AnyArray, Fault>
    ensures { IfOk result (λ a. IsGood a) }
{
    let levels = read_levels(words, most)?;
    let kinds = read_kinds(alloc, words)?;
    wrap_all(alloc, levels, &kinds, read_any(alloc, words))
}

// Reads a number of levels. The error is `Depth` if it is greater than `most`, and `Word` if the
// next word is no number.
fn read_levels(words: &mut Words, most: usize) -> Result<usize, Fault> {
    let levels: usize = words.read_number()?;
    if levels > most {
        return Err(Fault::Depth(most));
    }
    Ok(levels)
}

// Reads a word, and returns its parts between commas: the kinds of the levels. Does not check that
// there are such kinds.
fn read_kinds<'a>(alloc: Global, words: &mut Words<'a>) -> Result<Vec<&'a str>, Fault> {
    Ok(words.read()?.split(',').collect(alloc)?)
}

// Wraps an array in `levels` levels. The kinds are repeated from the outermost level on. If `array`
// is an error, returns that error. The error is `Word` if a level has an unknown kind, or would
// need a number above the greatest `i32`.
fn wrap_all(
    alloc: Global,
    levels: usize,
    kinds: &[&str],
    array: Result<AnyArray, Fault>,
) -> Result<AnyArray, Fault>
    requires { IfOk array (λ a. IsGood a) }
    ensures { IfOk result (λ a. IsGood a) }
{
    let mut wrapped = boxed(alloc, array)?;
    for level in (0..levels).rev() {
        wrapped = boxed(alloc, wrap(alloc, kind_at(kinds, level), wrapped))?;
    }
    Ok(Box::into_inner(wrapped))
}

// Returns the kind of level `level`, counted from the outermost, with the kinds repeated. Returns
// an empty name if `kinds` is empty.
fn kind_at<'a>(kinds: &[&'a str], level: usize) -> &'a str {
    if kinds.is_empty() {
        return "";
    }
    kinds[level % kinds.len()]
}

// Wraps an array in one level of the kind `kind`. The error is `Word` if `kind` is no kind of a
// level, or if `array` has too many rows for the offsets or keys, which are of type `i32`.
fn wrap(alloc: Global, kind: &str, array: Box<AnyArray>) -> Result<AnyArray, Fault>
    requires { IsGood array.value }
    ensures { IfOk result (λ a. IsGood a) }
{
    match kind {
        "list" => in_lists(alloc, array),
        "fixedlist" => in_fixed_lists(array),
        "struct" => in_structs(alloc, array),
        "dict" => in_dictionary(alloc, array),
        _ => Err(Fault::Word),
    }
}

// Creates an array of lists, each with one row of `items`. The error is `Word` if the number of
// rows exceeds the greatest `i32`.
fn in_lists(alloc: Global, items: Box<AnyArray>) -> Result<AnyArray, Fault>
    requires { IsGood items.value }
    ensures { IfOk result (λ a. IsGood a) }
{
    let offsets = places(alloc, items.len().saturating_add(1))?;
    Ok(AnyArray::List(ListArray::try_new(ListOffsets::Small(offsets), items, None)?))
}

// Creates an array of lists of width 1, each with one row of `items`.
fn in_fixed_lists(items: Box<AnyArray>) -> Result<AnyArray, Fault>
    requires { IsGood items.value }
    ensures { IfOk result (λ a. IsGood a) }
{
    let len = items.len();
    Ok(AnyArray::FixedSizeList(FixedSizeListArray::try_new(1, len, items, None)?))
}

// Creates an array of structs with one field `f`, the column `column`.
fn in_structs(alloc: Global, column: Box<AnyArray>) -> Result<AnyArray, Fault>
    requires { IsGood column.value }
    ensures { IfOk result (λ a. IsGood a) }
{
    let len = column.len();
    let columns = only_column(alloc, Box::into_inner(column))?;
    struct_of(alloc, &["f"], len, columns, None)
}

// Creates a vector that has only this column. The error is `Memory`.
fn only_column(alloc: Global, column: AnyArray) -> Result<Vec<AnyArray>, Fault>
    requires { IsGood column }
    ensures { IfOk result (λ columns. All IsGood columns.items) }
{
    let mut columns = Vec::new(alloc);
    columns.push(column)?;
    Ok(columns)
}

// Creates a dictionary array in which row `i` has the key `i`, so each entry occurs once. The error
// is `Word` if a key exceeds the greatest `i32`.
fn in_dictionary(alloc: Global, entries: Box<AnyArray>) -> Result<AnyArray, Fault>
    requires { IsGood entries.value }
    ensures { IfOk result (λ a. IsGood a) }
{
    let keys = place_keys(alloc, entries.len())?;
    Ok(AnyArray::Dictionary(DictionaryArray::try_new(keys, entries)?))
}

// Creates the keys `0..count`. The error is `Word` if a key exceeds the greatest `i32`, and
// `Memory` if an allocation fails.
fn place_keys(alloc: Global, count: usize) -> Result<DictKeys, Fault> {
    let places = places(alloc, count)?;
    Ok(DictKeys::Int32(PrimitiveArray::try_new(places, None)?))
}

// Creates the numbers `0..count`. The error is `Word` if one exceeds the greatest `i32`, and
// `Memory` if an allocation fails.
fn places(alloc: Global, count: usize) -> Result<Buffer<i32>, Fault> {
    let mut places = Vec::new(alloc);
    for place in 0..count {
        places.push(place_of(place)?)?;
    }
    Ok(Buffer::from_vec(places))
}

// Converts a place to an `i32`. The error is `Word` if it exceeds the greatest `i32`.
fn place_of(place: usize) -> Result<i32, Fault> {
    match i32::try_from(place) {
        Ok(place) => Ok(place),
        Err(_) => Err(Fault::Word),
    }
}
