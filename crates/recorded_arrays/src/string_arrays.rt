//! Arrays of byte strings and of texts: the values of all rows, null or not.

ghost use Rattle.std.specs.Prelude.{◌≡◌};

use crate::types::write_made_type;
use crate::values_text::{push_text, write_value};
use polars_arrays_bits::error::ComputeError;
use polars_arrays_bytes::fixed_size::FixedSizeBinaryArray;
use polars_arrays_bytes::of_size::OfSize;
use polars_arrays_bytes::offset_type::OffsetType;
use polars_arrays_bytes::text::Utf8Array;
use polars_arrays_flat::byte_rows::ByteRows;
use polars_arrays_flat::data_type::ArrowDataType;
use polars_arrays_nested::any_array::AnyArray;
use polars_arrays_numbers::offset::Offset;
use polars_arrays_views::text_view::Utf8ViewArray;
use recorded_text::bytes_text::write_strings;
use recorded_text::fault::Fault;
use recorded_text::words::Words;
use std::alloc::Global;

/// A call on an array of byte strings or of texts. Each variant has the name of its function below.
#[derive(Clone, Copy)]
pub enum Asked {
    Bytes,
    Value,
    OfSize,
    AsBinary,
    AsBinview,
}

/// Returns the result of `asked` on `array` as text. `Value` reads the index of a row from the next
/// word, and `OfSize` reads a size. Returns the error `Case` for an array of a kind that the call
/// does not take, or if the index or size does not fit the array.
pub fn ask(
    alloc: Global,
    asked: Asked,
    array: &AnyArray,
    words: &mut Words,
) -> Result<String, Fault> {
    match asked {
        Asked::Bytes => bytes(alloc, array),
        Asked::Value => value(alloc, array, words.read_number()),
        Asked::OfSize => of_size(alloc, array, words.read_number()),
        Asked::AsBinary => as_binary(alloc, array),
        Asked::AsBinview => as_binview(alloc, array),
    }
}

// Returns the byte strings of all rows of `array` as text, including those of null rows, then the
// number of rows and the number of nulls. Returns the error `Case` if the rows are not byte strings
// or texts.
fn bytes(alloc: Global, array: &AnyArray) -> Result<String, Fault> {
    match array {
        AnyArray::Binary(array) => write_strings(alloc, array),
        AnyArray::LargeBinary(array) => write_strings(alloc, array),
        AnyArray::Utf8(array) => write_strings(alloc, array),
        AnyArray::LargeUtf8(array) => write_strings(alloc, array),
        AnyArray::BinaryView(array) => write_strings(alloc, array),
        AnyArray::Utf8View(array) => write_strings(alloc, array),
        AnyArray::FixedSizeBinary(array) => write_strings(alloc, array),
        _ => Err(Fault::Case),
    }
}

// Returns the text of row `i` of an array of texts, even if the row is null. If `i` is an error,
// returns it. Returns the error `Case` for an array of another kind, or if there is no row `i`.
fn value(alloc: Global, array: &AnyArray, i: Result<usize, Fault>) -> Result<String, Fault> {
    let i = i?;
    match array {
        AnyArray::Utf8(array) => text_at(alloc, array, i),
        AnyArray::LargeUtf8(array) => text_at(alloc, array, i),
        AnyArray::Utf8View(array) => viewed_text(alloc, array, i),
        _ => Err(Fault::Case),
    }
}

// Returns the text of row `i` of `array`, even if the row is null. Returns the error `Case` if
// there is no row `i`.
fn text_at<O: Offset>(alloc: Global, array: &Utf8Array<O>, i: usize) -> Result<String, Fault> {
    if i >= array.offsets().len().saturating_sub(1) {
        return Err(Fault::Case);
    }
    write_value(alloc, array.value(i))
}

// Returns the text of row `i` of an array of views, even if the row is null. Returns the error
// `Case` if there is no row `i`.
fn viewed_text(alloc: Global, array: &Utf8ViewArray, i: usize) -> Result<String, Fault> {
    if i >= array.views().len() {
        return Err(Fault::Case);
    }
    write_value(alloc, array.value(i))
}

// Reads the byte strings of a fixed-size binary array through `OfSize`, with `size` as its
// constant, and returns them as text. If `size` is an error, returns it. Returns the error `Case`
// for an array of another kind or of another size, or if `size` is not 0, 1, 2, 4, 8 or 16.
fn of_size(alloc: Global, array: &AnyArray, size: Result<usize, Fault>) -> Result<String, Fault> {
    let size = size?;
    let AnyArray::FixedSizeBinary(array) = array else {
        return Err(Fault::Case);
    };
    match size {
        0 => sized::<0>(alloc, array),
        1 => sized::<1>(alloc, array),
        2 => sized::<2>(alloc, array),
        4 => sized::<4>(alloc, array),
        8 => sized::<8>(alloc, array),
        16 => sized::<16>(alloc, array),
        _ => Err(Fault::Case),
    }
}

// Reads the byte strings of `array` through `OfSize::<SIZE>`, and returns them as text. Returns the
// error `Case` if the size of the array is not `SIZE`.
fn sized<const SIZE: usize>(alloc: Global, array: &FixedSizeBinaryArray) -> Result<String, Fault> {
    if array.size() != SIZE {
        return Err(Fault::Case);
    }
    write_strings(alloc, &OfSize::<SIZE>::new(array))
}

// Returns as text the type and the byte strings of the binary array inside an array of texts.
// Returns the error `Case` for an array of another kind, or for texts in views.
fn as_binary(alloc: Global, array: &AnyArray) -> Result<String, Fault> {
    match array {
        AnyArray::Utf8(array) => binary_of(alloc, array),
        AnyArray::LargeUtf8(array) => binary_of(alloc, array),
        _ => Err(Fault::Case),
    }
}

// Returns as text the type and the byte strings of the binary array inside `array`.
fn binary_of<O: OffsetType>(alloc: Global, array: &Utf8Array<O>) -> Result<String, Fault> {
    let binary = array.as_binary();
    write_typed(alloc, binary.dtype(alloc), binary)
}

// Returns as text the type and the byte strings of the binary array inside an array of texts in
// views. Returns the error `Case` for an array of another kind.
fn as_binview(alloc: Global, array: &AnyArray) -> Result<String, Fault> {
    let AnyArray::Utf8View(array) = array else {
        return Err(Fault::Case);
    };
    let binary = array.as_binview();
    write_typed(alloc, binary.dtype(alloc), binary)
}

// Returns the text of the type `dtype`, then `: ` and the byte strings as text. If `dtype` is an
// error, returns it as a `Fault`.
fn write_typed<A: ByteRows>(
    alloc: Global,
    dtype: Result<ArrowDataType, ComputeError>,
    strings: &A,
) -> Result<String, Fault> {
    let mut text = write_made_type(alloc, dtype)?;
    text.push_str(": ")?;
    push_text(&mut text, write_strings(alloc, strings))?;
    Ok(text)
}
