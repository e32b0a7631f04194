//! Functions that read the parts of an array that is not nested from the next words.
//!
//! In all of them, the parts share their elements with clones if `kept` is `Shared`, and own them
//! otherwise. The error is `Word` if a word is missing or wrong, `Parts` if the parts do not match,
//! and `Memory` if an allocation fails.

ghost use Rattle.std.specs.Prelude.{IfOk};
ghost use Rattle.polars_arrays_nested.specs.GoodParts.{IsGood};

use crate::fault::Fault;
use crate::parts::{
    Kept, read_buffers, read_byte_buffer, read_kept, read_kept_numbers, read_validity, read_views,
};
use crate::words::Words;
use polars_arrays_bits::bitmap::Bitmap;
use polars_arrays_bits::buffer::Buffer;
use polars_arrays_bytes::binary::BinaryArray;
use polars_arrays_bytes::fixed_size::FixedSizeBinaryArray;
use polars_arrays_bytes::text::Utf8Array;
use polars_arrays_flat::boolean::BooleanArray;
use polars_arrays_flat::primitive::PrimitiveArray;
use polars_arrays_nested::any_array::AnyArray;
use polars_arrays_numbers::native_type::NativeType;
use polars_arrays_numbers::offset::Offset;
use polars_arrays_views::binary_view::BinaryViewArray;
use polars_arrays_views::text_view::Utf8ViewArray;
use polars_arrays_views::view::View;
use std::alloc::Global;
use std::str::FromStr;

/// Reads an array of truth values: their bits, and the validity.
pub fn read_booleans(alloc: Global, kept: Kept, words: &mut Words) -> Result<AnyArray, Fault>
    ensures { IfOk result (λ a. IsGood a) }
{
    let values = read_kept(alloc, kept, words.read()?)?;
    let validity = read_validity(alloc, kept, words)?;
    Ok(AnyArray::Boolean(BooleanArray::try_new(values, validity)?))
}

/// Reads an array of numbers: their count, the numbers, and the validity.
pub fn read_integers<T: NativeType + FromStr<Err: Drop>>(
    alloc: Global,
    kept: Kept,
    words: &mut Words,
) -> Result<PrimitiveArray<T>, Fault> {
    let values = read_kept_numbers(alloc, kept, words)?;
    let validity = read_validity(alloc, kept, words)?;
    Ok(PrimitiveArray::try_new(values, validity)?)
}

// The parts of an array that stores byte strings or texts between offsets: the offsets, the bytes
// of all strings, and the validity.
#[derive(Drop)]
struct StringParts<O: Offset> {
    offsets: Buffer<O>,
    values: Buffer<u8>,
    validity: Option<Bitmap>,
}

// Reads the parts of an array of byte strings or texts between offsets: the count of the offsets,
// the offsets, the bytes of all strings, and the validity.
fn read_string_parts<O: Offset + FromStr<Err: Drop>>(
    alloc: Global,
    kept: Kept,
    words: &mut Words,
) -> Result<StringParts<O>, Fault> {
    let offsets = read_kept_numbers(alloc, kept, words)?;
    let values = read_byte_buffer(alloc, kept, words)?;
    let validity = read_validity(alloc, kept, words)?;
    Ok(StringParts {
        offsets,
        values,
        validity,
    })
}

/// Reads an array of byte strings between offsets: the count of the offsets, the offsets, the bytes
/// of all strings, and the validity.
pub fn read_binary<O: Offset + FromStr<Err: Drop>>(
    alloc: Global,
    kept: Kept,
    words: &mut Words,
) -> Result<BinaryArray<O>, Fault> {
    let parts = read_string_parts(alloc, kept, words)?;
    Ok(BinaryArray::try_new(parts.offsets, parts.values, parts.validity)?)
}

/// Reads an array of texts between offsets, in the form of `read_binary`. The error is also `Parts`
/// if a text is not UTF-8.
pub fn read_text<O: Offset + FromStr<Err: Drop>>(
    alloc: Global,
    kept: Kept,
    words: &mut Words,
) -> Result<Utf8Array<O>, Fault> {
    let parts = read_string_parts(alloc, kept, words)?;
    Ok(Utf8Array::try_new(parts.offsets, parts.values, parts.validity)?)
}

// The parts of an array of byte strings or texts in views: a view for each row, the buffers to
// which views of longer strings refer, and the validity.
#[derive(Drop)]
struct ViewParts {
    views: Buffer<View>,
    buffers: Vec<Buffer<u8>>,
    validity: Option<Bitmap>,
}

// Reads the parts of an array of byte strings or texts in views: the count of the views, the views,
// the count of the buffers, the bytes of each buffer, and the validity.
fn read_view_parts(alloc: Global, kept: Kept, words: &mut Words) -> Result<ViewParts, Fault> {
    let views = kept.buffer(alloc, read_views(alloc, words)?)?;
    let buffers = read_buffers(alloc, kept, words)?;
    let validity = read_validity(alloc, kept, words)?;
    Ok(ViewParts {
        views,
        buffers,
        validity,
    })
}

/// Reads an array of byte strings in views: the count of the views, the views, the count of the
/// buffers, the bytes of each buffer, and the validity.
pub fn read_binary_view(alloc: Global, kept: Kept, words: &mut Words) -> Result<AnyArray, Fault>
    ensures { IfOk result (λ a. IsGood a) }
{
    let parts = read_view_parts(alloc, kept, words)?;
    Ok(AnyArray::BinaryView(BinaryViewArray::try_new(parts.views, parts.buffers, parts.validity)?))
}

/// Reads an array of texts in views, in the form of `read_binary_view`. The error is also `Parts`
/// if a text is not UTF-8.
pub fn read_text_view(alloc: Global, kept: Kept, words: &mut Words) -> Result<AnyArray, Fault>
    ensures { IfOk result (λ a. IsGood a) }
{
    let parts = read_view_parts(alloc, kept, words)?;
    Ok(AnyArray::Utf8View(Utf8ViewArray::try_new(parts.views, parts.buffers, parts.validity)?))
}

/// Reads an array of byte strings of one size: the size, the number of strings, the bytes of all
/// strings, and the validity.
pub fn read_sized(alloc: Global, kept: Kept, words: &mut Words) -> Result<AnyArray, Fault>
    ensures { IfOk result (λ a. IsGood a) }
{
    let size = words.read_number()?;
    let len = words.read_number()?;
    let values = read_byte_buffer(alloc, kept, words)?;
    let validity = read_validity(alloc, kept, words)?;
    Ok(AnyArray::FixedSizeBinary(FixedSizeBinaryArray::try_new(size, len, values, validity)?))
}
