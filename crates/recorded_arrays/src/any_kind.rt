//! Calls of the trait `Array` on arrays of any kind.

ghost use Rattle.polars_arrays_nested.specs.GoodParts.{IsGood};

use crate::values_text::write_value;
use polars_arrays_flat::array::Array;
use polars_arrays_nested::any_array::AnyArray;
use recorded_text::bits_text::write_made_mask;
use recorded_text::fault::Fault;
use std::alloc::Global;

/// A method of the trait `Array`.
#[derive(Clone, Copy)]
pub enum Asked {
    /// The number of rows.
    Len,
    /// The number of null rows.
    NullCount,
    /// The mask of all rows.
    MissingMask,
}

/// Calls the method `asked` on the array that `array` holds in its variant, and returns the result
/// as text.
pub fn ask(alloc: Global, asked: Asked, array: &AnyArray) -> Result<String, Fault>
    requires { IsGood array.now }
{
    match array {
        AnyArray::Null(array) => ask_kind(alloc, asked, array),
        AnyArray::Boolean(array) => ask_kind(alloc, asked, array),
        AnyArray::Int8(array) => ask_kind(alloc, asked, array),
        AnyArray::Int16(array) => ask_kind(alloc, asked, array),
        AnyArray::Int32(array) => ask_kind(alloc, asked, array),
        AnyArray::Int64(array) => ask_kind(alloc, asked, array),
        AnyArray::Int128(array) => ask_kind(alloc, asked, array),
        AnyArray::UInt8(array) => ask_kind(alloc, asked, array),
        AnyArray::UInt16(array) => ask_kind(alloc, asked, array),
        AnyArray::UInt32(array) => ask_kind(alloc, asked, array),
        AnyArray::UInt64(array) => ask_kind(alloc, asked, array),
        AnyArray::UInt128(array) => ask_kind(alloc, asked, array),
        AnyArray::Binary(array) => ask_kind(alloc, asked, array),
        AnyArray::LargeBinary(array) => ask_kind(alloc, asked, array),
        AnyArray::Utf8(array) => ask_kind(alloc, asked, array),
        AnyArray::LargeUtf8(array) => ask_kind(alloc, asked, array),
        AnyArray::BinaryView(array) => ask_kind(alloc, asked, array),
        AnyArray::Utf8View(array) => ask_kind(alloc, asked, array),
        AnyArray::FixedSizeBinary(array) => ask_kind(alloc, asked, array),
        AnyArray::List(array) => ask_kind(alloc, asked, array),
        AnyArray::FixedSizeList(array) => ask_kind(alloc, asked, array),
        AnyArray::Struct(array) => ask_kind(alloc, asked, array),
        AnyArray::Dictionary(array) => ask_kind(alloc, asked, array),
    }
}

// Calls the method `asked` on `array`, and returns the result as text.
fn ask_kind<A: Array>(alloc: Global, asked: Asked, array: &A) -> Result<String, Fault>
    requires { A.good array.now }
{
    match asked {
        Asked::Len => write_value(alloc, array.len()),
        Asked::NullCount => write_value(alloc, array.null_count()),
        Asked::MissingMask => write_made_mask(alloc, array.missing_mask(alloc)),
    }
}
