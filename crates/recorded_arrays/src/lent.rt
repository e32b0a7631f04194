//! Parts and numbers of an array: its length, number of nulls, validity, stored values, offsets,
//! views, buffers and keys, and the arrays inside a nested array.

ghost use Rattle.polars_arrays_nested.specs.GoodParts.{IsGood};
ghost use Rattle.polars_arrays_nested.specs.declared.any_array.AnyArray.{List, Struct, Dictionary};

use crate::values_text::{push_text, push_value, write_value, write_values};
use crate::{any_kind, number_arrays};
use polars_arrays_flat::validity::is_present;
use polars_arrays_nested::any_array::AnyArray;
use polars_arrays_nested::dictionary::DictionaryArray;
use polars_arrays_nested::list::ListArray;
use polars_arrays_nested::struct_array::StructArray;
use polars_arrays_views::binary_view::BinaryViewArray;
use polars_arrays_views::view::View;
use recorded_text::bits_text::write_bits;
use recorded_text::bytes_text::{push_bytes, write_bytes};
use recorded_text::fault::Fault;
use recorded_text::row_text::write_rows;
use recorded_text::type_text::key_name;
use recorded_text::words::Words;
use std::alloc::Global;

/// A call that returns a part of an array, or a number such as the length. Each variant has the
/// name of its function below, except for `Len` and `NullCount`, the methods of the trait `Array`.
#[derive(Clone, Copy)]
pub enum Asked {
    Len,
    NullCount,
    Validity,
    Values,
    Offsets,
    Views,
    Buffers,
    Keys,
    KeyValue,
    Column,
    Count,
    Width,
    Size,
}

/// Returns as text the part or number of `array` that `asked` names. `KeyValue` and `Column` read
/// an index from the next word. Returns the error `Case` if the array has no such part or number.
pub fn ask(
    alloc: Global,
    asked: Asked,
    array: &AnyArray,
    words: &mut Words,
) -> Result<String, Fault>
    requires { IsGood array.now }
{
    match asked {
        Asked::Len => any_kind::ask(alloc, any_kind::Asked::Len, array),
        Asked::NullCount => any_kind::ask(alloc, any_kind::Asked::NullCount, array),
        Asked::Validity => validity(alloc, array),
        Asked::Values => values(alloc, array, words),
        Asked::Offsets => offsets(alloc, array),
        Asked::Views => views(alloc, array),
        Asked::Buffers => buffers(alloc, array),
        Asked::Keys => keys(alloc, array),
        Asked::KeyValue => key_value(alloc, array, words.read_number()),
        Asked::Column => column(alloc, array, words.read_number()),
        Asked::Count => count(alloc, array),
        Asked::Width => width(alloc, array),
        Asked::Size => size(alloc, array),
    }
}

// Returns the bits of the validity of `array` as text, or `none` if the array stores no validity.
fn validity(alloc: Global, array: &AnyArray) -> Result<String, Fault>
    requires { IsGood array.now }
{
    match array.validity() {
        Some(bits) => write_bits(alloc, bits),
        None => write_value(alloc, "none"),
    }
}

// Returns the stored values of `array` as text, including those of null rows and those that no row
// uses. If the array holds other arrays, returns the rows of these. Returns the error `Case` for an
// array of texts or of views, and for a `Null` array.
fn values(alloc: Global, array: &AnyArray, words: &mut Words) -> Result<String, Fault>
    requires { IsGood array.now }
{
    match array {
        AnyArray::Boolean(array) => write_bits(alloc, array.values()),
        AnyArray::Binary(array) => write_bytes(alloc, array.values()),
        AnyArray::LargeBinary(array) => write_bytes(alloc, array.values()),
        AnyArray::FixedSizeBinary(array) => write_bytes(alloc, array.values()),
        AnyArray::List(array) => write_rows(alloc, array.values()),
        AnyArray::FixedSizeList(array) => write_rows(alloc, array.values()),
        AnyArray::Struct(array) => columns(alloc, array),
        AnyArray::Dictionary(array) => write_rows(alloc, array.values()),
        _ => number_arrays::ask(alloc, number_arrays::Asked::Values, array, words),
    }
}

// Returns the rows of each column of `array` as text, with ` | ` between two columns.
fn columns(alloc: Global, array: &StructArray) -> Result<String, Fault>
    requires { IsGood (Struct array.now) }
{
    let mut text = String::new(alloc);
    for k in 0..array.values().len() {
        if k > 0 {
            text.push_str(" | ")?;
        }
        push_text(&mut text, write_rows(alloc, array.column(k)))?;
    }
    Ok(text)
}

// Returns the rows of column `k` of an array of structs as text. If `k` is an error, returns it.
// Returns the error `Case` for an array of another kind, or if there is no column `k`.
fn column(alloc: Global, array: &AnyArray, k: Result<usize, Fault>) -> Result<String, Fault>
    requires { IsGood array.now }
{
    let k = k?;
    match array {
        AnyArray::Struct(array) if k < array.values().len() => write_rows(alloc, array.column(k)),
        _ => Err(Fault::Case),
    }
}

// Returns the offsets of `array` as text, and for lists then `large` or `small`. Returns the error
// `Case` if the array has no offsets.
fn offsets(alloc: Global, array: &AnyArray) -> Result<String, Fault>
    requires { IsGood array.now }
{
    match array {
        AnyArray::Binary(array) => write_values(alloc, array.offsets()),
        AnyArray::LargeBinary(array) => write_values(alloc, array.offsets()),
        AnyArray::Utf8(array) => write_values(alloc, array.offsets()),
        AnyArray::LargeUtf8(array) => write_values(alloc, array.offsets()),
        AnyArray::List(array) => list_offsets(alloc, array),
        _ => Err(Fault::Case),
    }
}

// Returns the offsets of `array` as text, then `large` if the offsets have 64 bits, otherwise
// `small`.
fn list_offsets(alloc: Global, array: &ListArray) -> Result<String, Fault>
    requires { IsGood (List array.now) }
{
    let offsets = array.offsets();
    let mut text = String::new(alloc);
    for i in 0..offsets.len() {
        push_value(&mut text, offsets.offset(i))?;
    }
    let last = offsets.offset(offsets.len());
    let width = if offsets.is_large() { "large" } else { "small" };
    write!(text, "{last} {width}")?;
    Ok(text)
}

// Returns the views of `array` as text. Returns the error `Case` if the array has no views.
fn views(alloc: Global, array: &AnyArray) -> Result<String, Fault> {
    match array {
        AnyArray::BinaryView(array) => write_views(alloc, array.views()),
        AnyArray::Utf8View(array) => write_views(alloc, array.views()),
        _ => Err(Fault::Case),
    }
}

// Returns the sixteen bytes of each view as text, with a space between two views.
fn write_views(alloc: Global, views: &[View]) -> Result<String, Fault> {
    let mut text = String::new(alloc);
    for (i, view) in views.iter().enumerate() {
        if i > 0 {
            text.push(' ')?;
        }
        push_bytes(&mut text, &view.as_u128().to_le_bytes())?;
    }
    Ok(text)
}

// Returns the buffers of an array of views as text. Returns the error `Case` for an array of
// another kind.
fn buffers(alloc: Global, array: &AnyArray) -> Result<String, Fault> {
    match array {
        AnyArray::BinaryView(array) => write_buffers(alloc, array),
        AnyArray::Utf8View(array) => write_buffers(alloc, array.as_binview()),
        _ => Err(Fault::Case),
    }
}

// Returns the bytes of each buffer of `array` as text, with a space between two buffers.
fn write_buffers(alloc: Global, array: &BinaryViewArray) -> Result<String, Fault> {
    let mut text = String::new(alloc);
    for (i, buffer) in array.buffers().iter().enumerate() {
        if i > 0 {
            text.push(' ')?;
        }
        push_bytes(&mut text, buffer.as_slice())?;
    }
    Ok(text)
}

// Returns as text the keys of a dictionary array, the type of the keys, and the number of null
// keys. A null key is written as it is stored, or as 0 if it is negative. Returns the error `Case`
// for an array of another kind.
fn keys(alloc: Global, array: &AnyArray) -> Result<String, Fault> {
    let AnyArray::Dictionary(array) = array else {
        return Err(Fault::Case);
    };
    let keys = array.keys();
    let mut text = String::new(alloc);
    for i in 0..keys.len() {
        push_value(&mut text, keys.key(i))?;
    }
    let name = key_name(keys.key_type());
    write!(text, "{name}, {} null", keys.null_count())?;
    Ok(text)
}

// Returns as text the index of the entry to which key `i` of a dictionary array refers. If `i` is
// an error, returns it. Returns the error `Case` for an array of another kind, or if key `i` is
// null or does not exist.
fn key_value(alloc: Global, array: &AnyArray, i: Result<usize, Fault>) -> Result<String, Fault>
    requires { IsGood array.now }
{
    let i = i?;
    match array {
        AnyArray::Dictionary(array) => entry_of(alloc, array, i),
        _ => Err(Fault::Case),
    }
}

// Returns as text the index of the entry to which key `i` of `array` refers. Returns the error
// `Case` if key `i` is null or does not exist.
fn entry_of(alloc: Global, array: &DictionaryArray, i: usize) -> Result<String, Fault>
    requires { IsGood (Dictionary array.now) }
{
    let keys = array.keys();
    if i >= keys.len() || !is_present(keys.validity(), i) {
        return Err(Fault::Case);
    }
    write_value(alloc, array.key_value(i))
}

// Returns the number of rows of an array of fixed-size lists or of structs as text. Returns the
// error `Case` for an array of another kind.
fn count(alloc: Global, array: &AnyArray) -> Result<String, Fault> {
    match array {
        AnyArray::FixedSizeList(array) => write_value(alloc, array.len()),
        AnyArray::Struct(array) => write_value(alloc, array.len()),
        _ => Err(Fault::Case),
    }
}

// Returns the number of items of each list of a fixed-size list array as text. Returns the error
// `Case` for an array of another kind.
fn width(alloc: Global, array: &AnyArray) -> Result<String, Fault> {
    match array {
        AnyArray::FixedSizeList(array) => write_value(alloc, array.width()),
        _ => Err(Fault::Case),
    }
}

// Returns the number of bytes of each row of a fixed-size binary array as text. Returns the error
// `Case` for an array of another kind.
fn size(alloc: Global, array: &AnyArray) -> Result<String, Fault> {
    match array {
        AnyArray::FixedSizeBinary(array) => write_value(alloc, array.size()),
        _ => Err(Fault::Case),
    }
}
