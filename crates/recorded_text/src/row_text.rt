//! Rows of arrays as text.
//!
//! A row is `null`, a number, `true` or `false`, `x` and the hexadecimal digits of its bytes, the
//! items of a list between brackets, the fields of a struct between braces, or the entry of a
//! dictionary between `<` and `>`. A row of a dictionary array is also `null` if its key refers to
//! a null entry.
//!
//! In all functions, the error is `Case` if a stored value to be written does not exist, and
//! `Memory` if an allocation fails. After an error, a part of a row may have been appended.

ghost use Rattle.polars_arrays_nested.specs.GoodParts.{IsGood};
ghost use Rattle.polars_arrays_nested.specs.declared.any_array.AnyArray.{List, FixedSizeList};
ghost use Rattle.polars_arrays_nested.specs.declared.any_array.AnyArray.{Struct, Dictionary};

use crate::bytes_text::push_bytes;
use crate::fault::Fault;
use polars_arrays_flat::array::Array;
use polars_arrays_flat::boolean::BooleanArray;
use polars_arrays_flat::byte_rows::ByteRows;
use polars_arrays_flat::primitive::PrimitiveArray;
use polars_arrays_flat::validity::is_present;
use polars_arrays_nested::any_array::AnyArray;
use polars_arrays_nested::dictionary::DictionaryArray;
use polars_arrays_nested::fixed_size_list::FixedSizeListArray;
use polars_arrays_nested::list::ListArray;
use polars_arrays_nested::struct_array::StructArray;
use polars_arrays_numbers::native_type::NativeType;
use std::alloc::Global;
use std::fmt::Display;

// Appends `true` or `false`: the stored value at place `i`, even if row `i` is null.
fn push_truth(text: &mut String, array: &BooleanArray, i: usize) -> Result<(), Fault> {
    match array.values().get(i) {
        Some(true) => text.push_str("true")?,
        Some(false) => text.push_str("false")?,
        None => return Err(Fault::Case),
    }
    Ok(())
}

// Appends the stored number at place `i`, even if row `i` is null.
fn push_number<T: NativeType + Display>(
    text: &mut String,
    array: &PrimitiveArray<T>,
    i: usize,
) -> Result<(), Fault> {
    match array.values().get(i) {
        Some(value) => write!(text, "{value}")?,
        None => return Err(Fault::Case),
    }
    Ok(())
}

// Appends the stored byte string at place `i`, even if row `i` is null: `x` and its hexadecimal
// digits.
fn push_string<A: ByteRows>(text: &mut String, array: &A, i: usize) -> Result<(), Fault> {
    if i >= array.count() {
        return Err(Fault::Case);
    }
    push_bytes(text, array.bytes(i))
}

// Appends the stored value at place `i` of an array of truth values, numbers or byte strings, even
// if row `i` is null. The error is `Case` for an array of another kind.
fn push_stored(text: &mut String, array: &AnyArray, i: usize) -> Result<(), Fault> {
    match array {
        AnyArray::Boolean(array) => push_truth(text, array, i),
        AnyArray::Int8(array) => push_number(text, array, i),
        AnyArray::Int16(array) => push_number(text, array, i),
        AnyArray::Int32(array) => push_number(text, array, i),
        AnyArray::Int64(array) => push_number(text, array, i),
        AnyArray::Int128(array) => push_number(text, array, i),
        AnyArray::UInt8(array) => push_number(text, array, i),
        AnyArray::UInt16(array) => push_number(text, array, i),
        AnyArray::UInt32(array) => push_number(text, array, i),
        AnyArray::UInt64(array) => push_number(text, array, i),
        AnyArray::UInt128(array) => push_number(text, array, i),
        AnyArray::Binary(array) => push_string(text, array, i),
        AnyArray::LargeBinary(array) => push_string(text, array, i),
        AnyArray::Utf8(array) => push_string(text, array, i),
        AnyArray::LargeUtf8(array) => push_string(text, array, i),
        AnyArray::BinaryView(array) => push_string(text, array, i),
        AnyArray::Utf8View(array) => push_string(text, array, i),
        AnyArray::FixedSizeBinary(array) => push_string(text, array, i),
        _ => Err(Fault::Case),
    }
}

// Returns whether row `i` is null. It is null if its bit of the validity is 0, if the array is a
// `NullArray`, or if its key refers to a null entry. Returns `true` also if there is no row `i`.
fn is_null_row(array: &AnyArray, i: usize) -> bool
    requires { IsGood array.now }
{
    if i >= array.len() || !is_present(array.validity(), i) {
        return true;
    }
    match array {
        AnyArray::Null(_) => true,
        AnyArray::Dictionary(array) => is_null_row(array.values(), array.keys().key(i)),
        _ => false,
    }
}

/// Appends row `i` of an array to `text`. Appends `null` if there is no row `i`.
#[cycle(walk)]
pub fn push_row(alloc: Global, text: &mut String, array: &AnyArray, i: usize) -> Result<(), Fault>
    requires { IsGood array.now }
{
    if is_null_row(array, i) {
        text.push_str("null")?;
        return Ok(());
    }
    match array {
        AnyArray::List(array) => push_list(alloc, text, array, i),
        AnyArray::FixedSizeList(array) => push_fixed_list(alloc, text, array, i),
        AnyArray::Struct(array) => push_struct(alloc, text, array, i),
        AnyArray::Dictionary(array) => push_entry(alloc, text, array, i),
        _ => push_stored(text, array, i),
    }
}

// Appends list `i`: its items, separated by commas, between brackets. The list is written even if
// it is null.
#[cycle(walk)]
fn push_list(alloc: Global, text: &mut String, array: &ListArray, i: usize) -> Result<(), Fault>
    requires { IsGood (List array.now) }
{
    let offsets = array.offsets();
    if i >= offsets.len() {
        return Err(Fault::Case);
    }
    push_rows(
        alloc,
        text,
        array.values(),
        offsets.offset(i),
        offsets.offset(i + 1),
    )
}

// Appends list `i` of an array of lists of one width: its items, separated by commas, between
// brackets. The list is written even if it is null.
#[cycle(walk)]
fn push_fixed_list(
    alloc: Global,
    text: &mut String,
    array: &FixedSizeListArray,
    i: usize,
) -> Result<(), Fault>
    requires { IsGood (FixedSizeList array.now) }
{
    let Some(from) = array.width().checked_mul(i) else {
        return Err(Fault::Case);
    };
    let to = from.saturating_add(array.width());
    push_rows(alloc, text, array.values(), from, to)
}

// Appends the rows `from..to` of an array, separated by commas, between brackets.
#[cycle(walk)]
fn push_rows(
    alloc: Global,
    text: &mut String,
    array: &AnyArray,
    from: usize,
    to: usize,
) -> Result<(), Fault>
    requires { IsGood array.now }
{
    text.push('[')?;
    for k in from..to {
        if k > from {
            text.push(',')?;
        }
        push_row(alloc, text, array, k)?;
    }
    text.push(']')?;
    Ok(())
}

// Appends struct `i`: row `i` of each column, separated by commas, between braces. The struct is
// written even if it is null.
#[cycle(walk)]
fn push_struct(alloc: Global, text: &mut String, array: &StructArray, i: usize) -> Result<(), Fault>
    requires { IsGood (Struct array.now) }
{
    text.push('{')?;
    for k in 0..array.values().len() {
        if k > 0 {
            text.push(',')?;
        }
        push_row(alloc, text, array.column(k), i)?;
    }
    text.push('}')?;
    Ok(())
}

// Appends the entry to which key `i` refers, between `<` and `>`.
#[cycle(walk)]
fn push_entry(
    alloc: Global,
    text: &mut String,
    array: &DictionaryArray,
    i: usize,
) -> Result<(), Fault>
    requires { IsGood (Dictionary array.now) }
{
    if i >= array.keys().len() {
        return Err(Fault::Case);
    }
    text.push('<')?;
    push_row(alloc, text, array.values(), array.keys().key(i))?;
    text.push('>')?;
    Ok(())
}

/// Returns all rows of an array as text, separated by spaces.
pub fn write_rows(alloc: Global, array: &AnyArray) -> Result<String, Fault>
    requires { IsGood array.now }
{
    let mut text = String::new(alloc);
    for i in 0..array.len() {
        if i > 0 {
            text.push(' ')?;
        }
        push_row(alloc, &mut text, array, i)?;
    }
    Ok(text)
}

/// Returns all rows of an array as text, separated by spaces, and drops the array.
pub fn write_made(alloc: Global, array: AnyArray) -> Result<String, Fault>
    requires { IsGood array }
{
    let text = write_rows(alloc, &array);
    drop(array);
    text
}
