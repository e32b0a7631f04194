//! Arrays of numbers: their stored values, writing and sharing these, and replacing the validity.
//!
//! An array is written as its rows, its stored values, the number of null rows, and `owned` if the
//! array owns its stored values, otherwise `shared`. For example, `7 null over 7 8 1 null, owned`
//! has the rows 7 and null, and the stored values 7 and 8.

ghost use Rattle.std.specs.Prelude.{IfOk};
ghost use Rattle.polars_arrays_flat.specs.Validity.{HasBits};

use crate::values_text::{push_value, write_value, write_values};
use polars_arrays_bits::bitmap::Bitmap;
use polars_arrays_bits::error::ComputeError;
use polars_arrays_flat::array::Array;
use polars_arrays_flat::primitive::PrimitiveArray;
use polars_arrays_flat::validity::has_bits;
use polars_arrays_nested::any_array::AnyArray;
use polars_arrays_numbers::native_type::NativeType;
use recorded_text::bits_text::{is_null, write_bits};
use recorded_text::fault::Fault;
use recorded_text::parts::{Kept, read_validity};
use recorded_text::words::Words;
use std::alloc::Global;
use std::fmt::Display;
use std::str::FromStr;

/// A call of a method of `PrimitiveArray`. A method that changes the array is called on a clone.
#[derive(Clone, Copy)]
pub enum Asked {
    IsOwned,
    Values,
    Share,
    TakeValidity,
    WithValidity,
    FillWith,
    GetMutValues,
    AsMutValues,
}

/// Returns the result of `asked` on an array of numbers as text. Reads the arguments of the call
/// from `words`. Returns the error `Case` for an array of another kind, or if the call has no
/// result for these arguments.
pub fn ask(
    alloc: Global,
    asked: Asked,
    array: &AnyArray,
    words: &mut Words,
) -> Result<String, Fault> {
    match array {
        AnyArray::Int8(array) => ask_numbers(alloc, asked, array, words),
        AnyArray::Int16(array) => ask_numbers(alloc, asked, array, words),
        AnyArray::Int32(array) => ask_numbers(alloc, asked, array, words),
        AnyArray::Int64(array) => ask_numbers(alloc, asked, array, words),
        AnyArray::Int128(array) => ask_numbers(alloc, asked, array, words),
        AnyArray::UInt8(array) => ask_numbers(alloc, asked, array, words),
        AnyArray::UInt16(array) => ask_numbers(alloc, asked, array, words),
        AnyArray::UInt32(array) => ask_numbers(alloc, asked, array, words),
        AnyArray::UInt64(array) => ask_numbers(alloc, asked, array, words),
        AnyArray::UInt128(array) => ask_numbers(alloc, asked, array, words),
        _ => Err(Fault::Case),
    }
}

// Returns the result of `asked` on `array` as text. Reads the arguments of the call from `words`.
// Returns the error `Case` if the call has no result for these arguments.
fn ask_numbers<T: NativeType + Display + FromStr<Err: Drop>>(
    alloc: Global,
    asked: Asked,
    array: &PrimitiveArray<T>,
    words: &mut Words,
) -> Result<String, Fault> {
    match asked {
        Asked::IsOwned => write_value(alloc, array.is_owned()),
        Asked::Values => write_values(alloc, array.values()),
        Asked::Share => share(alloc, array),
        Asked::TakeValidity => take_validity(alloc, array),
        Asked::WithValidity => with_validity(alloc, array, words),
        Asked::FillWith => fill_with(alloc, array, words),
        Asked::GetMutValues => get_mut_values(alloc, array, words),
        Asked::AsMutValues => as_mut_values(alloc, array, words),
    }
}

// Returns the text of `array`: its rows, its stored values, the number of null rows, and `owned` or
// `shared`.
fn write_array<T: NativeType + Display>(
    alloc: Global,
    array: &PrimitiveArray<T>,
) -> Result<String, Fault> {
    let mut text = String::new(alloc);
    push_array(&mut text, array)?;
    Ok(text)
}

/// Returns the text of `array`, and drops the array.
pub fn write_owned<T: NativeType + Display>(
    alloc: Global,
    array: PrimitiveArray<T>,
) -> Result<String, Fault> {
    let text = write_array(alloc, &array);
    drop(array);
    text
}

/// Returns the text of the array `made`, and drops the array. If `made` is an error, returns it as
/// a `Fault`.
pub fn write_made<T: NativeType + Display>(
    alloc: Global,
    made: Result<PrimitiveArray<T>, ComputeError>,
) -> Result<String, Fault> {
    write_owned(alloc, made?)
}

// Appends `array` to `text`: its rows, its stored values, the number of null rows, and `owned` or
// `shared`.
fn push_array<T: NativeType + Display>(
    text: &mut String,
    array: &PrimitiveArray<T>,
) -> Result<(), Fault> {
    push_values(text, array.values(), array.validity())?;
    text.push_str("over ")?;
    push_values(text, array.values(), None)?;
    let kept = if array.is_owned() { "owned" } else { "shared" };
    write!(text, "{} null, {kept}", array.null_count()).map_err(Fault::from)
}

// Appends each of `values` and a space to `text`. Appends `null` in place of a value whose bit of
// `validity` is 0.
fn push_values<T: NativeType + Display>(
    text: &mut String,
    values: &[T],
    validity: Option<&Bitmap>,
) -> Result<(), Fault> {
    for i in 0..values.len() {
        if is_null(validity, i) {
            text.push_str("null ")?;
        } else {
            push_value(text, values[i])?;
        }
    }
    Ok(())
}

// Makes the stored values of a clone of `array` shared, and returns the clone as text.
fn share<T: NativeType + Display>(
    alloc: Global,
    array: &PrimitiveArray<T>,
) -> Result<String, Fault> {
    write_made(alloc, array.clone_array(alloc)?.share(alloc))
}

// Removes the validity of a clone of `array`, and returns as text the validity and the clone
// without it.
fn take_validity<T: NativeType + Display>(
    alloc: Global,
    array: &PrimitiveArray<T>,
) -> Result<String, Fault> {
    let mut copy = array.clone_array(alloc)?;
    let text = write_taken(alloc, copy.take_validity(), &copy);
    drop(copy);
    text
}

// Returns as text the validity `taken`, then ` from ` and the array `left`, from which it was
// taken.
fn write_taken<T: NativeType + Display>(
    alloc: Global,
    taken: Option<Bitmap>,
    left: &PrimitiveArray<T>,
) -> Result<String, Fault> {
    let mut text = write_validity(alloc, taken)?;
    text.push_str(" from ")?;
    push_array(&mut text, left)?;
    Ok(text)
}

// Returns the bits of `validity` as text, or `none` if there is no validity.
fn write_validity(alloc: Global, validity: Option<Bitmap>) -> Result<String, Fault> {
    match validity {
        Some(bits) => write_bits(alloc, &bits),
        None => write_value(alloc, "none"),
    }
}

// Reads a validity from the next word, `-` for none, and returns as text a clone of `array` with
// this validity. Returns the error `Case` if the validity does not have one bit for each row.
fn with_validity<T: NativeType + Display>(
    alloc: Global,
    array: &PrimitiveArray<T>,
    words: &mut Words,
) -> Result<String, Fault> {
    let validity = read_fitting(alloc, array.values().len(), words)?;
    write_owned(alloc, array.clone_array(alloc)?.with_validity(validity))
}

// Reads a validity from the next word, or `None` from the word `-`. Returns the error `Case` if the
// validity does not have `len` bits.
fn read_fitting(alloc: Global, len: usize, words: &mut Words) -> Result<Option<Bitmap>, Fault>
    ensures { IfOk result (λ validity. HasBits len validity) }
{
    let validity = read_validity(alloc, Kept::Owned, words)?;
    if has_bits(len, &validity) {
        Ok(validity)
    } else {
        Err(Fault::Case)
    }
}

// Reads a number from the next word, sets all stored values of a clone of `array` to this number,
// and returns the clone as text.
fn fill_with<T: NativeType + Display + FromStr<Err: Drop>>(
    alloc: Global,
    array: &PrimitiveArray<T>,
    words: &mut Words,
) -> Result<String, Fault> {
    let value = words.read_number()?;
    write_made(alloc, array.clone_array(alloc)?.fill_with(alloc, value))
}

// Reads a number from the next word, and writes it over each stored value of a clone of `array`.
// Returns the clone as text, or `none` if the clone does not own its stored values.
fn get_mut_values<T: NativeType + Display + FromStr<Err: Drop>>(
    alloc: Global,
    array: &PrimitiveArray<T>,
    words: &mut Words,
) -> Result<String, Fault> {
    let value = words.read_number()?;
    let mut copy = array.clone_array(alloc)?;
    let text = write_filled(alloc, &mut copy, value);
    drop(copy);
    text
}

// Writes `value` over each stored value of `array`, and returns the array as text. Returns `none`
// if the stored values are shared.
fn write_filled<T: NativeType + Display>(
    alloc: Global,
    array: &mut PrimitiveArray<T>,
    value: T,
) -> Result<String, Fault> {
    if write_all(array, value) {
        write_array(alloc, array)
    } else {
        write_value(alloc, "none")
    }
}

// Writes `value` over each stored value of `array`, and returns `true`. Returns `false` if the
// stored values are shared, and then writes nothing.
fn write_all<T: NativeType>(array: &mut PrimitiveArray<T>, value: T) -> bool {
    match array.get_mut_values() {
        Some(values) => {
            for each in values.iter_mut() {
                *each = value;
            }
            true
        }
        None => false,
    }
}

// Reads a place and a number from the next two words, writes the number at this place of the stored
// values of a clone of `array`, and returns the clone as text. Returns the error `Case` if the
// clone does not own its values, or if the place is out of range.
fn as_mut_values<T: NativeType + Display + FromStr<Err: Drop>>(
    alloc: Global,
    array: &PrimitiveArray<T>,
    words: &mut Words,
) -> Result<String, Fault> {
    let at: usize = words.read_number()?;
    let value = words.read_number()?;
    let mut copy = array.clone_array(alloc)?;
    let text = write_changed(alloc, &mut copy, at, value);
    drop(copy);
    text
}

// Writes `value` at place `at` of the stored values of `array`, and returns the array as text.
// Returns the error `Case` if the array does not own its values, or if `at` is out of range.
fn write_changed<T: NativeType + Display>(
    alloc: Global,
    array: &mut PrimitiveArray<T>,
    at: usize,
    value: T,
) -> Result<String, Fault> {
    set_value(array, at, value)?;
    write_array(alloc, array)
}

// Writes `value` at place `at` of the stored values of `array`. Returns the error `Case` if the
// array does not own its values, or if `at` is out of range.
fn set_value<T: NativeType>(
    array: &mut PrimitiveArray<T>,
    at: usize,
    value: T,
) -> Result<(), Fault> {
    if !array.is_owned() || at >= array.values().len() {
        return Err(Fault::Case);
    }
    array.as_mut_values()[at] = value;
    Ok(())
}
