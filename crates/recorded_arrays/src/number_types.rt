//! Constructors of arrays of numbers, and the types of these arrays. A word names the type of the
//! numbers.

use crate::number_arrays::{write_made, write_owned};
use crate::types::write_made_type;
use num_traits::Zero;
use polars_arrays_flat::arrow_type::ArrowType;
use polars_arrays_flat::primitive::PrimitiveArray;
use polars_arrays_numbers::native_type::NativeType;
use recorded_text::fault::Fault;
use recorded_text::names::find_word;
use recorded_text::parts::read_number_list;
use recorded_text::words::Words;
use std::alloc::Global;
use std::fmt::Display;
use std::str::FromStr;

/// A call on a type of numbers: of `from_vec`, `full_null` or `arrow_data_type`.
#[derive(Clone, Copy)]
pub enum Asked {
    FromVec,
    FullNull,
    DataType,
}

// A type of numbers.
#[derive(Clone, Copy)]
enum NumberType {
    Int8,
    Int16,
    Int32,
    Int64,
    Int128,
    UInt8,
    UInt16,
    UInt32,
    UInt64,
    UInt128,
}

// The types of numbers by name.
const NUMBER_TYPES: [(&str, NumberType); 10] = [
    ("i8", NumberType::Int8),
    ("i16", NumberType::Int16),
    ("i32", NumberType::Int32),
    ("i64", NumberType::Int64),
    ("i128", NumberType::Int128),
    ("u8", NumberType::UInt8),
    ("u16", NumberType::UInt16),
    ("u32", NumberType::UInt32),
    ("u64", NumberType::UInt64),
    ("u128", NumberType::UInt128),
];

/// Reads the name of a type of numbers from the next word, and returns the result of `asked` for
/// this type as text. Reads the arguments of the call from the words after the name.
pub fn ask(alloc: Global, asked: Asked, words: &mut Words) -> Result<String, Fault> {
    match find_word(&NUMBER_TYPES, words.read()?)? {
        NumberType::Int8 => ask_type::<i8>(alloc, asked, words),
        NumberType::Int16 => ask_type::<i16>(alloc, asked, words),
        NumberType::Int32 => ask_type::<i32>(alloc, asked, words),
        NumberType::Int64 => ask_type::<i64>(alloc, asked, words),
        NumberType::Int128 => ask_type::<i128>(alloc, asked, words),
        NumberType::UInt8 => ask_type::<u8>(alloc, asked, words),
        NumberType::UInt16 => ask_type::<u16>(alloc, asked, words),
        NumberType::UInt32 => ask_type::<u32>(alloc, asked, words),
        NumberType::UInt64 => ask_type::<u64>(alloc, asked, words),
        NumberType::UInt128 => ask_type::<u128>(alloc, asked, words),
    }
}

// Returns the result of `asked` for the type `T` as text. Reads the arguments of the call from
// `words`.
fn ask_type<T: ArrowType + Zero + Display + FromStr<Err: Drop>>(
    alloc: Global,
    asked: Asked,
    words: &mut Words,
) -> Result<String, Fault> {
    match asked {
        Asked::FromVec => from_vec::<T>(alloc, words),
        Asked::FullNull => full_null::<T>(alloc, words),
        Asked::DataType => write_made_type(alloc, Ok(T::arrow_data_type())),
    }
}

// Reads a count and that many numbers from `words`, and returns the array of these numbers as text.
fn from_vec<T: NativeType + Display + FromStr<Err: Drop>>(
    alloc: Global,
    words: &mut Words,
) -> Result<String, Fault> {
    let numbers = read_number_list(alloc, words)?;
    write_owned(alloc, PrimitiveArray::<T>::from_vec(numbers))
}

// Reads a length from the next word, and returns an array of that many nulls as text.
fn full_null<T: NativeType + Display + Zero>(
    alloc: Global,
    words: &mut Words,
) -> Result<String, Fault> {
    let len = words.read_number()?;
    write_made(alloc, PrimitiveArray::<T>::full_null(alloc, len))
}
