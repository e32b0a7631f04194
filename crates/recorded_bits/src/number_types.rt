//! The number types with their names, and calls with numbers of one type.

use crate::buffers;
use crate::comparisons::{Compared, Test, by_test};
use crate::numbers::{OfType, ask_type};
use polars_arrays_numbers::native_type::NativeType;
use recorded_text::fault::Fault;
use recorded_text::names::find_word;
use recorded_text::words::Words;
use std::alloc::Global;
use std::fmt::Display;
use std::str::FromStr;

/// A type of numbers: a signed or unsigned integer type of 8 to 128 bits.
#[derive(Clone, Copy)]
pub enum NumberType {
    Int8,
    Int16,
    Int32,
    Int64,
    Int128,
    UInt8,
    UInt16,
    UInt32,
    UInt64,
    UInt128,
}

// The number types by name.
const NUMBER_TYPES: [(&str, NumberType); 10] = [
    ("i8", NumberType::Int8),
    ("i16", NumberType::Int16),
    ("i32", NumberType::Int32),
    ("i64", NumberType::Int64),
    ("i128", NumberType::Int128),
    ("u8", NumberType::UInt8),
    ("u16", NumberType::UInt16),
    ("u32", NumberType::UInt32),
    ("u64", NumberType::UInt64),
    ("u128", NumberType::UInt128),
];

/// Reads the name of a number type, such as `i8`, from the next word, and returns the type. The
/// error is `Word` if the word is missing or names no number type.
pub fn read_type(words: &mut Words) -> Result<NumberType, Fault> {
    find_word(&NUMBER_TYPES, words.read()?)
}

/// A call with numbers of one type.
#[derive(Clone, Copy)]
pub enum Asked {
    /// A call on the type itself, without operands.
    Type(OfType),
    /// A call of `comparisons`, with the comparison of two numbers that it makes.
    Compared(Compared, Test),
    /// Operations on a buffer of numbers.
    Buffer,
}

/// Reads a number type from the next word, and returns the result of the call `asked` for this
/// type. The operands of the call are read from the words after the type. The error is `Case` if
/// the call has no result for them.
pub fn ask_next(alloc: Global, asked: Asked, words: &mut Words) -> Result<String, Fault> {
    match read_type(words)? {
        NumberType::Int8 => ask::<i8>(alloc, asked, words),
        NumberType::Int16 => ask::<i16>(alloc, asked, words),
        NumberType::Int32 => ask::<i32>(alloc, asked, words),
        NumberType::Int64 => ask::<i64>(alloc, asked, words),
        NumberType::Int128 => ask::<i128>(alloc, asked, words),
        NumberType::UInt8 => ask::<u8>(alloc, asked, words),
        NumberType::UInt16 => ask::<u16>(alloc, asked, words),
        NumberType::UInt32 => ask::<u32>(alloc, asked, words),
        NumberType::UInt64 => ask::<u64>(alloc, asked, words),
        NumberType::UInt128 => ask::<u128>(alloc, asked, words),
    }
}

// Returns the result of the call `asked` for the number type `T`. The operands of the call are read
// from `words`.
fn ask<T: NativeType + Display + FromStr<Err: Drop>>(
    alloc: Global,
    asked: Asked,
    words: &mut Words,
) -> Result<String, Fault> {
    match asked {
        Asked::Type(of_type) => ask_type::<T>(alloc, of_type),
        Asked::Compared(compared, test) => by_test::<T>(alloc, compared, test, words),
        Asked::Buffer => buffers::operate::<T>(alloc, words),
    }
}
