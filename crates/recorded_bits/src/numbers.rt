//! Calls on number types, on offsets and keys, and on the counter `Steps`.
//!
//! - `least_value TYPE`, `greatest_value TYPE`: the least and the greatest number of the type
//! - `number_width TYPE`: the number of bits of a number of the type
//! - `is_signed TYPE`: whether the type has numbers below 0
//! - `has_wide_values TYPE`: whether the numbers of the type have more than 64 bits
//! - `to_place TYPE OFFSET`, `place TYPE OFFSET`: the offset as a place, a number of type `usize`.
//!   For a negative offset, `to_place` returns `none`, and `place` returns an error
//! - `to_entry TYPE KEY`: the index of the entry to which the key refers, or `none` if the key is
//!   negative
//! - `steps N NUMBER..`, `default_steps N NUMBER..`: the value of a new counter after the N numbers
//!   were added. The counter is made by `new` or by `default`

use crate::answer_text::{write_found, write_value};
use crate::number_types::{NumberType, read_type};
use polars_arrays_numbers::dictionary_key::DictionaryKey;
use polars_arrays_numbers::native_type::{
    NativeType, greatest_value, has_wide_values, least_value,
};
use polars_arrays_numbers::offset::Offset;
use polars_arrays_numbers::steps::Steps;
use recorded_text::fault::Fault;
use recorded_text::parts::read_numbers;
use recorded_text::words::Words;
use std::alloc::Global;
use std::fmt::Display;
use std::str::FromStr;

/// A call on a number type itself, as listed at the top of this file.
#[derive(Clone, Copy)]
pub enum OfType {
    Least,
    Greatest,
    Width,
    IsSigned,
    HasWideValues,
}

/// A call that returns the place of an offset: `Found` is `to_place`, `Known` is `place`.
#[derive(Clone, Copy)]
pub enum OfOffset {
    Found,
    Known,
}

/// Reads a type of offsets and an offset from the next words, and returns the result of the call
/// `asked` on the offset. The error is `Word` if the type is another one than `i32` and `i64`, and
/// `Case` if `Known` is called on a negative offset.
pub fn of_offset(alloc: Global, asked: OfOffset, words: &mut Words) -> Result<String, Fault> {
    match read_type(words)? {
        NumberType::Int32 => ask_offset::<i32>(alloc, asked, words),
        NumberType::Int64 => ask_offset::<i64>(alloc, asked, words),
        _ => Err(Fault::Word),
    }
}

/// Reads a type of keys and a key from the next words, and returns the text of the index of the
/// entry to which the key refers, or `none` if the key is negative. The error is `Word` if the type
/// has 128 bits.
pub fn of_key(alloc: Global, words: &mut Words) -> Result<String, Fault> {
    match read_type(words)? {
        NumberType::Int8 => entry::<i8>(alloc, words),
        NumberType::Int16 => entry::<i16>(alloc, words),
        NumberType::Int32 => entry::<i32>(alloc, words),
        NumberType::Int64 => entry::<i64>(alloc, words),
        NumberType::UInt8 => entry::<u8>(alloc, words),
        NumberType::UInt16 => entry::<u16>(alloc, words),
        NumberType::UInt32 => entry::<u32>(alloc, words),
        NumberType::UInt64 => entry::<u64>(alloc, words),
        NumberType::Int128 | NumberType::UInt128 => Err(Fault::Word),
    }
}

/// Returns the result of the call `asked` on the number type `T`.
pub fn ask_type<T: NativeType + Display>(alloc: Global, asked: OfType) -> Result<String, Fault> {
    match asked {
        OfType::Least => write_value(alloc, least_value::<T>()),
        OfType::Greatest => write_value(alloc, greatest_value::<T>()),
        OfType::Width => write_value(alloc, T::width()),
        OfType::IsSigned => write_value(alloc, T::is_signed()),
        OfType::HasWideValues => write_value(alloc, has_wide_values::<T>()),
    }
}

// Reads an offset from the next word, and returns the result of the call `asked` on it. The error
// is `Case` if `Known` is called on a negative offset.
fn ask_offset<O: Offset + FromStr<Err: Drop>>(
    alloc: Global,
    asked: OfOffset,
    words: &mut Words,
) -> Result<String, Fault> {
    let offset: O = words.read_number()?;
    match asked {
        OfOffset::Found => write_found(alloc, offset.to_place()),
        OfOffset::Known => write_place(alloc, offset),
    }
}

// Returns the text of the place of `offset`. The error is `Case` if the offset is negative.
fn write_place<O: Offset>(alloc: Global, offset: O) -> Result<String, Fault> {
    if offset.to_place().is_none() {
        return Err(Fault::Case);
    }
    write_value(alloc, offset.place())
}

// Reads a key from the next word, and returns the text of the index of the entry to which the key
// refers, or `none` if the key is negative.
fn entry<K: DictionaryKey + FromStr<Err: Drop>>(
    alloc: Global,
    words: &mut Words,
) -> Result<String, Fault> {
    let key: K = words.read_number()?;
    write_found(alloc, key.to_entry())
}

/// Reads a count and that many numbers, adds the numbers to `steps`, and returns the text of the
/// counter's value.
pub fn count(alloc: Global, mut steps: Steps, words: &mut Words) -> Result<String, Fault> {
    let numbers = read_numbers::<u64>(alloc, words)?;
    add_all(&mut steps, numbers.as_slice());
    write_value(alloc, steps.seen())
}

// Adds all `numbers` to the counter `steps`.
fn add_all(steps: &mut Steps, numbers: &[u64]) {
    for number in numbers {
        steps.add(*number as usize);
    }
}
