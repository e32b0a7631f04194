//! Calls of comparisons of numbers. A COMPARISON is `equal`, `unequal`, `less`, `less_or_equal`,
//! `greater` or `greater_or_equal`, and a LIST is a count and that many numbers.
//!
//! - `compare COMPARISON TYPE LEFT RIGHT`: whether the comparison holds of two numbers
//! - `packs_in_registers COMPARISON TYPE`: whether results are packed in registers, as they are for
//!   numbers of more than 64 bits
//! - `compare_pairs COMPARISON TYPE LIST LIST`: for each place of two lists of equal length,
//!   whether the comparison holds of the two numbers there
//! - `compare_windows COMPARISON TYPE LIST AT LIST AT N`: for each place of two windows of N
//!   numbers, whether the comparison holds of the two numbers there. Each window begins at place AT
//!   of the list before it
//! - `compare_constant COMPARISON TYPE LIST NUMBER`: for each number of the list, whether the
//!   comparison holds of that number and NUMBER

use crate::answer_text::write_value;
use crate::bits::{is_within, read_pair};
use crate::number_types::{Asked, ask_next};
use polars_arrays_bits::buffer::Buffer;
use polars_arrays_bits::slices::{compare_constant, compare_pairs};
use polars_arrays_numbers::comparison::{
    Comparison, Equal, Greater, GreaterOrEqual, Less, LessOrEqual, Unequal,
};
use polars_arrays_numbers::native_type::NativeType;
use recorded_text::bits_text::write_made;
use recorded_text::fault::Fault;
use recorded_text::names::find_word;
use recorded_text::parts::read_numbers;
use recorded_text::words::Words;
use std::alloc::Global;
use std::str::FromStr;

/// A call listed at the top of this file: `Two` is `compare`, `Pairs` is `compare_pairs`, and so
/// on.
#[derive(Clone, Copy)]
pub enum Compared {
    Two,
    PacksInRegisters,
    Pairs,
    Windows,
    Constant,
}

/// A comparison of two numbers.
#[derive(Clone, Copy)]
pub enum Test {
    Equal,
    Unequal,
    Less,
    LessOrEqual,
    Greater,
    GreaterOrEqual,
}

// The comparisons by name.
const TESTS: [(&str, Test); 6] = [
    ("equal", Test::Equal),
    ("unequal", Test::Unequal),
    ("less", Test::Less),
    ("less_or_equal", Test::LessOrEqual),
    ("greater", Test::Greater),
    ("greater_or_equal", Test::GreaterOrEqual),
];

/// Reads the name of a comparison and a number type from the next words, and returns the result of
/// the call `compared` for these. The operands are read from the words after them. The error is
/// `Case` if the lengths of two lists differ, or if a window is out of range.
pub fn by_name(alloc: Global, compared: Compared, words: &mut Words) -> Result<String, Fault> {
    let test = find_word(&TESTS, words.read()?)?;
    ask_next(alloc, Asked::Compared(compared, test), words)
}

/// Returns the result of the call `compared` for the comparison `test` of numbers of type `T`. The
/// operands are read from `words`. The error is `Case` if the lengths of two lists differ, or if a
/// window is out of range.
pub fn by_test<T: NativeType + FromStr<Err: Drop>>(
    alloc: Global,
    compared: Compared,
    test: Test,
    words: &mut Words,
) -> Result<String, Fault> {
    match test {
        Test::Equal => ask::<T, Equal>(alloc, compared, &Equal, words),
        Test::Unequal => ask::<T, Unequal>(alloc, compared, &Unequal, words),
        Test::Less => ask::<T, Less>(alloc, compared, &Less, words),
        Test::LessOrEqual => ask::<T, LessOrEqual>(alloc, compared, &LessOrEqual, words),
        Test::Greater => ask::<T, Greater>(alloc, compared, &Greater, words),
        Test::GreaterOrEqual => ask::<T, GreaterOrEqual>(alloc, compared, &GreaterOrEqual, words),
    }
}

// Returns the result of the call `compared` for `comparison`. The operands are read from `words`.
fn ask<T: NativeType + FromStr<Err: Drop>, E: Comparison<T, T>>(
    alloc: Global,
    compared: Compared,
    comparison: &E,
    words: &mut Words,
) -> Result<String, Fault> {
    match compared {
        Compared::Two => two::<T, E>(alloc, comparison, words),
        Compared::PacksInRegisters => write_value(alloc, comparison.packs_in_registers()),
        Compared::Pairs => pairs::<T, E>(alloc, comparison, words),
        Compared::Windows => windows::<T, E>(alloc, comparison, words),
        Compared::Constant => constant::<T, E>(alloc, comparison, words),
    }
}

// Reads two numbers, and returns `true` or `false` as a text: whether `comparison` holds of them.
fn two<T: NativeType + FromStr<Err: Drop>, E: Comparison<T, T>>(
    alloc: Global,
    comparison: &E,
    words: &mut Words,
) -> Result<String, Fault> {
    let (left, right) = read_pair(words)?;
    write_value(alloc, comparison.compare(left, right))
}

// Reads two lists of numbers, and returns the text of the bits of their comparison. Each bit says
// whether the comparison holds of the two numbers at a place. The error is `Case` if the lists have
// different lengths.
fn pairs<T: NativeType + FromStr<Err: Drop>, E: Comparison<T, T>>(
    alloc: Global,
    comparison: &E,
    words: &mut Words,
) -> Result<String, Fault> {
    let left = read_numbers::<T>(alloc, words)?;
    let right = read_numbers::<T>(alloc, words)?;
    write_pairs(alloc, comparison, left.as_slice(), right.as_slice())
}

// Returns the text of the bits of the comparison of two lists. Each bit says whether the comparison
// holds of the two numbers at a place. The error is `Case` if the lists have different lengths.
fn write_pairs<T: NativeType, E: Comparison<T, T>>(
    alloc: Global,
    comparison: &E,
    left: &[T],
    right: &[T],
) -> Result<String, Fault> {
    if left.len() != right.len() {
        return Err(Fault::Case);
    }
    write_made(alloc, compare_pairs(alloc, comparison, left, right))
}

// A list of numbers, and the place in it where a window begins.
#[derive(Drop)]
struct Part<T: NativeType> {
    numbers: Buffer<T>,
    at: usize,
}

// Reads a list of numbers, and the place where a window of it begins. Does not check the place.
fn read_part<T: NativeType + FromStr<Err: Drop>>(
    alloc: Global,
    words: &mut Words,
) -> Result<Part<T>, Fault> {
    let numbers = read_numbers(alloc, words)?;
    let at = words.read_number()?;
    Ok(Part { numbers, at })
}

// Reads two lists, each followed by the place where a window begins, and the length of both
// windows. Returns the text of the bits of the comparison of the windows. Each bit says whether the
// comparison holds of the two numbers at a place. The error is `Case` if a window is out of range.
fn windows<T: NativeType + FromStr<Err: Drop>, E: Comparison<T, T>>(
    alloc: Global,
    comparison: &E,
    words: &mut Words,
) -> Result<String, Fault> {
    let left = read_part::<T>(alloc, words)?;
    let right = read_part::<T>(alloc, words)?;
    write_windows(alloc, comparison, &left, &right, words.read_number())
}

// Returns the text of the bits of the comparison of two windows of `count` numbers. Each bit says
// whether the comparison holds of the two numbers at a place. If `count` is an error, returns it.
// The error is `Case` if a window is out of range.
fn write_windows<T: NativeType, E: Comparison<T, T>>(
    alloc: Global,
    comparison: &E,
    left: &Part<T>,
    right: &Part<T>,
    count: Result<usize, Fault>,
) -> Result<String, Fault> {
    let count = count?;
    let (these, those) = (left.numbers.as_slice(), right.numbers.as_slice());
    if !is_within(left.at, count, these.len()) || !is_within(right.at, count, those.len()) {
        return Err(Fault::Case);
    }
    let these = &these[left.at..left.at + count];
    let those = &those[right.at..right.at + count];
    write_made(alloc, compare_pairs(alloc, comparison, these, those))
}

// Reads a list and then a number, and returns the text of a bit for each element of the list. The
// bit says whether `comparison` holds of the element and the number.
fn constant<T: NativeType + FromStr<Err: Drop>, E: Comparison<T, T>>(
    alloc: Global,
    comparison: &E,
    words: &mut Words,
) -> Result<String, Fault> {
    let left = read_numbers::<T>(alloc, words)?;
    let right = words.read_number()?;
    write_made(
        alloc,
        compare_constant(alloc, comparison, left.as_slice(), right),
    )
}
