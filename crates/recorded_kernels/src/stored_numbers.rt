//! Arrays of numbers of each type: kernels of rows, and comparisons of stored numbers, whatever the
//! validity. A COMPARISON is one of `named_comparisons`.
//!
//! - `compare_number_windows COMPARISON A a B b n`: for `n` rows from row `a` on of A and from row
//!   `b` on of B, a bit for each pair of numbers: 1 if the comparison holds
//! - `compare_number COMPARISON A NUMBER`: a bit for each number of A: 1 if the comparison with
//!   NUMBER holds

ghost use Rattle.std.specs.Prelude.{◌+◌, ◌≤◌, length};
ghost use Rattle.recorded_text.specs.Cases.{HasGoodArrays};

use crate::kernel_names::Question;
use crate::named_comparisons::{NamedComparison, with_comparison};
use crate::named_kinds::{of_kind, of_one_kind};
use crate::rows::ask_rows;
use crate::scalars::ask_scalar;
use crate::windows::{Windows, is_within, read_windows};
use polars_arrays_bits::bitmap::Bitmap;
use polars_arrays_bits::error::ComputeError;
use polars_arrays_flat::array::Array;
use polars_arrays_flat::primitive::PrimitiveArray;
use polars_arrays_nested::any_array::AnyArray;
use polars_arrays_numbers::comparison::{
    Equal, Greater, GreaterOrEqual, Less, LessOrEqual, Unequal,
};
use polars_arrays_numbers::native_type::NativeType;
use polars_compare_leaves::numbers::{compare_number, compare_number_windows};
use recorded_text::bits_text::write_made;
use recorded_text::fault::Fault;
use recorded_text::store::Store;
use recorded_text::words::Words;
use std::alloc::Global;
use std::str::FromStr;

/// A question about an array of numbers and a number.
#[derive(Clone, Copy)]
pub enum Asked {
    /// A kernel of the rows and the number.
    Scalar(Question),
    /// A comparison of each stored number with the number.
    Passing(NamedComparison),
}

/// A question about two arrays of numbers of one type.
#[derive(Clone, Copy)]
pub enum AskedBoth<'a> {
    /// A kernel of the rows.
    Rows(Question),
    /// A comparison of the stored numbers of windows of the arrays.
    Passing(NamedComparison, Windows<'a>),
}

/// Reads a comparison, the name of an array and a number from the next words. Returns the text of
/// the bits that say for each stored number whether the comparison with that number holds.
pub fn beside(alloc: Global, store: &Store, words: &mut Words) -> Result<String, Fault>
    requires { HasGoodArrays store.now }
{
    let comparison = NamedComparison::read(words)?;
    let array = store.read(words)?;
    ask_next(alloc, Asked::Passing(comparison), array, words)
}

/// Reads a comparison and two windows from the next words. Returns the text of the bits that say
/// for each place whether the comparison of the stored numbers holds. The error is `Case` if a
/// window is out of range, or if the arrays do not hold numbers of one type.
pub fn windows(alloc: Global, store: &Store, words: &mut Words) -> Result<String, Fault>
    requires { HasGoodArrays store.now }
{
    let comparison = NamedComparison::read(words)?;
    let windows = read_windows(store, words)?;
    ask_both(
        alloc,
        AskedBoth::Passing(comparison, windows),
        windows.left,
        windows.right,
    )
}

/// Reads a number, and returns the text of the result of `asked` for `array` and this number. The
/// error is `Case` if the array does not hold numbers, and `Word` if its type does not have the
/// number.
pub fn ask_next(
    alloc: Global,
    asked: Asked,
    array: &AnyArray,
    words: &mut Words,
) -> Result<String, Fault> {
    of_kind!(array, numbers => ask_numbers(alloc, asked, numbers, words),
        Int8 Int16 Int32 Int64 Int128 UInt8 UInt16 UInt32 UInt64 UInt128)
}

// Reads a number of type `T`, and returns the text of the result of `asked` for `numbers` and it.
fn ask_numbers<T: NativeType + FromStr<Err: Drop>>(
    alloc: Global,
    asked: Asked,
    numbers: &PrimitiveArray<T>,
    words: &mut Words,
) -> Result<String, Fault> {
    let number: T = words.read_number()?;
    match asked {
        Asked::Scalar(question) => ask_scalar(alloc, question, numbers, &number),
        Asked::Passing(comparison) => {
            write_made(alloc, passing(alloc, comparison, numbers, number))
        }
    }
}

// Returns a bit for each stored number: 1 if `comparison` holds for it and `number`.
fn passing<T: NativeType>(
    alloc: Global,
    comparison: NamedComparison,
    numbers: &PrimitiveArray<T>,
    number: T,
) -> Result<Bitmap, ComputeError> {
    with_comparison!(comparison, comparison => compare_number(alloc, comparison, numbers, number))
}

/// Returns the text of the result of `asked` for two arrays of numbers of one type. The error is
/// `Case` if their types differ, if they do not hold numbers, if a window is out of range, or if
/// the kernel can't be called on them.
pub fn ask_both(
    alloc: Global,
    asked: AskedBoth<'_>,
    these: &AnyArray,
    those: &AnyArray,
) -> Result<String, Fault> {
    of_one_kind!(these, those, left, right => ask_pair(alloc, asked, left, right),
        Int8 Int16 Int32 Int64 Int128 UInt8 UInt16 UInt32 UInt64 UInt128)
}

// Returns the text of the result of `asked` for two arrays of numbers of type `T`. The error is
// `Case` if a window is out of range.
fn ask_pair<T: NativeType>(
    alloc: Global,
    asked: AskedBoth<'_>,
    left: &PrimitiveArray<T>,
    right: &PrimitiveArray<T>,
) -> Result<String, Fault> {
    match asked {
        AskedBoth::Rows(question) => ask_rows(alloc, question, left, right),
        AskedBoth::Passing(comparison, windows) => {
            let Windows { a, b, n, .. } = windows;
            if !is_within(a, n, left.len()) || !is_within(b, n, right.len()) {
                return Err(Fault::Case);
            }
            write_made(
                alloc,
                passing_pairs(alloc, comparison, left, a, right, b, n),
            )
        }
    }
}

// Returns a bit for each `i` below `n`: 1 if `comparison` holds for the stored number `a + i` of
// `left` and `b + i` of `right`.
fn passing_pairs<T: NativeType>(
    alloc: Global,
    comparison: NamedComparison,
    left: &PrimitiveArray<T>,
    a: usize,
    right: &PrimitiveArray<T>,
    b: usize,
    n: usize,
) -> Result<Bitmap, ComputeError>
    requires left_in { a + n ≤ length left.now.values }
    requires right_in { b + n ≤ length right.now.values }
{
    with_comparison!(comparison, comparison => {
        compare_number_windows(alloc, comparison, left, a, right, b, n)
    })
}
