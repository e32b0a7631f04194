//! Calls on one array of numbers, and on two arrays of numbers of one type.

ghost use Rattle.recorded_text.specs.Cases.{HasGoodArrays};

use crate::arrays::{write_applied, write_operated, write_operated_by, write_operated_from};
use crate::functions::{Change, Choice, write_changed, write_chosen};
use crate::number_kinds::{of_numbers, of_one_kind};
use crate::operands::{Operand, Part, read_operand};
use crate::operations::{Function, Operation};
use crate::sums::{add_masked, add_rows, add_values};
use polars_arrays_bits::bitmap::Bitmap;
use polars_arrays_flat::primitive::PrimitiveArray;
use polars_arrays_nested::any_array::AnyArray;
use polars_compute_arithmetic::arithmetic::HasPrimitiveArithmeticKernel;
use polars_compute_reductions::sum::WrappingSum;
use recorded_text::fault::Fault;
use recorded_text::store::Store;
use recorded_text::words::Words;
use std::alloc::Global;
use std::fmt::Display;
use std::str::FromStr;

/// A call on an array of numbers.
#[derive(Clone, Copy)]
pub enum Asked<'a> {
    /// A function of each number of the array.
    Apply(Function),
    /// An operation on each number of the array and the number that the word gives.
    OperateBy(Operation, &'a str),
    /// An operation on the number that the word gives and each number of the array.
    OperateFrom(Operation, &'a str),
    /// A function of each stored value, applied with `prim_unary_in_place`.
    Change(Change),
    /// The sum of the present rows.
    SumRows,
    /// The sum of the stored values.
    SumValues,
    /// The sum of the stored values, except those whose bit in the bitmap is 0.
    SumMasked(&'a Bitmap),
}

/// Reads an operand from the next words, makes the call `asked` on it, and returns the result as
/// text. The errors are those of `read_operand` and `ask`.
pub fn ask_next(
    alloc: Global,
    asked: Asked<'_>,
    store: &Store,
    words: &mut Words,
) -> Result<String, Fault>
    requires { HasGoodArrays store.now }
{
    ask(alloc, asked, read_operand(store, words)?)
}

/// Makes the call `asked` on the rows of `these`, and returns the result as text. The error is
/// `Case` if the array is not of numbers of 8 to 64 bits; other errors are those of the call.
pub fn ask(alloc: Global, asked: Asked<'_>, these: Operand<'_>) -> Result<String, Fault> {
    of_numbers!(these.array, array => ask_numbers(alloc, asked, array, these.part))
}

// Makes the call `asked` on the rows `part` of an array of numbers, and returns the result as text.
fn ask_numbers<T: HasPrimitiveArithmeticKernel + WrappingSum + Display + FromStr<Err: Drop>>(
    alloc: Global,
    asked: Asked<'_>,
    array: &PrimitiveArray<T>,
    part: Part,
) -> Result<String, Fault> {
    match asked {
        Asked::Apply(function) => write_applied(alloc, function, array, part),
        Asked::OperateBy(operation, word) => write_operated_by(alloc, operation, array, part, word),
        Asked::OperateFrom(operation, word) => {
            write_operated_from(alloc, operation, word, array, part)
        }
        Asked::Change(change) => write_changed(alloc, change, array, part),
        Asked::SumRows => add_rows(alloc, array, part),
        Asked::SumValues => add_values(alloc, array, part),
        Asked::SumMasked(bits) => add_masked(alloc, array, part, bits),
    }
}

/// A call on two arrays of numbers of one type.
#[derive(Clone, Copy)]
pub enum AskedBoth {
    /// An operation on the numbers at each index of both arrays.
    Operate(Operation),
    /// A choice between the stored values at each index of both arrays, made with
    /// `prim_binary_in_place`.
    Choose(Choice),
}

/// Makes the call `asked` on the rows of `these` and `those`, and returns the result as text. The
/// error is `Case` if the arrays are not of numbers of one type of 8 to 64 bits; other errors are
/// those of the call.
pub fn ask_both(
    alloc: Global,
    asked: AskedBoth,
    these: Operand<'_>,
    those: Operand<'_>,
) -> Result<String, Fault> {
    let parts = (these.part, those.part);
    of_one_kind!(these.array, those.array, left, right
            => ask_pair(alloc, asked, left, right, parts),
        Int8 Int16 Int32 Int64 UInt8 UInt16 UInt32 UInt64)
}

// Makes the call `asked` on rows of two arrays: the first part is of `left`, the second of `right`.
// Returns the result as text.
fn ask_pair<T: HasPrimitiveArithmeticKernel + Display>(
    alloc: Global,
    asked: AskedBoth,
    left: &PrimitiveArray<T>,
    right: &PrimitiveArray<T>,
    parts: (Part, Part),
) -> Result<String, Fault> {
    match asked {
        AskedBoth::Operate(operation) => write_operated(alloc, operation, left, right, parts),
        AskedBoth::Choose(choice) => write_chosen(alloc, choice, left, right, parts),
    }
}
