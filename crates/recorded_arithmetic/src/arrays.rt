//! Operations on arrays of numbers of a type of 8 to 64 bits.
//!
//! Each item below gives a call. Its result is the array of the results, as text. Results are
//! wrapped to the type. A result is null if an operand is null, or if the divisor is 0.
//!
//! - `wrapping_abs A` and `wrapping_neg A`: for the numbers of an array
//! - `wrapping_add A B`, and in the same form `wrapping_sub`, `wrapping_mul`, `wrapping_floor_div`,
//!   `wrapping_trunc_div`, `wrapping_mod` and `legacy_div`: for the numbers at each index of two
//!   arrays of one type and length
//! - `wrapping_add_scalar A NUMBER`, and in the same form each other operation with `_scalar` after
//!   its name: for the numbers of an array and a number
//! - `wrapping_sub_scalar_lhs NUMBER A`, and in the same form `wrapping_floor_div_scalar_lhs`,
//!   `wrapping_trunc_div_scalar_lhs`, `wrapping_mod_scalar_lhs` and `legacy_div_scalar_lhs`: for a
//!   number and the numbers of an array

ghost use Rattle.std.specs.Prelude.{◌≡◌, length};
ghost use Rattle.recorded_text.specs.Cases.{HasGoodArrays};

use crate::made::write_made;
use crate::numbers::{Asked, AskedBoth, ask, ask_both, ask_next};
use crate::operands::{Part, clone_part, clone_parts, number_of, read_operand};
use crate::operations::{Function, Operation};
use polars_arrays_bits::error::ComputeError;
use polars_arrays_flat::primitive::PrimitiveArray;
use polars_compute_arithmetic::arithmetic::{ArithmeticKernel, HasPrimitiveArithmeticKernel};
use recorded_text::fault::Fault;
use recorded_text::store::Store;
use recorded_text::words::Words;
use std::alloc::Global;
use std::fmt::Display;
use std::str::FromStr;

/// Applies a function to the rows `part` of an array, and returns the results as text.
pub fn write_applied<T: HasPrimitiveArithmeticKernel + Display>(
    alloc: Global,
    function: Function,
    array: &PrimitiveArray<T>,
    part: Part,
) -> Result<String, Fault> {
    let array = clone_part(alloc, array, part)?;
    let made = apply(alloc, function, array);
    write_made(alloc, made)
}

// Returns the array of the function's results for the rows of an array. The error is `Memory`.
fn apply<T: HasPrimitiveArithmeticKernel>(
    alloc: Global,
    function: Function,
    array: PrimitiveArray<T>,
) -> Result<PrimitiveArray<T>, ComputeError> {
    match function {
        Function::Abs => array.wrapping_abs(alloc),
        Function::Neg => array.wrapping_neg(alloc),
    }
}

/// Reads two operands, applies the operation to the numbers at each index, and returns the results
/// as text. The error is `Case` if the operands differ in type or length.
pub fn of_arrays(
    alloc: Global,
    operation: Operation,
    store: &Store,
    words: &mut Words,
) -> Result<String, Fault>
    requires { HasGoodArrays store.now }
{
    let these = read_operand(store, words)?;
    let those = read_operand(store, words)?;
    ask_both(alloc, AskedBoth::Operate(operation), these, those)
}

/// Applies an operation to the numbers at each index of parts of two arrays, and returns the
/// results as text. The first part is of `left`, the second of `right`. The error is `Case` if the
/// parts differ in length.
pub fn write_operated<T: HasPrimitiveArithmeticKernel + Display>(
    alloc: Global,
    operation: Operation,
    left: &PrimitiveArray<T>,
    right: &PrimitiveArray<T>,
    parts: (Part, Part),
) -> Result<String, Fault> {
    let (left, right) = clone_parts(alloc, left, right, parts)?;
    let made = operate(alloc, operation, left, right);
    write_made(alloc, made)
}

// Returns the array of the operation's results for the numbers at each index of two arrays of equal
// length.
fn operate<T: HasPrimitiveArithmeticKernel>(
    alloc: Global,
    operation: Operation,
    left: PrimitiveArray<T>,
    right: PrimitiveArray<T>,
) -> Result<PrimitiveArray<T>, ComputeError>
    requires { length left.values ≡ length right.values }
{
    match operation {
        Operation::Add => left.wrapping_add(alloc, right),
        Operation::Sub => left.wrapping_sub(alloc, right),
        Operation::Mul => left.wrapping_mul(alloc, right),
        Operation::FloorDiv => left.wrapping_floor_div(alloc, right),
        Operation::TruncDiv => left.wrapping_trunc_div(alloc, right),
        Operation::Mod => left.wrapping_mod(alloc, right),
        Operation::LegacyDiv => left.legacy_div(alloc, right),
    }
}

/// Reads an operand and a number, applies the operation to each number of the operand and the
/// number, and returns the results as text. The error is `Word` if the number is not one of the
/// operand's type.
pub fn of_array_and_number(
    alloc: Global,
    operation: Operation,
    store: &Store,
    words: &mut Words,
) -> Result<String, Fault>
    requires { HasGoodArrays store.now }
{
    let these = read_operand(store, words)?;
    ask(alloc, Asked::OperateBy(operation, words.read()?), these)
}

/// Applies an operation to each number of the rows `part` of an array and the number that `word`
/// gives, and returns the results as text. The error is `Word` if `word` gives no number of the
/// array's type.
pub fn write_operated_by<T: HasPrimitiveArithmeticKernel + Display + FromStr<Err: Drop>>(
    alloc: Global,
    operation: Operation,
    left: &PrimitiveArray<T>,
    part: Part,
    word: &str,
) -> Result<String, Fault> {
    let right = number_of(word)?;
    let left = clone_part(alloc, left, part)?;
    let made = operate_by(alloc, operation, left, right);
    write_made(alloc, made)
}

// Returns the array of the operation's results for each number of `left` and the number `right`.
fn operate_by<T: HasPrimitiveArithmeticKernel>(
    alloc: Global,
    operation: Operation,
    left: PrimitiveArray<T>,
    right: T,
) -> Result<PrimitiveArray<T>, ComputeError> {
    match operation {
        Operation::Add => left.wrapping_add_scalar(alloc, right),
        Operation::Sub => left.wrapping_sub_scalar(alloc, right),
        Operation::Mul => left.wrapping_mul_scalar(alloc, right),
        Operation::FloorDiv => left.wrapping_floor_div_scalar(alloc, right),
        Operation::TruncDiv => left.wrapping_trunc_div_scalar(alloc, right),
        Operation::Mod => left.wrapping_mod_scalar(alloc, right),
        Operation::LegacyDiv => left.legacy_div_scalar(alloc, right),
    }
}

/// Reads a number and an operand, applies the operation to the number and each number of the
/// operand, and returns the results as text. The error is `Word` if the number is not one of the
/// operand's type, and `Case` for `Add` and `Mul`, which have no such form.
pub fn of_number_and_array(
    alloc: Global,
    operation: Operation,
    store: &Store,
    words: &mut Words,
) -> Result<String, Fault>
    requires { HasGoodArrays store.now }
{
    let word = words.read()?;
    ask_next(alloc, Asked::OperateFrom(operation, word), store, words)
}

/// Applies an operation to the number that `word` gives and each number of the rows `part` of an
/// array, and returns the results as text. The error is `Word` if `word` gives no number of the
/// array's type, and `Case` for `Add` and `Mul`, which have no such form.
pub fn write_operated_from<T: HasPrimitiveArithmeticKernel + Display + FromStr<Err: Drop>>(
    alloc: Global,
    operation: Operation,
    word: &str,
    right: &PrimitiveArray<T>,
    part: Part,
) -> Result<String, Fault> {
    let left = number_of(word)?;
    let right = clone_part(alloc, right, part)?;
    let made = operate_from(alloc, operation, left, right);
    write_made(alloc, made)
}

// Returns the array of the operation's results for the number `left` and each number of `right`.
// The error is `Unsupported` for `Add` and `Mul`, which have no such form.
fn operate_from<T: HasPrimitiveArithmeticKernel>(
    alloc: Global,
    operation: Operation,
    left: T,
    right: PrimitiveArray<T>,
) -> Result<PrimitiveArray<T>, ComputeError> {
    match operation {
        Operation::Sub => PrimitiveArray::wrapping_sub_scalar_lhs(alloc, left, right),
        Operation::FloorDiv => PrimitiveArray::wrapping_floor_div_scalar_lhs(alloc, left, right),
        Operation::TruncDiv => PrimitiveArray::wrapping_trunc_div_scalar_lhs(alloc, left, right),
        Operation::Mod => PrimitiveArray::wrapping_mod_scalar_lhs(alloc, left, right),
        Operation::LegacyDiv => PrimitiveArray::legacy_div_scalar_lhs(alloc, left, right),
        Operation::Add | Operation::Mul => {
            drop(right);
            Err(ComputeError::Unsupported)
        }
    }
}
