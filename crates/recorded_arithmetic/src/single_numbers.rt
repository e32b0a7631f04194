//! Operations on single numbers of a type of 8 to 64 bits. Results are wrapped to the type.
//!
//! - `pl_num wrapping_abs TYPE NUMBER` and `pl_num wrapping_neg TYPE NUMBER`: the function's result
//! - `pl_num wrapping_add TYPE NUMBER NUMBER`, and in the same form `wrapping_sub`, `wrapping_mul`,
//!   `wrapping_floor_div`, `wrapping_trunc_div`, `wrapping_mod` and `legacy_div`: the operation's
//!   result. The quotient and the remainder of a division by 0 are 0
//! - `wrapping_add_number TYPE NUMBER NUMBER`: the sum of two numbers, also of the types `isize`
//!   and `usize`

use crate::made::write_number;
use crate::operations::{Function, Operation};
use polars_compute_arithmetic::arithmetic::pl_num::PlNumArithmetic;
use polars_compute_reductions::sum::WrappingAdd;
use recorded_text::fault::Fault;
use recorded_text::names::find_word;
use recorded_text::words::Words;
use std::alloc::Global;
use std::fmt::Display;
use std::str::FromStr;

// A calculation with numbers of one type: a function of a number, an operation on two numbers, or
// the sum of two numbers with `WrappingAdd`.
#[derive(Clone, Copy)]
enum Asked {
    Apply(Function),
    Operate(Operation),
    Add,
}

// The functions of one number and the operations on two numbers, by name.
const CALCULATIONS: [(&str, Asked); 9] = [
    ("wrapping_abs", Asked::Apply(Function::Abs)),
    ("wrapping_neg", Asked::Apply(Function::Neg)),
    ("wrapping_add", Asked::Operate(Operation::Add)),
    ("wrapping_sub", Asked::Operate(Operation::Sub)),
    ("wrapping_mul", Asked::Operate(Operation::Mul)),
    ("wrapping_floor_div", Asked::Operate(Operation::FloorDiv)),
    ("wrapping_trunc_div", Asked::Operate(Operation::TruncDiv)),
    ("wrapping_mod", Asked::Operate(Operation::Mod)),
    ("legacy_div", Asked::Operate(Operation::LegacyDiv)),
];

/// Reads the name of a function or an operation, the name of a type and the numbers, and returns
/// the result as text. The error is `Word` if a word is missing or wrong.
pub fn calculate(alloc: Global, words: &mut Words) -> Result<String, Fault> {
    let asked = find_word(&CALCULATIONS, words.read()?)?;
    ask(alloc, asked, words.read()?, words)
}

/// Reads the name of a type and two numbers, and returns their sum as text. The error is `Word` if
/// a word is missing or wrong.
pub fn add(alloc: Global, words: &mut Words) -> Result<String, Fault> {
    match words.read()? {
        "isize" => add_two::<isize>(alloc, words),
        "usize" => add_two::<usize>(alloc, words),
        name => ask(alloc, Asked::Add, name, words),
    }
}

// Returns the result of `asked` for the numbers of the next words, as text. `name` is the name of
// their type. The error is `Word` if `name` names no type of 8 to 64 bits, or if a word is missing
// or is no number of the type.
fn ask(alloc: Global, asked: Asked, name: &str, words: &mut Words) -> Result<String, Fault> {
    match name {
        "i8" => ask_type::<i8>(alloc, asked, words),
        "i16" => ask_type::<i16>(alloc, asked, words),
        "i32" => ask_type::<i32>(alloc, asked, words),
        "i64" => ask_type::<i64>(alloc, asked, words),
        "u8" => ask_type::<u8>(alloc, asked, words),
        "u16" => ask_type::<u16>(alloc, asked, words),
        "u32" => ask_type::<u32>(alloc, asked, words),
        "u64" => ask_type::<u64>(alloc, asked, words),
        _ => Err(Fault::Word),
    }
}

// Returns the result of `asked` for the numbers of the next words, which are of the type `T`, as
// text.
fn ask_type<T: PlNumArithmetic + Display + FromStr<Err: Drop>>(
    alloc: Global,
    asked: Asked,
    words: &mut Words,
) -> Result<String, Fault> {
    match asked {
        Asked::Apply(function) => write_applied::<T>(alloc, function, words),
        Asked::Operate(operation) => write_operated::<T>(alloc, operation, words),
        Asked::Add => add_two::<T>(alloc, words),
    }
}

// Reads a number from the next word, and returns the function's result for it as text.
fn write_applied<T: PlNumArithmetic + Display + FromStr<Err: Drop>>(
    alloc: Global,
    function: Function,
    words: &mut Words,
) -> Result<String, Fault> {
    let number: T = words.read_number()?;
    write_number(alloc, apply(function, number))
}

// Returns the function's result for a number.
fn apply<T: PlNumArithmetic>(function: Function, number: T) -> T {
    match function {
        Function::Abs => PlNumArithmetic::wrapping_abs(number),
        Function::Neg => PlNumArithmetic::wrapping_neg(number),
    }
}

// Reads two numbers from the next words, and returns the operation's result for them as text.
fn write_operated<T: PlNumArithmetic + Display + FromStr<Err: Drop>>(
    alloc: Global,
    operation: Operation,
    words: &mut Words,
) -> Result<String, Fault> {
    let (left, right): (T, T) = (words.read_number()?, words.read_number()?);
    write_number(alloc, operate(operation, left, right))
}

// Returns the operation's result for two numbers.
fn operate<T: PlNumArithmetic>(operation: Operation, left: T, right: T) -> T {
    match operation {
        Operation::Add => PlNumArithmetic::wrapping_add(left, right),
        Operation::Sub => PlNumArithmetic::wrapping_sub(left, right),
        Operation::Mul => PlNumArithmetic::wrapping_mul(left, right),
        Operation::FloorDiv => PlNumArithmetic::wrapping_floor_div(left, right),
        Operation::TruncDiv => PlNumArithmetic::wrapping_trunc_div(left, right),
        Operation::Mod => PlNumArithmetic::wrapping_mod(left, right),
        Operation::LegacyDiv => PlNumArithmetic::legacy_div(left, right),
    }
}

// Reads two numbers from the next words, and returns their sum as text.
fn add_two<T: WrappingAdd + Copy + Display + FromStr<Err: Drop>>(
    alloc: Global,
    words: &mut Words,
) -> Result<String, Fault> {
    let (left, right): (T, T) = (words.read_number()?, words.read_number()?);
    write_number(alloc, WrappingAdd::wrapping_add(&left, &right))
}
