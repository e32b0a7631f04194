//! Functions applied to the stored values of arrays, also those of null rows.
//!
//! Each item below gives a call. Its result is the array of the function's results, as text. A row
//! of this array is null if the row of an operand at the same index is null.
//!
//! - `prim_unary_values FUNCTION A`: for the values of an array; FUNCTION is `doubled`, `widened`,
//!   `negated` or `is_zero`
//! - `prim_unary_in_place FUNCTION A`: for the values of an array of numbers of 8 to 64 bits;
//!   FUNCTION is `next` or `square`
//! - `prim_binary_values FUNCTION A B`: for the values at each index of two arrays of equal length;
//!   FUNCTION is `joined`, `product` or `is_less`
//! - `prim_binary_in_place FUNCTION A B`: for the values at each index of two arrays of one type
//!   and length; FUNCTION is `left`, `right` or `greater`

ghost use Rattle.recorded_text.specs.Cases.{HasGoodArrays};

use crate::made::write_made;
use crate::numbers::{Asked, AskedBoth, ask, ask_both};
use crate::operands::{Operand, Part, clone_part, clone_parts, read_operand};
use polars_arrays_flat::primitive::PrimitiveArray;
use polars_arrays_nested::any_array::AnyArray;
use polars_arrays_numbers::native_type::NativeType;
use polars_compute_arithmetic::arithmetic::pl_num::PlNumArithmetic;
use polars_compute_arithmetic::arity::{
    prim_binary_in_place, prim_binary_values, prim_unary_in_place, prim_unary_values,
};
use recorded_text::fault::Fault;
use recorded_text::store::Store;
use recorded_text::words::Words;
use std::alloc::Global;
use std::fmt::Display;

/// Reads the name of a function and an operand, and returns the function's results for the values
/// of the operand, as text: `doubled` for `u8`, `widened` (to `i128`) for `i32`, `negated` for
/// `i64`, and `is_zero` (1 or 0) for `u64`. The error is `Case` for any other function or type.
pub fn unary_values(alloc: Global, store: &Store, words: &mut Words) -> Result<String, Fault>
    requires { HasGoodArrays store.now }
{
    let function = words.read()?;
    let these = read_operand(store, words)?;
    let part = these.part;
    match (function, these.array) {
        ("doubled", AnyArray::UInt8(a)) => write_mapped(alloc, a, part, |x| u16::from(x) * 2),
        ("widened", AnyArray::Int32(a)) => write_mapped(alloc, a, part, |x| i128::from(x)),
        ("negated", AnyArray::Int64(a)) => {
            write_mapped(alloc, a, part, |x| PlNumArithmetic::wrapping_neg(x))
        }
        ("is_zero", AnyArray::UInt64(a)) => write_mapped(alloc, a, part, |x| i8::from(x == 0)),
        _ => Err(Fault::Case),
    }
}

// Returns the results of `op` for the values of the rows `part` of an array, as text.
fn write_mapped<I: NativeType, O: NativeType + Display, F: Fn(I) -> O>(
    alloc: Global,
    array: &PrimitiveArray<I>,
    part: Part,
    op: F,
) -> Result<String, Fault>
    requires { F.IsAlwaysCallable op }
{
    let array = clone_part(alloc, array, part)?;
    let made = prim_unary_values(alloc, array, op);
    write_made(alloc, made)
}

/// Reads the name of a function and two operands, and returns the function's results for the values
/// at each index, as text: `joined` (256 times the left value plus the right one) for two `u8`,
/// `product` for `i8` and `i16`, and `is_less` (1 or 0) for `i64` and `u32`. The error is `Case`
/// for any other function or types, or if the lengths differ.
pub fn binary_values(alloc: Global, store: &Store, words: &mut Words) -> Result<String, Fault>
    requires { HasGoodArrays store.now }
{
    let function = words.read()?;
    let these = read_operand(store, words)?;
    let those = read_operand(store, words)?;
    let parts = (these.part, those.part);
    match (function, these.array, those.array) {
        ("joined", AnyArray::UInt8(a), AnyArray::UInt8(b)) => {
            write_pairs(alloc, a, b, parts, |x, y| u16::from(x) * 256 + u16::from(y))
        }
        ("product", AnyArray::Int8(a), AnyArray::Int16(b)) => {
            write_pairs(
                alloc,
                a,
                b,
                parts,
                |x, y| i32::from(x).wrapping_mul(i32::from(y)),
            )
        }
        ("is_less", AnyArray::Int64(a), AnyArray::UInt32(b)) => {
            write_pairs(alloc, a, b, parts, |x, y| u8::from(x < i64::from(y)))
        }
        _ => Err(Fault::Case),
    }
}

// Returns the results of `op` for the values at each index of parts of two arrays, as text. The
// first part is of `left`, the second of `right`. The error is `Case` if the parts differ in
// length.
fn write_pairs<L: NativeType, R: NativeType, O: NativeType + Display, F: Fn(L, R) -> O>(
    alloc: Global,
    left: &PrimitiveArray<L>,
    right: &PrimitiveArray<R>,
    parts: (Part, Part),
    op: F,
) -> Result<String, Fault>
    requires { F.IsAlwaysCallable op }
{
    let (left, right) = clone_parts(alloc, left, right, parts)?;
    let made = prim_binary_values(alloc, left, right, op);
    write_made(alloc, made)
}

/// A function of a value. The result has the value's type, and is wrapped to it.
#[derive(Clone, Copy)]
pub enum Change {
    /// The value plus 1.
    Next,
    /// The square of the value.
    Square,
}

impl Change {
    // Returns the function with this name, or `None` if there is none.
    fn named(name: &str) -> Option<Change> {
        match name {
            "next" => Some(Change::Next),
            "square" => Some(Change::Square),
            _ => None,
        }
    }

    // Applies the function to a value.
    fn apply<T: PlNumArithmetic>(self, x: T) -> T {
        match self {
            Change::Next => PlNumArithmetic::wrapping_add(x, T::one()),
            Change::Square => PlNumArithmetic::wrapping_mul(x, x),
        }
    }
}

/// Reads the name of a `Change` and an operand, applies the function to a clone of the operand with
/// `prim_unary_in_place`, and returns the rows of the result as text. The error is `Case` if no
/// function has the name.
pub fn unary_in_place(alloc: Global, store: &Store, words: &mut Words) -> Result<String, Fault>
    requires { HasGoodArrays store.now }
{
    let change = Change::named(words.read()?);
    let these = read_operand(store, words)?;
    match change {
        Some(change) => ask(alloc, Asked::Change(change), these),
        None => Err(Fault::Case),
    }
}

/// Applies `change` to a clone of the rows `part` of an array with `prim_unary_in_place`, and
/// returns the rows of the result as text.
pub fn write_changed<T: PlNumArithmetic + Display>(
    alloc: Global,
    change: Change,
    array: &PrimitiveArray<T>,
    part: Part,
) -> Result<String, Fault> {
    let array = clone_part(alloc, array, part)?;
    let made = prim_unary_in_place(alloc, array, |x| change.apply(x));
    write_made(alloc, made)
}

/// A choice between a left and a right value.
#[derive(Clone, Copy)]
pub enum Choice {
    /// The left one.
    Left,
    /// The right one.
    Right,
    /// The greater one.
    Greater,
}

impl Choice {
    // Returns the choice with this name, or `None` if there is none.
    fn named(name: &str) -> Option<Choice> {
        match name {
            "left" => Some(Choice::Left),
            "right" => Some(Choice::Right),
            "greater" => Some(Choice::Greater),
            _ => None,
        }
    }

    // Returns the chosen one of the left value `x` and the right value `y`.
    fn apply<T: NativeType>(self, x: T, y: T) -> T {
        match self {
            Choice::Left => x,
            Choice::Right => y,
            Choice::Greater => if x < y { y } else { x },
        }
    }
}

/// Reads the name of a `Choice` and two operands, chooses a value at each index with
/// `prim_binary_in_place`, and returns the rows of the result as text. The error is `Case` if no
/// choice has the name, or if the operands differ in type or length.
pub fn binary_in_place(alloc: Global, store: &Store, words: &mut Words) -> Result<String, Fault>
    requires { HasGoodArrays store.now }
{
    let choice = Choice::named(words.read()?);
    let these = read_operand(store, words)?;
    let those = read_operand(store, words)?;
    match choice {
        Some(choice) => choose(alloc, choice, these, those),
        None => Err(Fault::Case),
    }
}

// Chooses a value at each index of two operands of one type of 8 to 128 bits, and returns the rows
// of the result as text. The error is `Case` if the operands are not of one such type or differ in
// length.
fn choose(
    alloc: Global,
    choice: Choice,
    these: Operand<'_>,
    those: Operand<'_>,
) -> Result<String, Fault> {
    let parts = (these.part, those.part);
    match these.array {
        AnyArray::Int128(left) => match those.array {
            AnyArray::Int128(right) => write_chosen(alloc, choice, left, right, parts),
            _ => Err(Fault::Case),
        },
        AnyArray::UInt128(left) => match those.array {
            AnyArray::UInt128(right) => write_chosen(alloc, choice, left, right, parts),
            _ => Err(Fault::Case),
        },
        _ => ask_both(alloc, AskedBoth::Choose(choice), these, those),
    }
}

/// Chooses a value at each index of parts of two arrays with `prim_binary_in_place`, and returns
/// the rows of the result as text. The first part is of `left`, the second of `right`. The error is
/// `Case` if the parts differ in length.
pub fn write_chosen<T: NativeType + Display>(
    alloc: Global,
    choice: Choice,
    left: &PrimitiveArray<T>,
    right: &PrimitiveArray<T>,
    parts: (Part, Part),
) -> Result<String, Fault> {
    let (left, right) = clone_parts(alloc, left, right, parts)?;
    let made = prim_binary_in_place(alloc, left, right, |x, y| choice.apply(x, y));
    write_made(alloc, made)
}
