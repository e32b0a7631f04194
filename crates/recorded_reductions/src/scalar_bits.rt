//! Calls that join two scalars of the same type bit by bit.
//!
//! - `bit_and TYPE NUMBER NUMBER`, and `bit_or` and `bit_xor` with the same operands: a number.
//!   TYPE is `i8`, `i16`, `i32`, `i64`, `u8`, `u16`, `u32` or `u64`
//! - `bit_and bool TRUTH TRUTH`, and `bit_or` and `bit_xor` with the same operands: a truth value

use crate::calls::Join;
use polars_arrays_flat::boolean::BooleanArray;
use polars_arrays_flat::primitive::PrimitiveArray;
use polars_compute_reductions::bitwise::BitwiseKernel;
use recorded_text::fault::Fault;
use recorded_text::words::Words;
use std::fmt::Display;
use std::str::FromStr;

/// Reads a type and two scalars of this type from `words`, joins them by the operator `join`, and
/// appends the result to `text`. The error is `Word` if there is no such type or a scalar cannot be
/// read, or else `Memory`.
pub fn push_answer(text: &mut String, join: Join, words: &mut Words) -> Result<(), Fault> {
    match words.read()? {
        "bool" => push_joined::<BooleanArray>(text, join, words),
        "i8" => push_joined::<PrimitiveArray<i8>>(text, join, words),
        "i16" => push_joined::<PrimitiveArray<i16>>(text, join, words),
        "i32" => push_joined::<PrimitiveArray<i32>>(text, join, words),
        "i64" => push_joined::<PrimitiveArray<i64>>(text, join, words),
        "u8" => push_joined::<PrimitiveArray<u8>>(text, join, words),
        "u16" => push_joined::<PrimitiveArray<u16>>(text, join, words),
        "u32" => push_joined::<PrimitiveArray<u32>>(text, join, words),
        "u64" => push_joined::<PrimitiveArray<u64>>(text, join, words),
        _ => Err(Fault::Word),
    }
}

// Reads two scalars from `words`, joins them by the operator `join`, and appends the result to
// `text`. The error is `Word` if a scalar cannot be read, or else `Memory`.
fn push_joined<K: BitwiseKernel<Scalar: Copy + Display + FromStr<Err: Drop>>>(
    text: &mut String,
    join: Join,
    words: &mut Words,
) -> Result<(), Fault> {
    let left: K::Scalar = words.read_number()?;
    let right: K::Scalar = words.read_number()?;
    let joined = join_scalars::<K>(join, left, right);
    write!(text, "{joined}").map_err(Fault::from)
}

// Returns `left` and `right` joined bit by bit by the operator `join`.
fn join_scalars<K: BitwiseKernel>(join: Join, left: K::Scalar, right: K::Scalar) -> K::Scalar {
    match join {
        Join::And => K::bit_and(left, right),
        Join::Or => K::bit_or(left, right),
        Join::Xor => K::bit_xor(left, right),
    }
}
