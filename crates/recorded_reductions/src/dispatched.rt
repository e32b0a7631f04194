//! Calls for the extremes of an array of any kind. A result is `none` if no row is present, or
//! `refused: not supported` if the kind of the array has no extremes. Otherwise:
//!
//! - `dyn_array_min_ignore_nan A`, `dyn_array_max_ignore_nan A`, `dyn_array_min_propagate_nan A`,
//!   `dyn_array_max_propagate_nan A`: the name of the array's kind, and the least or the greatest
//!   present row
//! - `dyn_array_min_max_propagate_nan A`: the name of the kind and the least present row, then the
//!   name again and the greatest present row

use crate::calls::Extremes;
use crate::found_text::push_none;
use polars_arrays_bits::error::ComputeError;
use polars_arrays_nested::any_array::AnyArray;
use polars_compare_extremes::dispatch::{
    dyn_array_max_ignore_nan, dyn_array_max_propagate_nan, dyn_array_min_ignore_nan,
    dyn_array_min_max_propagate_nan, dyn_array_min_propagate_nan,
};
use polars_compare_extremes::scalar::AnyScalar;
use recorded_text::bytes_text::push_bytes;
use recorded_text::fault::Fault;
use std::fmt::Display;

/// Appends the extremes of `array` that `asked` selects to `text`. Fails with `Word` if `asked` is
/// `MinMaxIgnore`, for which the module `dispatch` has no function, and with `Memory` if an
/// allocation fails.
pub fn push_answer(text: &mut String, asked: Extremes, array: &AnyArray) -> Result<(), Fault> {
    match asked {
        Extremes::MinIgnore => push_extreme(text, dyn_array_min_ignore_nan(array)),
        Extremes::MaxIgnore => push_extreme(text, dyn_array_max_ignore_nan(array)),
        Extremes::MinMaxIgnore => Err(Fault::Word),
        Extremes::MinPropagate => push_extreme(text, dyn_array_min_propagate_nan(array)),
        Extremes::MaxPropagate => push_extreme(text, dyn_array_max_propagate_nan(array)),
        Extremes::MinMaxPropagate => push_both(text, dyn_array_min_max_propagate_nan(array)),
    }
}

// Appends the row in `answer` and its kind to `text`, or `none` if no row is present. If `answer`
// is an error, appends `refused:` and the error, or returns `Memory` if an allocation failed.
fn push_extreme(
    text: &mut String,
    answer: Result<Option<AnyScalar<'_>>, ComputeError>,
) -> Result<(), Fault> {
    match answer {
        Ok(Some(scalar)) => push_scalar(text, scalar),
        Ok(None) => push_none(text),
        Err(refused) => push_refusal(text, refused),
    }
}

// Appends the two rows in `answer`, each after its kind, to `text`, or `none` if no row is present.
// If `answer` is an error, appends `refused:` and the error, or returns `Memory` if an allocation
// failed.
fn push_both(
    text: &mut String,
    answer: Result<Option<(AnyScalar<'_>, AnyScalar<'_>)>, ComputeError>,
) -> Result<(), Fault> {
    match answer {
        Ok(Some((least, greatest))) => push_two(text, least, greatest),
        Ok(None) => push_none(text),
        Err(refused) => push_refusal(text, refused),
    }
}

// Appends `refused:` and the error `refused` to `text`. If the error is a failed allocation,
// appends nothing and returns `Memory`.
fn push_refusal(text: &mut String, refused: ComputeError) -> Result<(), Fault> {
    match refused {
        ComputeError::Memory(_) => Err(Fault::Memory),
        refused => write!(text, "refused: {refused}").map_err(Fault::from),
    }
}

// Appends `least` and `greatest`, each after the name of its kind, to `text`, separated by a space.
fn push_two(text: &mut String, least: AnyScalar<'_>, greatest: AnyScalar<'_>) -> Result<(), Fault> {
    push_scalar(text, least)?;
    text.push(' ')?;
    push_scalar(text, greatest)
}

// Appends the name of a scalar's kind, a space, and the scalar.
fn push_scalar(text: &mut String, scalar: AnyScalar<'_>) -> Result<(), Fault> {
    match scalar {
        AnyScalar::Boolean(truth) => push_plain(text, "bool ", truth),
        AnyScalar::Int8(number) => push_plain(text, "i8 ", number),
        AnyScalar::Int16(number) => push_plain(text, "i16 ", number),
        AnyScalar::Int32(number) => push_plain(text, "i32 ", number),
        AnyScalar::Int64(number) => push_plain(text, "i64 ", number),
        AnyScalar::Int128(number) => push_plain(text, "i128 ", number),
        AnyScalar::UInt8(number) => push_plain(text, "u8 ", number),
        AnyScalar::UInt16(number) => push_plain(text, "u16 ", number),
        AnyScalar::UInt32(number) => push_plain(text, "u32 ", number),
        AnyScalar::UInt64(number) => push_plain(text, "u64 ", number),
        AnyScalar::UInt128(number) => push_plain(text, "u128 ", number),
        AnyScalar::Binary(bytes) => push_string(text, "binary ", bytes),
        AnyScalar::LargeBinary(bytes) => push_string(text, "largebinary ", bytes),
        AnyScalar::Utf8(found) => push_string(text, "utf8 ", found.as_bytes()),
        AnyScalar::LargeUtf8(found) => push_string(text, "largeutf8 ", found.as_bytes()),
        AnyScalar::BinaryView(bytes) => push_string(text, "binaryview ", bytes),
        AnyScalar::Utf8View(found) => push_string(text, "utf8view ", found.as_bytes()),
    }
}

// Appends `name` and a number or a truth value to `text`.
fn push_plain<T: Copy + Display>(text: &mut String, name: &str, scalar: T) -> Result<(), Fault> {
    write!(text, "{name}{scalar}").map_err(Fault::from)
}

// Appends `name` and a byte string to `text`, the string as `x` and two hexadecimal digits for each
// byte.
fn push_string(text: &mut String, name: &str, bytes: &[u8]) -> Result<(), Fault> {
    text.push_str(name)?;
    push_bytes(text, bytes)
}
