//! Calls for the extremes of arrays of one kind, and of slices of numbers. A call with `min` or
//! `max` in its name returns the least or the greatest, and one with `min_max` both. The result is
//! `none` if no row is present, or if a slice is empty. No row is a NaN, so each call with
//! `propagate_nan` in its name returns the same as the one with `ignore_nan`.
//!
//! - `min_ignore_nan_kernel A`, and in the same form with `max` or `min_max`: of the present rows
//!   of an array of numbers or truth values
//! - `slice_min_ignore_nan_kernel A`, and so on: of the stored numbers of A, including those of
//!   null rows
//! - `bytes_min_ignore_nan_kernel A`, and so on: of the present rows of an array of byte strings
//!   that may differ in length
//! - `text_min_ignore_nan_kernel A`, and so on: of the present rows of an array of texts, which are
//!   compared as bytes

ghost use Rattle.polars_arrays_nested.specs.GoodParts.{IsGood};

use crate::calls::{Extremes, Subject};
use crate::found_text::{push_found, push_pair, push_string, push_strings, push_text, push_texts};
use crate::kinds::of_kind;
use polars_arrays_nested::any_array::AnyArray;
use polars_compare_extremes::borrowed::{BytesMinMaxKernel, TextMinMaxKernel};
use polars_compare_extremes::kernel::MinMaxKernel;
use recorded_text::fault::Fault;
use std::fmt::Display;

/// Appends the extremes of `array` that `asked` selects to `text`. `subject` says which rows or
/// numbers are compared. The error is `Case` if `array` is not of a kind that `subject` allows, or
/// else `Memory`.
pub fn push_answer(
    text: &mut String,
    subject: Subject,
    asked: Extremes,
    array: &AnyArray,
) -> Result<(), Fault>
    requires { IsGood array.now }
{
    match subject {
        Subject::Rows => push_of_rows(text, asked, array),
        Subject::Stored => push_of_stored(text, asked, array),
        Subject::Bytes => push_of_bytes(text, asked, array),
        Subject::Texts => push_of_texts(text, asked, array),
    }
}

// Appends the extremes of the present rows of `array`, which must hold numbers or truth values. The
// error is `Case` if it does not, or else `Memory`.
fn push_of_rows(text: &mut String, asked: Extremes, array: &AnyArray) -> Result<(), Fault> {
    of_kind!(array, rows => push_extremes(text, asked, rows),
        Boolean Int8 Int16 Int32 Int64 Int128 UInt8 UInt16 UInt32 UInt64 UInt128)
}

// Appends the extremes of all stored numbers of `array`, also those of null rows. The error is
// `Case` if it does not hold numbers, or else `Memory`.
fn push_of_stored(text: &mut String, asked: Extremes, array: &AnyArray) -> Result<(), Fault> {
    of_kind!(array, rows => push_extremes(text, asked, &rows.values()),
        Int8 Int16 Int32 Int64 Int128 UInt8 UInt16 UInt32 UInt64 UInt128)
}

// Appends the extremes of `rows` that `asked` selects to `text`. The rows are numbers or truth
// values.
fn push_extremes<K: MinMaxKernel<Scalar: Display>>(
    text: &mut String,
    asked: Extremes,
    rows: &K,
) -> Result<(), Fault> {
    match asked {
        Extremes::MinIgnore => push_found(text, rows.min_ignore_nan_kernel()),
        Extremes::MaxIgnore => push_found(text, rows.max_ignore_nan_kernel()),
        Extremes::MinMaxIgnore => push_pair(text, rows.min_max_ignore_nan_kernel()),
        Extremes::MinPropagate => push_found(text, rows.min_propagate_nan_kernel()),
        Extremes::MaxPropagate => push_found(text, rows.max_propagate_nan_kernel()),
        Extremes::MinMaxPropagate => push_pair(text, rows.min_max_propagate_nan_kernel()),
    }
}

// Appends the extremes of the present rows of `array`, which must hold byte strings and not be a
// `FixedSizeBinary` array. The error is `Case` if it is of another kind, or else `Memory`.
fn push_of_bytes(text: &mut String, asked: Extremes, array: &AnyArray) -> Result<(), Fault>
    requires { IsGood array.now }
{
    of_kind!(array, rows => push_byte_extremes(text, asked, rows), Binary LargeBinary BinaryView)
}

// Appends the extremes of `rows` that `asked` selects to `text`. The rows are byte strings.
fn push_byte_extremes<K: BytesMinMaxKernel>(
    text: &mut String,
    asked: Extremes,
    rows: &K,
) -> Result<(), Fault> {
    match asked {
        Extremes::MinIgnore => push_string(text, rows.min_ignore_nan_kernel()),
        Extremes::MaxIgnore => push_string(text, rows.max_ignore_nan_kernel()),
        Extremes::MinMaxIgnore => push_strings(text, rows.min_max_ignore_nan_kernel()),
        Extremes::MinPropagate => push_string(text, rows.min_propagate_nan_kernel()),
        Extremes::MaxPropagate => push_string(text, rows.max_propagate_nan_kernel()),
        Extremes::MinMaxPropagate => push_strings(text, rows.min_max_propagate_nan_kernel()),
    }
}

// Appends the extremes of the present rows of `array`, which must hold texts. The error is `Case`
// if it does not, or else `Memory`.
fn push_of_texts(text: &mut String, asked: Extremes, array: &AnyArray) -> Result<(), Fault>
    requires { IsGood array.now }
{
    of_kind!(array, rows => push_text_extremes(text, asked, rows), Utf8 LargeUtf8 Utf8View)
}

// Appends the extremes of `rows` that `asked` selects to `text`. The rows are texts.
fn push_text_extremes<K: TextMinMaxKernel>(
    text: &mut String,
    asked: Extremes,
    rows: &K,
) -> Result<(), Fault> {
    match asked {
        Extremes::MinIgnore => push_text(text, rows.min_ignore_nan_kernel()),
        Extremes::MaxIgnore => push_text(text, rows.max_ignore_nan_kernel()),
        Extremes::MinMaxIgnore => push_texts(text, rows.min_max_ignore_nan_kernel()),
        Extremes::MinPropagate => push_text(text, rows.min_propagate_nan_kernel()),
        Extremes::MaxPropagate => push_text(text, rows.max_propagate_nan_kernel()),
        Extremes::MinMaxPropagate => push_texts(text, rows.min_max_propagate_nan_kernel()),
    }
}
