//! Calls that count the bits of each row, or reduce the bits of all rows. Rows are truth values or
//! numbers of 8 to 64 bits.
//!
//! - `count_ones A`, `count_zeros A`, `leading_ones A`, `leading_zeros A`, `trailing_ones A`,
//!   `trailing_zeros A`: the count of each row, or `null` for a null row, separated by spaces
//! - `reduce_and A`, `reduce_or A`, `reduce_xor A`: a number or a truth value, or `none` if no row
//!   is present

use crate::calls::{BitQuestion, Count, Join};
use crate::found_text::push_found;
use crate::kinds::of_kind;
use polars_arrays_bits::error::ComputeError;
use polars_arrays_flat::array::Array;
use polars_arrays_flat::primitive::PrimitiveArray;
use polars_arrays_nested::any_array::AnyArray;
use polars_compute_reductions::bitwise::BitwiseKernel;
use recorded_text::bits_text::is_null;
use recorded_text::fault::Fault;
use std::alloc::Global;
use std::fmt::Display;

/// Appends the result of `question` for the rows of `array` to `text`. The error is `Case` if the
/// rows are neither truth values nor numbers of 8 to 64 bits, or else `Memory`.
pub fn push_answer(
    alloc: Global,
    text: &mut String,
    question: BitQuestion,
    array: &AnyArray,
) -> Result<(), Fault> {
    of_kind!(array, rows => push_of_rows(alloc, text, question, rows),
        Boolean Int8 Int16 Int32 Int64 UInt8 UInt16 UInt32 UInt64)
}

// Appends the result of `question` for `rows` to `text`.
fn push_of_rows<K: BitwiseKernel<Scalar: Copy + Display>>(
    alloc: Global,
    text: &mut String,
    question: BitQuestion,
    rows: &K,
) -> Result<(), Fault> {
    match question {
        BitQuestion::Count(count) => push_made(text, count_each(alloc, count, rows)),
        BitQuestion::Reduce(join) => push_found(text, reduced(join, rows)),
    }
}

// Returns the count `count` for each of `rows`. Null rows stay null. The error is `Memory`.
fn count_each<K: BitwiseKernel>(
    alloc: Global,
    count: Count,
    rows: &K,
) -> Result<PrimitiveArray<u32>, ComputeError> {
    match count {
        Count::Ones => rows.count_ones(alloc),
        Count::Zeros => rows.count_zeros(alloc),
        Count::LeadingOnes => rows.leading_ones(alloc),
        Count::LeadingZeros => rows.leading_zeros(alloc),
        Count::TrailingOnes => rows.trailing_ones(alloc),
        Count::TrailingZeros => rows.trailing_zeros(alloc),
    }
}

// Appends the counts in `made` to `text`, and drops the array. If `made` is an error, returns
// `Memory` for a failed allocation, or else `Case`.
fn push_made(
    text: &mut String,
    made: Result<PrimitiveArray<u32>, ComputeError>,
) -> Result<(), Fault> {
    push_counts(text, &made?)
}

// Appends each count, or `null` for a null row, to `text`, separated by spaces.
fn push_counts(text: &mut String, counts: &PrimitiveArray<u32>) -> Result<(), Fault> {
    for (i, count) in counts.values().iter().enumerate() {
        let space = if i > 0 { " " } else { "" };
        let pushed = if is_null(counts.validity(), i) {
            write!(text, "{space}null")
        } else {
            write!(text, "{space}{count}")
        };
        pushed?;
    }
    Ok(())
}

// Returns the present ones of `rows` joined by the operator `join`, or `None` if no row is present.
fn reduced<K: BitwiseKernel>(join: Join, rows: &K) -> Option<K::Scalar> {
    match join {
        Join::And => rows.reduce_and(),
        Join::Or => rows.reduce_or(),
        Join::Xor => rows.reduce_xor(),
    }
}
