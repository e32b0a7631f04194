//! Wrapping sums of numbers of a type of 8 to 64 bits.
//!
//! - `wrapping_sum_arr A`: the sum of the present rows of an array
//! - `wrapping_sum A`: the sum of the stored values, also those of null rows
//! - `wrapping_sum_with_validity A BITS`: the sum of the stored values, except those whose bit in
//!   BITS is 0

ghost use Rattle.recorded_text.specs.Cases.{HasGoodArrays};

use crate::made::write_number;
use crate::numbers::{Asked, ask};
use crate::operands::{Part, clone_part, read_operand};
use polars_arrays_bits::bit_mask::BitMask;
use polars_arrays_bits::bitmap::Bitmap;
use polars_arrays_flat::primitive::PrimitiveArray;
use polars_compute_reductions::sum::{WrappingSum, wrapping_sum_arr};
use recorded_text::fault::Fault;
use recorded_text::parts::read_bits;
use recorded_text::store::Store;
use recorded_text::words::Words;
use std::alloc::Global;
use std::fmt::Display;

/// Reads an operand and bits from the next words. Returns as text the sum of the operand's stored
/// values, except those whose bit is 0. The error is `Case` if the number of bits is not the number
/// of rows of the operand.
pub fn of_masked_values(alloc: Global, store: &Store, words: &mut Words) -> Result<String, Fault>
    requires { HasGoodArrays store.now }
{
    let these = read_operand(store, words)?;
    let bits = read_bits(alloc, words.read()?)?;
    let text = ask(alloc, Asked::SumMasked(&bits), these);
    drop(bits);
    text
}

/// Returns the sum of the present rows among the rows `part` of an array, as text.
pub fn add_rows<T: WrappingSum + Display>(
    alloc: Global,
    array: &PrimitiveArray<T>,
    part: Part,
) -> Result<String, Fault> {
    let array = clone_part(alloc, array, part)?;
    let sum = wrapping_sum_arr(&array);
    drop(array);
    write_number(alloc, sum)
}

/// Returns the sum of the stored values of the rows `part` of an array, as text.
pub fn add_values<T: WrappingSum + Display>(
    alloc: Global,
    array: &PrimitiveArray<T>,
    part: Part,
) -> Result<String, Fault> {
    let array = clone_part(alloc, array, part)?;
    let sum = T::wrapping_sum(array.values());
    drop(array);
    write_number(alloc, sum)
}

/// Returns as text the sum of the stored values of the rows `part` of an array, except those whose
/// bit in `bits` is 0. The error is `Case` if the number of bits is not the number of rows of the
/// part.
pub fn add_masked<T: WrappingSum + Display>(
    alloc: Global,
    array: &PrimitiveArray<T>,
    part: Part,
    bits: &Bitmap,
) -> Result<String, Fault> {
    let array = clone_part(alloc, array, part)?;
    let text = add_where_set(alloc, array.values(), bits);
    drop(array);
    text
}

// Returns as text the sum of `values`, except those whose bit in `bits` is 0. The error is `Case`
// if the number of bits is not the number of values.
fn add_where_set<T: WrappingSum + Display>(
    alloc: Global,
    values: &[T],
    bits: &Bitmap,
) -> Result<String, Fault> {
    let mask = BitMask::from_bitmap(bits);
    if mask.len() != values.len() {
        return Err(Fault::Case);
    }
    write_number(alloc, T::wrapping_sum_with_validity(values, &mask))
}
