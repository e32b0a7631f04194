//! Sums, reductions and extremes of an array of numbers, and counts of its bits.

use crate::arithmetic::{NO_NUMBER, row_of};
use crate::operands::{NumberType, both, number_array, windows};
use crate::{Timed, repeat};
use num_traits::AsPrimitive;
use polars_arrays_bits::bitmap::Bitmap;
use polars_arrays_bits::error::ComputeError;
use polars_arrays_flat::primitive::PrimitiveArray;
use polars_arrays_numbers::native_type::NativeType;
use polars_compare_extremes::kernel::MinMaxKernel;
use polars_compute_reductions::bit_number::BitNumber;
use polars_compute_reductions::bitwise::BitwiseKernel;
use polars_compute_reductions::sum::{WrappingSum, wrapping_sum_arr};
use std::alloc::Global;

/// A kernel on one array of numbers.
#[derive(Clone, Copy)]
pub(crate) enum ReductionKernel {
    Sum,
    ReduceAnd,
    ReduceOr,
    ReduceXor,
    Min,
    Max,
    MinMax,
    CountOnes,
    LeadingZeros,
    TrailingZeros,
}

impl<T: BitNumber + WrappingSum + AsPrimitive<u64>> Timed for PrimitiveArray<T> {
    type Kernel = ReductionKernel;

    #[inline(always)]
    fn run(&self, alloc: Global, kernel: ReductionKernel, i: usize) -> u64 {
        match kernel {
            ReductionKernel::Sum => wrapping_sum_arr(self).as_(),
            ReductionKernel::ReduceAnd => number_of(self.reduce_and()),
            ReductionKernel::ReduceOr => number_of(self.reduce_or()),
            ReductionKernel::ReduceXor => number_of(self.reduce_xor()),
            ReductionKernel::Min => number_of(self.min_ignore_nan_kernel()),
            ReductionKernel::Max => number_of(self.max_ignore_nan_kernel()),
            ReductionKernel::MinMax => pair_of(self.min_max_ignore_nan_kernel()),
            ReductionKernel::CountOnes => count_of(self.count_ones(alloc), i),
            ReductionKernel::LeadingZeros => count_of(self.leading_zeros(alloc), i),
            ReductionKernel::TrailingZeros => count_of(self.trailing_zeros(alloc), i),
        }
    }
}

// Returns the number `found`, converted to `u64`, or `NO_NUMBER` if there is none.
#[inline(always)]
fn number_of<T: NativeType + AsPrimitive<u64>>(found: Option<T>) -> u64 {
    match found {
        Some(number) => number.as_(),
        None => NO_NUMBER,
    }
}

// Returns one number computed from both numbers of `found`, or `NO_NUMBER` if there are none.
#[inline(always)]
fn pair_of<T: NativeType + AsPrimitive<u64>>(found: Option<(T, T)>) -> u64 {
    match found {
        Some((least, greatest)) => {
            let least: u64 = least.as_();
            least.wrapping_mul(31).wrapping_add(greatest.as_())
        }
        None => NO_NUMBER,
    }
}

// Returns the count in row `i` of `made`. Returns `NO_NUMBER` if this row is null or does not
// exist, or if `made` is an error.
#[inline(always)]
fn count_of(made: Result<PrimitiveArray<u32>, ComputeError>, i: usize) -> u64 {
    match made {
        Ok(counts) => row_of(&counts, i),
        Err(_) => NO_NUMBER,
    }
}

// Runs the kernel with the number `kernel` `repeats` times, on the two arrays in turn, and returns
// the checksum, or 0 if there is no such kernel.
fn time_clones<T: BitNumber + WrappingSum + AsPrimitive<u64>>(
    alloc: Global,
    arrays: (&PrimitiveArray<T>, &PrimitiveArray<T>),
    kernel: u32,
    repeats: usize,
) -> u64 {
    by_number!(
        kernel,
        ReductionKernel: Sum ReduceAnd ReduceOr ReduceXor Min Max MinMax CountOnes LeadingZeros
            TrailingZeros,
        |chosen| repeat(alloc, chosen, arrays, repeats),
        0
    )
}

// Creates a bitmap of the `len` bits of a copy of `words` from bit `at` on. Returns `Ok(None)` if
// `words` is empty. Otherwise, the error is `Unsupported` if `words` has fewer than 64 bits after
// the bitmap's last one, since `windows` also creates a bitmap that begins 64 bits later. Any other
// error is `Memory`.
pub(crate) fn validity_from(
    alloc: Global,
    words: &[u64],
    at: usize,
    len: usize,
) -> Result<Option<Bitmap>, ComputeError> {
    if words.is_empty() {
        return Ok(None);
    }
    let (validity, _) = windows(alloc, words, at, len)?;
    Ok(Some(validity))
}

// Creates an array of `values`, converted to `T`, and a clone of it. The validity begins at bit
// `shift` of `validities`. If this slice is empty, the array has no validity. The error is
// `Unsupported` if `validities` is not empty and too short. Any other error is `Memory`.
fn array_and_clone<T: NativeType>(
    alloc: Global,
    values: &[i64],
    validities: &[u64],
    shift: usize,
) -> Result<(PrimitiveArray<T>, PrimitiveArray<T>), ComputeError>
where
    i64: AsPrimitive<T>,
{
    let validity = validity_from(alloc, validities, shift, values.len())?;
    let array = number_array::<i64, T>(alloc, values, validity)?;
    let clone = array.clone_array(alloc);
    both(Ok(array), clone)
}

// Creates an array of type `T` and a clone as `array_and_clone` does, runs the kernel with the
// number `kernel` on them in turn, `repeats` times in all, and returns the checksum. If the arrays
// cannot be created, returns the error of `array_and_clone`.
fn time_array<T: BitNumber + WrappingSum + AsPrimitive<u64>>(
    alloc: Global,
    values: &[i64],
    validities: &[u64],
    kernel: u32,
    shift: usize,
    repeats: usize,
) -> Result<u64, ComputeError>
where
    i64: AsPrimitive<T>,
{
    let arrays = array_and_clone::<T>(alloc, values, validities, shift)?;
    Ok(time_clones(alloc, (&arrays.0, &arrays.1), kernel, repeats))
}

/// Runs a kernel on an array of `values`, converted to the type with the number `number_type` by
/// truncation or extension. The validity begins at bit `shift` of `validities`. If this slice is
/// empty, the array has no validity.
#[unsafe(no_mangle)]
pub extern "C" fn polars_time_reductions(
    alloc: Global,
    values: &[i64],
    validities: &[u64],
    kernel: u32,
    number_type: u32,
    shift: usize,
    repeats: usize,
) -> u64 {
    let checksum = at_integer_type!(
        number_type,
        time_array(alloc, values, validities, kernel, shift, repeats)
    );
    checksum.unwrap_or(0)
}
