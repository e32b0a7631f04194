//! Kernels on arrays of numbers.

use crate::operands::{NumberType, Numbers, both, comparable_numbers, two_arrays, windows};
use crate::{Timed, bit_of, repeat};
use num_traits::AsPrimitive;
use polars_arrays_bits::error::ComputeError;
use polars_arrays_flat::primitive::PrimitiveArray;
use polars_arrays_numbers::native_type::NativeType;
use polars_compare_equality::kernel::TotalEqKernel;
use polars_compare_order::kernel::TotalOrdKernel;
use std::alloc::Global;

/// A kernel on two arrays of numbers, or on the left one and a scalar.
#[derive(Clone, Copy)]
pub(crate) enum NumberKernel {
    TotEq,
    TotLt,
    TotEqBroadcast,
    TotLtBroadcast,
    TotEqMissing,
}

impl<T: NativeType> Timed for Numbers<'_, T> {
    type Kernel = NumberKernel;

    #[inline(always)]
    fn run(&self, alloc: Global, kernel: NumberKernel, i: usize) -> u64 {
        let (left, right, scalar) = (self.left, self.right, self.scalar);
        let made = match kernel {
            NumberKernel::TotEq => left.tot_eq_kernel(alloc, right),
            NumberKernel::TotLt => left.tot_lt_kernel(alloc, right),
            NumberKernel::TotEqBroadcast => left.tot_eq_kernel_broadcast(alloc, scalar),
            NumberKernel::TotLtBroadcast => left.tot_lt_kernel_broadcast(alloc, scalar),
            NumberKernel::TotEqMissing => left.tot_eq_missing_kernel(alloc, right),
        };
        bit_of(made, i)
    }
}

// Runs the kernel with the number `kernel` `repeats` times, on the two pairs of arrays in
// `operands` in turn, and returns the checksum, or 0 if there is no such kernel.
fn time_pairs<T: NativeType>(
    alloc: Global,
    operands: (&Numbers<T>, &Numbers<T>),
    kernel: u32,
    repeats: usize,
) -> u64 {
    by_number!(
        kernel,
        NumberKernel: TotEq TotLt TotEqBroadcast TotLtBroadcast TotEqMissing,
        |chosen| repeat(alloc, chosen, operands, repeats),
        0
    )
}

// Clones two arrays. The error is `Memory`.
fn clones_of<T: NativeType>(
    alloc: Global,
    arrays: &(PrimitiveArray<T>, PrimitiveArray<T>),
) -> Result<(PrimitiveArray<T>, PrimitiveArray<T>), ComputeError> {
    both(arrays.0.clone_array(alloc), arrays.1.clone_array(alloc))
}

// Runs the kernel with the number `kernel` `repeats` times, on two arrays and on clones of them in
// turn, and returns the checksum. The error is `Unsupported` if the arrays cannot be compared. Any
// other error is `Memory`.
fn time_clones<T: NativeType>(
    alloc: Global,
    arrays: &(PrimitiveArray<T>, PrimitiveArray<T>),
    scalar: &T,
    kernel: u32,
    repeats: usize,
) -> Result<u64, ComputeError> {
    let clones = clones_of(alloc, arrays)?;
    let first = comparable_numbers(&arrays.0, &arrays.1, scalar)?;
    let second = comparable_numbers(&clones.0, &clones.1, scalar)?;
    Ok(time_pairs(alloc, (&first, &second), kernel, repeats))
}

// Converts `left`, `right` and `scalar` to the type `T`, runs the kernel with the number `kernel`
// on them `repeats` times, and returns the checksum. The validity of the left array begins at bit
// `shift` of `validities`, and that of the right one 64 bits later. The error is `Unsupported` if
// `validities` is too short, or if the lengths differ. Any other error is `Memory`.
fn time_numbers<T: NativeType>(
    alloc: Global,
    left: &[i64],
    right: &[i64],
    validities: &[u64],
    scalar: i64,
    kernel: u32,
    shift: usize,
    repeats: usize,
) -> Result<u64, ComputeError>
where
    i64: AsPrimitive<T>,
{
    let (early, late) = windows(alloc, validities, shift, left.len())?;
    let arrays = two_arrays(alloc, left, right, (Some(early), Some(late)))?;
    time_clones::<T>(alloc, &arrays, &scalar.as_(), kernel, repeats)
}

/// Runs a kernel on arrays of `left` and `right`, and on `scalar`. All numbers are converted to the
/// type with the number `number_type`, by truncation or extension. The validity of the left array
/// begins at bit `shift` of `validities`, and that of the right one 64 bits later.
#[unsafe(no_mangle)]
pub extern "C" fn polars_time_numbers(
    alloc: Global,
    left: &[i64],
    right: &[i64],
    validities: &[u64],
    scalar: i64,
    kernel: u32,
    number_type: u32,
    shift: usize,
    repeats: usize,
) -> u64 {
    let checksum = at_number_type!(
        number_type,
        time_numbers(
            alloc, left, right, validities, scalar, kernel, shift, repeats
        )
    );
    checksum.unwrap_or(0)
}
