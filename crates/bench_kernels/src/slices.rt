//! Kernels on slices.

use crate::operands::{NumberType, Slices, converted};
use crate::{Timed, bit_of, repeat};
use num_traits::AsPrimitive;
use polars_arrays_bits::bitmap::Bitmap;
use polars_arrays_bits::slices::{compare_constant, compare_pairs};
use polars_arrays_numbers::comparison::{Equal, Less};
use polars_arrays_numbers::native_type::NativeType;
use std::alloc::{AllocError, Global};

/// A kernel on two slices of numbers, or on the left one and a scalar.
#[derive(Clone, Copy)]
pub(crate) enum SliceKernel {
    Equal,
    Less,
    EqualConstant,
}

impl<T: NativeType> Timed for Slices<'_, T> {
    type Kernel = SliceKernel;

    #[inline(always)]
    fn run(&self, alloc: Global, kernel: SliceKernel, i: usize) -> u64 {
        let made = match kernel {
            SliceKernel::Equal => compare_pairs(alloc, &Equal, self.left, self.right),
            SliceKernel::Less => compare_pairs(alloc, &Less, self.left, self.right),
            SliceKernel::EqualConstant => compare_constant(alloc, &Equal, self.left, *self.scalar),
        };
        bit_of(made, i)
    }
}

// Runs the kernel with the number `kernel` on two slices and a scalar `repeats` times, and returns
// the checksum. Returns 0 if the lengths differ, or if there is no such kernel.
fn time_pair<T: NativeType>(
    alloc: Global,
    left: &[T],
    right: &[T],
    scalar: &T,
    kernel: u32,
    repeats: usize,
) -> u64 {
    if left.len() != right.len() {
        return 0;
    }
    let operands = &Slices {
        left,
        right,
        scalar,
    };
    by_number!(
        kernel,
        SliceKernel: Equal Less EqualConstant,
        |chosen| repeat(alloc, chosen, (operands, operands), repeats),
        0
    )
}

// Converts `left`, `right` and `scalar` to the type `T`, runs the kernel with the number `kernel`
// on them `repeats` times, and returns the checksum.
fn time_slices<T: NativeType>(
    alloc: Global,
    left: &[i64],
    right: &[i64],
    scalar: i64,
    kernel: u32,
    repeats: usize,
) -> Result<u64, AllocError>
where
    i64: AsPrimitive<T>,
{
    let left = converted(alloc, left)?;
    let right = converted(alloc, right)?;
    Ok(time_pair::<T>(alloc, &left, &right, &scalar.as_(), kernel, repeats))
}

/// Runs a kernel on the slices `left` and `right`, and on `scalar`. All numbers are converted to
/// the type with the number `number_type`, by truncation or extension.
#[unsafe(no_mangle)]
pub extern "C" fn polars_time_slices(
    alloc: Global,
    left: &[i64],
    right: &[i64],
    scalar: i64,
    kernel: u32,
    number_type: u32,
    repeats: usize,
) -> u64 {
    let checksum = at_number_type!(
        number_type,
        time_slices(alloc, left, right, scalar, kernel, repeats)
    );
    checksum.unwrap_or(0)
}

/// A kernel on a slice of truth values.
#[derive(Clone, Copy)]
pub(crate) enum BoolKernel {
    FromBools,
}

impl Timed for &[bool] {
    type Kernel = BoolKernel;

    #[inline(always)]
    fn run(&self, alloc: Global, kernel: BoolKernel, i: usize) -> u64 {
        let made = match kernel {
            BoolKernel::FromBools => Bitmap::from_bools(alloc, self),
        };
        bit_of(made, i)
    }
}

/// Runs a kernel on the truth values `values`.
#[unsafe(no_mangle)]
pub extern "C" fn polars_time_bools(
    alloc: Global,
    values: &[bool],
    kernel: u32,
    repeats: usize,
) -> u64 {
    by_number!(
        kernel,
        BoolKernel: FromBools,
        |chosen| repeat(alloc, chosen, (&values, &values), repeats),
        0
    )
}
