//! Comparisons and extremes of arrays of views, of texts between offsets, and of byte strings of
//! one size.

use crate::string_operands::{Parts, StringArray, Strings, clones_of, strings_of};
use crate::{NO_BIT, NO_BITMAP, Timed, bit_of, repeat};
use polars_arrays_bits::error::ComputeError;
use polars_arrays_bytes::fixed_size::FixedSizeBinaryArray;
use polars_arrays_bytes::text::Utf8Array;
use polars_arrays_views::binary_view::BinaryViewArray;
use polars_compare_equality::borrowed::{BytesEqKernel, TextEqKernel};
use polars_compare_equality::kernel::TotalEqKernel;
use polars_compare_extremes::borrowed::{BytesMinMaxKernel, TextMinMaxKernel};
use polars_compare_order::borrowed::{BytesOrdKernel, TextOrdKernel};
use polars_compare_order::kernel::TotalOrdKernel;
use std::alloc::Global;
use std::str::from_utf8;

/// A kernel on two arrays of strings, on the left one and a string, or on the left one alone.
#[derive(Clone, Copy)]
pub(crate) enum StringKernel {
    TotEq,
    TotLt,
    TotEqBroadcast,
    TotLtBroadcast,
    Min,
    Max,
}

/// The layout of strings in an array: views, texts between offsets, or byte strings of one size.
pub(crate) enum StringType {
    Views,
    Texts,
    Sized,
}

// Returns the number of bytes of the string `found`, or `NO_BIT` if there is none.
#[inline(always)]
fn length_of(found: Option<&[u8]>) -> u64 {
    match found {
        Some(bytes) => bytes.len() as u64,
        None => NO_BIT,
    }
}

// Returns the number of bytes of the text `found`, or `NO_BIT` if there is none.
#[inline(always)]
fn text_length_of(found: Option<&str>) -> u64 {
    match found {
        Some(text) => text.len() as u64,
        None => NO_BIT,
    }
}

impl Timed for Strings<BinaryViewArray, &[u8]> {
    type Kernel = StringKernel;

    #[inline(always)]
    fn run(&self, alloc: Global, kernel: StringKernel, i: usize) -> u64 {
        let (left, right) = (&self.left, &self.right);
        let made = match kernel {
            StringKernel::TotEq => left.tot_eq_kernel(alloc, right),
            StringKernel::TotLt => left.tot_lt_kernel(alloc, right),
            StringKernel::TotEqBroadcast => {
                BytesEqKernel::tot_eq_kernel_broadcast(left, alloc, self.scalar)
            }
            StringKernel::TotLtBroadcast => {
                BytesOrdKernel::tot_lt_kernel_broadcast(left, alloc, self.scalar)
            }
            StringKernel::Min => return length_of(left.min_ignore_nan_kernel()),
            StringKernel::Max => return length_of(left.max_ignore_nan_kernel()),
        };
        bit_of(made, i)
    }
}

impl Timed for Strings<Utf8Array<i32>, &str> {
    type Kernel = StringKernel;

    #[inline(always)]
    fn run(&self, alloc: Global, kernel: StringKernel, i: usize) -> u64 {
        let (left, right) = (&self.left, &self.right);
        let made = match kernel {
            StringKernel::TotEq => left.tot_eq_kernel(alloc, right),
            StringKernel::TotLt => left.tot_lt_kernel(alloc, right),
            StringKernel::TotEqBroadcast => {
                TextEqKernel::tot_eq_kernel_broadcast(left, alloc, self.scalar)
            }
            StringKernel::TotLtBroadcast => {
                TextOrdKernel::tot_lt_kernel_broadcast(left, alloc, self.scalar)
            }
            StringKernel::Min => return text_length_of(left.min_ignore_nan_kernel()),
            StringKernel::Max => return text_length_of(left.max_ignore_nan_kernel()),
        };
        bit_of(made, i)
    }
}

// Strings of one size are compared for equality only.
impl Timed for Strings<FixedSizeBinaryArray, &[u8]> {
    type Kernel = StringKernel;

    #[inline(always)]
    fn run(&self, alloc: Global, kernel: StringKernel, i: usize) -> u64 {
        let (left, right) = (&self.left, &self.right);
        let made = match kernel {
            StringKernel::TotEq => left.tot_eq_kernel(alloc, right),
            StringKernel::TotEqBroadcast => {
                BytesEqKernel::tot_eq_kernel_broadcast(left, alloc, self.scalar)
            }
            _ => return NO_BITMAP,
        };
        bit_of(made, i)
    }
}

// Runs the kernel with the number `kernel` `repeats` times, on the two pairs of arrays in
// `operands` in turn, and returns the checksum, or 0 if there is no such kernel.
fn time_pair<A: StringArray, S: Copy>(
    alloc: Global,
    operands: (&Strings<A, S>, &Strings<A, S>),
    kernel: u32,
    repeats: usize,
) -> u64
where
    Strings<A, S>: Timed<Kernel = StringKernel>,
{
    by_number!(
        kernel,
        StringKernel: TotEq TotLt TotEqBroadcast TotLtBroadcast Min Max,
        |chosen| repeat(alloc, chosen, operands, repeats),
        0
    )
}

// Creates arrays of type `A` from `left` and `right`, runs the kernel with the number `kernel` on
// them and on clones of them in turn, `repeats` times in all, and returns the checksum. The error
// is `Unsupported` if the parts make no array, or if the arrays have different lengths. Any other
// error is `Memory`.
fn time_arrays<A: StringArray, S: Copy>(
    alloc: Global,
    left: &Parts,
    right: &Parts,
    scalar: S,
    kernel: u32,
    repeats: usize,
) -> Result<u64, ComputeError>
where
    Strings<A, S>: Timed<Kernel = StringKernel>,
{
    let first = strings_of::<A, S>(alloc, left, right, scalar)?;
    let second = clones_of(alloc, &first)?;
    Ok(time_pair(alloc, (&first, &second), kernel, repeats))
}

/// Runs a kernel on two arrays of strings, without nulls. `string_type` decides which slices make
/// an array: views and the bytes to which they refer, offsets and the bytes of the texts between
/// them, or the bytes of strings of 16 bytes each. A broadcast compares the left array with
/// `scalar`, which counts as empty if it is compared with texts and is not UTF-8.
#[unsafe(no_mangle)]
pub extern "C" fn polars_time_strings(
    alloc: Global,
    left_views: &[[u8; 16]],
    right_views: &[[u8; 16]],
    left_offsets: &[i32],
    right_offsets: &[i32],
    left_bytes: &[u8],
    right_bytes: &[u8],
    scalar: &[u8],
    kernel: u32,
    string_type: u32,
    repeats: usize,
) -> u64 {
    let left = Parts {
        views: left_views,
        offsets: left_offsets,
        bytes: left_bytes,
    };
    let right = Parts {
        views: right_views,
        offsets: right_offsets,
        bytes: right_bytes,
    };
    let checksum =
        match by_number!(string_type, StringType: Views Texts Sized, |it| Some(it), None) {
            Some(StringType::Views) => {
                time_arrays::<BinaryViewArray, &[u8]>(alloc, &left, &right, scalar, kernel, repeats)
            }
            Some(StringType::Texts) => {
                let scalar = from_utf8(scalar).unwrap_or("");
                time_arrays::<Utf8Array<i32>, &str>(alloc, &left, &right, scalar, kernel, repeats)
            }
            Some(StringType::Sized) => time_arrays::<FixedSizeBinaryArray, &[u8]>(
                alloc, &left, &right, scalar, kernel, repeats,
            ),
            None => Ok(0),
        };
    checksum.unwrap_or(0)
}
