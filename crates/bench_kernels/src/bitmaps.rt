//! Kernels on bitmaps.

use crate::operands::{Bitmaps, in_two_places};
use crate::{Timed, bit_of, repeat};
use polars_arrays_bits::bitmap::Bitmap;
use std::alloc::Global;

/// A kernel on up to three bitmaps.
#[derive(Clone, Copy)]
pub(crate) enum BitmapKernel {
    And,
    Or,
    Xor,
    Not,
    MergeEq,
    MergeNe,
    SetBits,
    NumIntersectionsWith,
}

impl Timed for Bitmaps {
    type Kernel = BitmapKernel;

    #[inline(always)]
    fn run(&self, alloc: Global, kernel: BitmapKernel, i: usize) -> u64 {
        let (first, second, third) = (&self.first, &self.second, &self.third);
        match kernel {
            BitmapKernel::And => bit_of(first.and(alloc, second), i),
            BitmapKernel::Or => bit_of(first.or(alloc, second), i),
            BitmapKernel::Xor => bit_of(first.xor(alloc, second), i),
            BitmapKernel::Not => bit_of(first.not(alloc), i),
            BitmapKernel::MergeEq => bit_of(Bitmap::merge_eq(alloc, first, second, third), i),
            BitmapKernel::MergeNe => bit_of(Bitmap::merge_ne(alloc, first, second, third), i),
            BitmapKernel::SetBits => first.set_bits() as u64,
            BitmapKernel::NumIntersectionsWith => first.num_intersections_with(second) as u64,
        }
    }
}

// Runs the kernel with the number `kernel` `repeats` times, on the two triples of bitmaps in
// `operands` in turn, and returns the checksum, or 0 if there is no such kernel.
fn time_pair(alloc: Global, operands: (&Bitmaps, &Bitmaps), kernel: u32, repeats: usize) -> u64 {
    by_number!(
        kernel,
        BitmapKernel: And Or Xor Not MergeEq MergeNe SetBits NumIntersectionsWith,
        |chosen| repeat(alloc, chosen, operands, repeats),
        0
    )
}

/// Runs a kernel on two triples of bitmaps of `len` bits in turn. The first triple begins at bit
/// `shift` of `first`, bit `2 * shift` of `second` and bit `3 * shift` of `third`, and the second
/// triple 64 bits later.
#[unsafe(no_mangle)]
pub extern "C" fn polars_time_bitmaps(
    alloc: Global,
    first: &[u64],
    second: &[u64],
    third: &[u64],
    kernel: u32,
    shift: usize,
    len: usize,
    repeats: usize,
) -> u64 {
    match in_two_places(alloc, first, second, third, shift, len) {
        Ok(operands) => time_pair(alloc, (&operands.0, &operands.1), kernel, repeats),
        Err(_) => 0,
    }
}
