//! Comparisons, reductions, extremes and distinct values of arrays of truth values.

use crate::operands::{Truths, truths_in_two_places};
use crate::{NO_BIT, Timed, bit_of, repeat};
use polars_compare_equality::kernel::TotalEqKernel;
use polars_compare_extremes::kernel::MinMaxKernel;
use polars_compare_order::kernel::TotalOrdKernel;
use polars_compute_reductions::bitwise::BitwiseKernel;
use polars_compute_unique::kernel::GenericUniqueKernel;
use std::alloc::Global;

/// A kernel on two arrays of truth values, or on the left one alone.
#[derive(Clone, Copy)]
pub(crate) enum TruthKernel {
    TotEq,
    TotLt,
    ReduceAnd,
    ReduceXor,
    Min,
    Distinct,
}

// Returns the truth value `found` as 0 or 1, or `NO_BIT` if there is none.
#[inline(always)]
fn number_of(found: Option<bool>) -> u64 {
    match found {
        Some(truth) => u64::from(truth),
        None => NO_BIT,
    }
}

impl Timed for Truths {
    type Kernel = TruthKernel;

    #[inline(always)]
    fn run(&self, alloc: Global, kernel: TruthKernel, i: usize) -> u64 {
        let left = &self.left;
        match kernel {
            TruthKernel::TotEq => bit_of(left.tot_eq_kernel(alloc, &self.right), i),
            TruthKernel::TotLt => bit_of(left.tot_lt_kernel(alloc, &self.right), i),
            TruthKernel::ReduceAnd => number_of(left.reduce_and()),
            TruthKernel::ReduceXor => number_of(left.reduce_xor()),
            TruthKernel::Min => number_of(left.min_ignore_nan_kernel()),
            TruthKernel::Distinct => left.n_unique() as u64,
        }
    }
}

// Runs the kernel with the number `kernel` on the two pairs of arrays in `operands` in turn,
// `repeats` times in all. Returns the checksum of the results, or 0 if there is no such kernel.
fn time_pair(alloc: Global, operands: (&Truths, &Truths), kernel: u32, repeats: usize) -> u64 {
    by_number!(
        kernel,
        TruthKernel: TotEq TotLt ReduceAnd ReduceXor Min Distinct,
        |chosen| repeat(alloc, chosen, operands, repeats),
        0
    )
}

/// Runs a kernel on two pairs of arrays of `len` truth values in turn. The first pair begins at bit
/// `shift` of `left` and at bit `2 * shift` of `right`, and the second pair 64 bits later.
#[unsafe(no_mangle)]
pub extern "C" fn polars_time_truths(
    alloc: Global,
    left: &[u64],
    right: &[u64],
    kernel: u32,
    shift: usize,
    len: usize,
    repeats: usize,
) -> u64 {
    match truths_in_two_places(alloc, left, right, shift, len) {
        Ok(operands) => time_pair(alloc, (&operands.0, &operands.1), kernel, repeats),
        Err(_) => 0,
    }
}
