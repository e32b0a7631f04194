//! Kernels on columns of numbers, one column after the other.

use crate::nested_operands::columns;
use crate::{Timed, bit_of, repeat};
use polars_arrays_bits::error::ComputeError;
use polars_arrays_flat::primitive::PrimitiveArray;
use polars_compare_equality::kernel::TotalEqKernel;
use std::alloc::Global;

/// A kernel on each pair of columns.
#[derive(Clone, Copy)]
pub(crate) enum ColumnKernel {
    TotEq,
}

/// The columns of two tables. A run of a kernel compares each column of `left` with the column of
/// `right` at the same index, and returns the sum of the numbers that `run_column` returns.
#[derive(Drop)]
struct Columns<'a> {
    left: &'a [PrimitiveArray<i32>],
    right: &'a [PrimitiveArray<i32>],
}

// Runs a kernel on two columns, and returns bit `i` of its result as `bit_of` does. Returns 0 if
// the columns differ in type or in length, so that they cannot be compared.
#[inline(always)]
fn run_column(
    alloc: Global,
    kernel: ColumnKernel,
    left: &PrimitiveArray<i32>,
    right: &PrimitiveArray<i32>,
    i: usize,
) -> u64 {
    if !left.can_compare(right) {
        return 0;
    }
    let made = match kernel {
        ColumnKernel::TotEq => left.tot_eq_kernel(alloc, right),
    };
    bit_of(made, i)
}

impl Timed for Columns<'_> {
    type Kernel = ColumnKernel;

    #[inline(always)]
    fn run(&self, alloc: Global, kernel: ColumnKernel, i: usize) -> u64 {
        let mut sum: u64 = 0;
        for (left, right) in self.left.iter().zip(self.right) {
            sum = sum.wrapping_add(run_column(alloc, kernel, left, right, i));
        }
        sum
    }
}

// Creates columns of `rows` numbers each from `left` and from `right`, runs the kernel with the
// number `kernel` on them `repeats` times, and returns the checksum, or 0 if there is no such
// kernel. The error is `Memory`.
fn time_columns(
    alloc: Global,
    left: &[i32],
    right: &[i32],
    kernel: u32,
    rows: usize,
    repeats: usize,
) -> Result<u64, ComputeError> {
    let left = columns(alloc, rows, left)?;
    let right = columns(alloc, rows, right)?;
    let (left, right) = (left.as_slice(), right.as_slice());
    let operands = Columns { left, right };
    let checksum = by_number!(
        kernel,
        ColumnKernel: TotEq,
        |chosen| repeat(alloc, chosen, (&operands, &operands), repeats),
        0
    );
    Ok(checksum)
}

/// Runs a kernel on the columns of two tables. Each column has `rows` numbers, and the columns of a
/// table follow one another in `left` or `right`.
#[unsafe(no_mangle)]
pub extern "C" fn polars_time_columns(
    alloc: Global,
    left: &[i32],
    right: &[i32],
    kernel: u32,
    rows: usize,
    repeats: usize,
) -> u64 {
    time_columns(alloc, left, right, kernel, rows, repeats).unwrap_or(0)
}
