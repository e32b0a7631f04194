//! Kernels that compare an array with a truth value.

use crate::column::Column;
use crate::kernel::Kernel;
use crate::tally::{Counts, Tally};
use polars_arrays_bits::bitmap::Bitmap;
use polars_arrays_flat::boolean::BooleanArray;
use polars_compare_equality::kernel::TotalEqKernel;
use polars_compare_order::kernel::TotalOrdKernel;
use recorded_text::fault::Fault;
use std::alloc::Global;

/// The kernels, with the names that are printed.
pub const KERNELS: [(&str, Kernel); 8] = [
    ("tot_eq_kernel_broadcast", Kernel::Equal),
    ("tot_ne_kernel_broadcast", Kernel::Unequal),
    ("tot_eq_missing_kernel_broadcast", Kernel::EqualMissing),
    ("tot_ne_missing_kernel_broadcast", Kernel::UnequalMissing),
    ("tot_lt_kernel_broadcast", Kernel::Less),
    ("tot_le_kernel_broadcast", Kernel::LessOrEqual),
    ("tot_gt_kernel_broadcast", Kernel::Greater),
    ("tot_ge_kernel_broadcast", Kernel::GreaterOrEqual),
];

/// Calls each kernel on the array of `column` with each of the two truth values, and compares the
/// results with those expected for its list of rows.
pub fn ask(alloc: Global, tallies: &mut [Tally<Kernel>], column: &Column) -> Result<(), Fault> {
    for scalar in [false, true] {
        for tally in tallies.iter_mut() {
            let bits = call(alloc, tally.call, column.array(), scalar)?;
            compare_bits(&mut tally.counts, tally.call, column, scalar, &bits);
        }
    }
    Ok(())
}

// Calls `kernel` on `array` and the truth value `scalar`.
fn call(
    alloc: Global,
    kernel: Kernel,
    array: &BooleanArray,
    scalar: bool,
) -> Result<Bitmap, Fault> {
    let bits = match kernel {
        Kernel::Equal => array.tot_eq_kernel_broadcast(alloc, &scalar),
        Kernel::Unequal => array.tot_ne_kernel_broadcast(alloc, &scalar),
        Kernel::EqualMissing => array.tot_eq_missing_kernel_broadcast(alloc, &scalar),
        Kernel::UnequalMissing => array.tot_ne_missing_kernel_broadcast(alloc, &scalar),
        Kernel::Less => array.tot_lt_kernel_broadcast(alloc, &scalar),
        Kernel::LessOrEqual => array.tot_le_kernel_broadcast(alloc, &scalar),
        Kernel::Greater => array.tot_gt_kernel_broadcast(alloc, &scalar),
        Kernel::GreaterOrEqual => array.tot_ge_kernel_broadcast(alloc, &scalar),
    };
    Ok(bits?)
}

// Compares `bits`, the result of `kernel`, with the bits expected for the rows of `column` and
// `scalar`, and notes the comparisons in `counts`.
fn compare_bits(counts: &mut Counts, kernel: Kernel, column: &Column, scalar: bool, bits: &Bitmap) {
    counts.begin_call(bits.len() == column.rows().len());
    for (i, row) in column.rows().iter().enumerate() {
        counts.compare_bit(kernel.bit(*row, Some(scalar)), bits, i);
    }
}
