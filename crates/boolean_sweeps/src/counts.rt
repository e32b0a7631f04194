//! Kernels that count bits of each row. A truth value is a single bit.

use crate::column::Column;
use crate::mask::masked;
use crate::tally::{Counts, Tally};
use polars_arrays_flat::array::Array;
use polars_arrays_flat::boolean::BooleanArray;
use polars_arrays_flat::primitive::PrimitiveArray;
use polars_compute_reductions::bitwise::BitwiseKernel;
use recorded_text::fault::Fault;
use std::alloc::Global;

/// A kernel that counts bits of each row.
#[derive(Clone, Copy)]
pub enum Count {
    Ones,
    Zeros,
    LeadingOnes,
    LeadingZeros,
    TrailingOnes,
    TrailingZeros,
}

/// The kernels, with the names that are printed.
pub const COUNTS: [(&str, Count); 6] = [
    ("count_ones", Count::Ones),
    ("count_zeros", Count::Zeros),
    ("leading_ones", Count::LeadingOnes),
    ("leading_zeros", Count::LeadingZeros),
    ("trailing_ones", Count::TrailingOnes),
    ("trailing_zeros", Count::TrailingZeros),
];

impl Count {
    // Returns the expected count for `row`, 0 or 1, or `None` if the row is null.
    fn of(self, row: Option<bool>) -> Option<u32> {
        let truth = row?;
        let counted = match self {
            Count::Ones | Count::LeadingOnes | Count::TrailingOnes => truth,
            Count::Zeros | Count::LeadingZeros | Count::TrailingZeros => !truth,
        };
        Some(u32::from(counted))
    }

    // Calls the kernel on `array`.
    fn call(self, alloc: Global, array: &BooleanArray) -> Result<PrimitiveArray<u32>, Fault> {
        let counted = match self {
            Count::Ones => array.count_ones(alloc),
            Count::Zeros => array.count_zeros(alloc),
            Count::LeadingOnes => array.leading_ones(alloc),
            Count::LeadingZeros => array.leading_zeros(alloc),
            Count::TrailingOnes => array.trailing_ones(alloc),
            Count::TrailingZeros => array.trailing_zeros(alloc),
        };
        Ok(counted?)
    }
}

/// Calls each kernel on the array of `column`, and compares the results with the expected counts
/// for its rows.
pub fn ask(alloc: Global, tallies: &mut [Tally<Count>], column: &Column) -> Result<(), Fault> {
    for tally in tallies.iter_mut() {
        let counted = tally.call.call(alloc, column.array())?;
        compare_rows(&mut tally.counts, tally.call, column, &counted);
    }
    Ok(())
}

// Compares `counted`, the result of the kernel `count`, with the expected counts for the rows of
// `column`, and notes the comparisons in `counts`.
fn compare_rows(counts: &mut Counts, count: Count, column: &Column, counted: &PrimitiveArray<u32>) {
    counts.begin_call(counted.len() == column.rows().len());
    for (i, row) in column.rows().iter().enumerate() {
        let value = counted.values().get(i).copied();
        counts.compare(masked(value, counted.validity(), i) == count.of(*row));
    }
}
