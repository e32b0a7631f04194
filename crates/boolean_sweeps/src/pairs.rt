//! Kernels that compare two arrays, at each pair of bit offsets.

use crate::column::{Column, Place, Sort};
use crate::columns::{ALL_TRUE, FEW_FALSE, HALF_NULL, LENGTHS, OFFSETS, PLAIN, validity_offset};
use crate::draw::Draw;
use crate::kernel::Kernel;
use crate::tally::{Counts, Tally, begin, print};
use polars_arrays_bits::bitmap::Bitmap;
use polars_arrays_bits::error::ComputeError;
use polars_arrays_flat::array::Array;
use polars_arrays_flat::boolean::BooleanArray;
use polars_compare_equality::kernel::TotalEqKernel;
use polars_compare_order::kernel::TotalOrdKernel;
use recorded_text::fault::Fault;
use std::alloc::Global;

/// The kernels, with the names that are printed.
const KERNELS: [(&str, Kernel); 8] = [
    ("tot_eq_kernel", Kernel::Equal),
    ("tot_ne_kernel", Kernel::Unequal),
    ("tot_eq_missing_kernel", Kernel::EqualMissing),
    ("tot_ne_missing_kernel", Kernel::UnequalMissing),
    ("tot_lt_kernel", Kernel::Less),
    ("tot_le_kernel", Kernel::LessOrEqual),
    ("tot_gt_kernel", Kernel::Greater),
    ("tot_ge_kernel", Kernel::GreaterOrEqual),
];

/// The distributions of the left and of the right rows, by round.
const ROUNDS: [(Sort, Sort); 5] = [
    (PLAIN, PLAIN),
    (HALF_NULL, HALF_NULL),
    (ALL_TRUE, FEW_FALSE),
    (HALF_NULL, PLAIN),
    (PLAIN, FEW_FALSE),
];

/// Calls all kernels on two arrays, for each distribution, length and pair of bit offsets of their
/// values, and prints the counts.
pub fn sweep(rt: &(impl Print + AllocGlobal)) -> Result<(), Fault> {
    let alloc = rt.alloc();
    let mut tallies = begin(alloc, &KERNELS)?;
    for (round, (left, right)) in ROUNDS.iter().enumerate() {
        sweep_round(alloc, &mut tallies, round, *left, *right)?;
    }
    print(rt, &tallies)
}

// Calls all kernels on arrays of each length at each pair of bit offsets. The rows are distributed
// as `left` and `right` say. `round` is part of the random seed.
fn sweep_round(
    alloc: Global,
    tallies: &mut [Tally<Kernel>],
    round: usize,
    left: Sort,
    right: Sort,
) -> Result<(), Fault> {
    for len in LENGTHS {
        let lefts = columns(alloc, left, len, [round, 0])?;
        let rights = columns(alloc, right, len, [round, 1])?;
        ask_pairs(alloc, tallies, &lefts, &rights)?;
    }
    Ok(())
}

// Creates an array of `len` rows for each bit offset of the values. `round_side` is the round, and
// 0 for the left or 1 for the right side; it becomes part of the random seed.
fn columns(
    alloc: Global,
    sort: Sort,
    len: usize,
    round_side: [usize; 2],
) -> Result<Vec<Column>, Fault> {
    let mut columns = Vec::with_capacity(alloc, OFFSETS)?;
    for values in 0..OFFSETS {
        push_column(alloc, &mut columns, sort, len, round_side, values)?;
    }
    Ok(columns)
}

// Creates an array of `len` rows whose values begin at bit `values`, and appends it to `columns`.
// `round_side` is part of the random seed.
fn push_column(
    alloc: Global,
    columns: &mut Vec<Column>,
    sort: Sort,
    len: usize,
    round_side: [usize; 2],
    values: usize,
) -> Result<(), Fault> {
    let [round, side] = round_side;
    let validity = validity_offset(values);
    let place = Place { values, validity };
    let mut draw = Draw::new(&[round, side, len, values]);
    let column = Column::draw(alloc, sort, len, place, &mut draw)?;
    Ok(columns.push(column)?)
}

// Calls all kernels on each pair of a left and a right array.
fn ask_pairs(
    alloc: Global,
    tallies: &mut [Tally<Kernel>],
    lefts: &[Column],
    rights: &[Column],
) -> Result<(), Fault> {
    for left in lefts {
        for right in rights {
            ask_all(alloc, tallies, left, right)?;
        }
    }
    Ok(())
}

// Calls all kernels on the arrays of `left` and `right`, and compares the results with those
// expected for their lists of rows.
fn ask_all(
    alloc: Global,
    tallies: &mut [Tally<Kernel>],
    left: &Column,
    right: &Column,
) -> Result<(), Fault> {
    for tally in tallies.iter_mut() {
        let bits = call(alloc, tally.call, left.array(), right.array())?;
        compare_bits(&mut tally.counts, tally.call, left, right, &bits);
    }
    Ok(())
}

// Calls a kernel on two arrays. Fails with `Case` if their lengths differ.
fn call(
    alloc: Global,
    kernel: Kernel,
    left: &BooleanArray,
    right: &BooleanArray,
) -> Result<Bitmap, Fault> {
    if !left.can_compare(right) || left.len() != right.len() {
        return Err(Fault::Case);
    }
    let bits = match kernel {
        Kernel::Equal => left.tot_eq_kernel(alloc, right),
        Kernel::Unequal => left.tot_ne_kernel(alloc, right),
        Kernel::EqualMissing => left.tot_eq_missing_kernel(alloc, right),
        Kernel::UnequalMissing => left.tot_ne_missing_kernel(alloc, right),
        Kernel::Less => left.tot_lt_kernel(alloc, right),
        Kernel::LessOrEqual => left.tot_le_kernel(alloc, right),
        Kernel::Greater => left.tot_gt_kernel(alloc, right),
        Kernel::GreaterOrEqual => left.tot_ge_kernel(alloc, right),
    };
    Ok(bits?)
}

// Compares `bits`, the result of `kernel`, with the bits expected for the rows of `left` and
// `right`, and notes the comparisons in `counts`.
fn compare_bits(counts: &mut Counts, kernel: Kernel, left: &Column, right: &Column, bits: &Bitmap) {
    let rows = left.rows().iter().zip(right.rows());
    counts.begin_call(bits.len() == left.rows().len());
    for (i, (left, right)) in rows.enumerate() {
        counts.compare_bit(kernel.bit(*left, *right), bits, i);
    }
}

/// Calls all kernels twice on two columns whose rows are all true, and prints the counts. The
/// expected results are computed from the lists of the columns. In the first round, row 100 is
/// false in the right list, and in the second round in the left list, so that results have to
/// differ.
pub fn sweep_turned(rt: &(impl Print + AllocGlobal)) -> Result<(), Fault> {
    let alloc = rt.alloc();
    let mut tallies = begin(alloc, &KERNELS)?;
    let mut left = all_true(alloc, 0)?;
    let mut right = all_true(alloc, 1)?;
    right.turn_row(100);
    ask_all(alloc, &mut tallies, &left, &right)?;
    right.turn_row(100);
    left.turn_row(100);
    ask_all(alloc, &mut tallies, &left, &right)?;
    print(rt, &tallies)
}

// Creates an array of 129 true rows. `side` is the random seed. It has no effect, because each bit
// is drawn with 0 or 32 chances in 32.
fn all_true(alloc: Global, side: usize) -> Result<Column, Fault> {
    let place = Place {
        values: 3,
        validity: 64,
    };
    let mut draw = Draw::new(&[side]);
    Column::draw(alloc, ALL_TRUE, 129, place, &mut draw)
}
