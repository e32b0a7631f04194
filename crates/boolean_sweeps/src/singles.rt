//! Kernels of a single array, at each pair of bit offsets of its values and its validity.

use crate::column::{Column, Place, Sort};
use crate::columns::{
    ALL_NULL, ALL_TRUE, FEW_FALSE, HALF_NULL, LENGTHS, NULL_OR_TRUE, OFFSETS, PLAIN,
};
use crate::counts::{self, Count};
use crate::distinct::{self, Distinct};
use crate::draw::Draw;
use crate::kernel::Kernel;
use crate::reductions::{self, Reduction};
use crate::scalars;
use crate::tally::{Tally, begin, print};
use recorded_text::fault::Fault;
use std::alloc::Global;

/// The distributions of rows, by round.
const ROUNDS: [Sort; 6] = [
    PLAIN,
    ALL_TRUE,
    HALF_NULL,
    NULL_OR_TRUE,
    FEW_FALSE,
    ALL_NULL,
];

/// The tallies of all kernels of a single array: those of `scalars` in `broadcasts`, and those of
/// the modules `counts`, `reductions` and `distinct` in the fields of these names.
#[derive(Drop)]
pub struct Singles {
    broadcasts: Vec<Tally<Kernel>>,
    counts: Vec<Tally<Count>>,
    reductions: Vec<Tally<Reduction>>,
    distinct: Vec<Tally<Distinct>>,
}

impl Singles {
    /// Creates a tally for each kernel. All counts are 0.
    pub fn new(alloc: Global) -> Result<Singles, Fault> {
        let broadcasts = begin(alloc, &scalars::KERNELS)?;
        let counts = begin(alloc, &counts::COUNTS)?;
        let reductions = begin(alloc, &reductions::REDUCTIONS)?;
        let distinct = begin(alloc, &distinct::DISTINCT)?;
        Ok(Singles {
            broadcasts,
            counts,
            reductions,
            distinct,
        })
    }

    /// Calls all kernels on the array of `column`, compares the results with those expected for its
    /// rows, and counts them.
    pub fn ask(&mut self, alloc: Global, column: &Column) -> Result<(), Fault> {
        scalars::ask(alloc, &mut self.broadcasts, column)?;
        counts::ask(alloc, &mut self.counts, column)?;
        reductions::ask(&mut self.reductions, column);
        distinct::ask(alloc, &mut self.distinct, column)
    }

    /// Prints a line with the counts for each kernel.
    pub fn print(&self, rt: &impl Print) -> Result<(), Fault> {
        print(rt, &self.broadcasts)?;
        print(rt, &self.counts)?;
        print(rt, &self.reductions)?;
        print(rt, &self.distinct)
    }
}

/// Calls all kernels of a single array, for all distributions, lengths and pairs of bit offsets,
/// and prints the counts.
pub fn sweep(rt: &(impl Print + AllocGlobal)) -> Result<(), Fault> {
    let mut singles = Singles::new(rt.alloc())?;
    for (round, sort) in ROUNDS.iter().enumerate() {
        sweep_round(rt.alloc(), &mut singles, round, *sort)?;
    }
    singles.print(rt)
}

// Calls all kernels on arrays of each length at each pair of bit offsets, with rows distributed as
// `sort` says. `round` is part of the random seed.
fn sweep_round(
    alloc: Global,
    singles: &mut Singles,
    round: usize,
    sort: Sort,
) -> Result<(), Fault> {
    for len in LENGTHS {
        for values in 0..OFFSETS {
            sweep_offset(alloc, singles, round, sort, len, values)?;
        }
    }
    Ok(())
}

// Calls all kernels on arrays of `len` rows whose values begin at bit `values`, once for each bit
// offset of the validity. `round` is part of the random seed.
fn sweep_offset(
    alloc: Global,
    singles: &mut Singles,
    round: usize,
    sort: Sort,
    len: usize,
    values: usize,
) -> Result<(), Fault> {
    for validity in 0..OFFSETS {
        let mut draw = Draw::new(&[round, len, values, validity]);
        let place = Place { values, validity };
        let column = Column::draw(alloc, sort, len, place, &mut draw)?;
        singles.ask(alloc, &column)?;
    }
    Ok(())
}
