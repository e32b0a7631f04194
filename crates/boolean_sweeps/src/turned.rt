//! Checks that the sweeps find faults: lists of rows with one wrong row, so that results must
//! differ.

use crate::column::{Column, Place};
use crate::columns::HALF_NULL;
use crate::draw::Draw;
use crate::pairs;
use crate::singles::Singles;
use recorded_text::fault::Fault;
use std::alloc::Global;

/// Calls all kernels on arrays, computes the expected results from lists with one wrong row, and
/// prints the counts.
pub fn sweep(rt: &(impl Print + AllocGlobal)) -> Result<(), Fault> {
    println!(rt; "Row 100 told wrong, of the right array and then of the left:")?;
    pairs::sweep_turned(rt)?;
    println!(rt; "The first row told wrong:")?;
    let mut singles = Singles::new(rt.alloc())?;
    ask(rt.alloc(), &mut singles, &[Some(true)])?;
    ask(rt.alloc(), &mut singles, &[Some(true); 129])?;
    ask(rt.alloc(), &mut singles, &[Some(true), Some(false), None])?;
    singles.print(rt)
}

// Creates an array of `rows`, negates the first row of the list from which the expected results are
// computed, and calls all kernels of a single array.
fn ask(alloc: Global, singles: &mut Singles, rows: &[Option<bool>]) -> Result<(), Fault> {
    let place = Place {
        values: 62,
        validity: 5,
    };
    let rows = Vec::from_slice(alloc, rows)?;
    let mut draw = Draw::new(&[]);
    let mut column = Column::of_rows(alloc, HALF_NULL, rows, place, &mut draw)?;
    column.turn_row(0);
    singles.ask(alloc, &column)
}
