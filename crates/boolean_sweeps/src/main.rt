//! Calls the kernels of `BooleanArray` at all pairs of bit offsets, and checks each result.
//!
//! Each array is created from a list of rows. The expected result of each call is computed from the
//! list, row by row, without bitmaps and without kernels. The values of an array begin at one of 66
//! bit offsets, and its validity begins at one of these offsets too. All other bits of the two
//! bitmaps, and the values of nulls, are pseudorandom, or the opposite of the rows.
//!
//! For each kernel the program prints the number of calls, the number of results (one for each row,
//! or one for an array), the number of results that were compared because they are promised, and
//! the number of results that differ. In the last lines the list has one wrong row, so that results
//! must differ. `tests/outside/boolean_sweeps.py` computes and prints the same lines independently.
//!
//! A function that returns a `Fault` fails with `Memory` if an allocation fails, and with `Line` if
//! a line can't be printed. `Case` and `Parts` would mean a wrong length of a bitmap or an array;
//! the lengths and offsets used here don't lead to it.
#![tactic(auto)]

use recorded_text::fault::Fault;
use std::process::ExitCode;

mod column;
mod columns;
mod counts;
mod distinct;
mod draw;
mod kernel;
mod mask;
mod pairs;
mod reductions;
mod scalars;
mod singles;
mod tally;
mod turned;

// Runs the sweeps of pairs of arrays, of single arrays, and of lists with a wrong row. Each prints
// its counts.
fn sweep_all(rt: &(impl Print + AllocGlobal)) -> Result<(), Fault> {
    pairs::sweep(rt)?;
    singles::sweep(rt)?;
    turned::sweep(rt)
}

// Runs all sweeps. The exit code is 1 if one of them fails, and else 0, also if results differ.
fn main(rt: HostRuntime) -> ExitCode {
    match sweep_all(&rt) {
        Ok(()) => ExitCode::from(0),
        Err(_) => ExitCode::from(1),
    }
}
