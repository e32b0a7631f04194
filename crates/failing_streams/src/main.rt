//! Runs `polars_tables_lines` over readers and writers that fail, and prints the outcome of each
//! run. Each line of standard input describes a run.
//!
//! A line is `READS WRITES BYTES`: the run's input is `BYTES`, its reader gives one byte at a time
//! and fails after `READS` reads, and its writer accepts one byte at a time and fails after
//! `WRITES` writes. Bytes are `x` and two hexadecimal digits for each.
//! `READS WRITES BYTES TIMES PIECE` has the bytes of `PIECE`, `TIMES` times, after those of
//! `BYTES`. `demo WRITES` runs the demo of `polars_tables_lines` over such a writer. These words
//! may come before a line, in this order:
//!
//! - `interrupted`: each read and each write is interrupted once before it succeeds
//! - `boasting`: a read that gives bytes reports one byte more than it gave, if the buffer has room
//!   for one. The run then reads what the buffer had there
//! - `stopping`: the writer does not fail after `WRITES` writes; it accepts nothing from then on
//! - `pieces N`: a call gives or accepts up to `N` bytes, limited by what is left and asked for
//!
//! The output for a line is the line, ` -> `, the outcome of the run, and the bytes that the writer
//! accepted. A line that begins with `#` is printed unchanged. The program ends with an error at
//! any other line that does not describe a run, or if an allocation outside of a run fails.
#![tactic(auto)]

use crate::case::answer;
use anyhow::Result;

mod calls;
mod case;
mod manner;
mod slow_reader;
mod slow_writer;

/// Prints `line` if it begins with `#`. Otherwise runs the case that `line` describes, and prints
/// `line` and the outcome. Fails if `line` describes no case.
fn print_line(rt: &(impl Print + AllocGlobal), line: &str) -> Result<()> {
    if line.starts_with('#') {
        println!(rt; "{line}")?;
    } else {
        let answer = answer(rt.alloc(), line)?;
        println!(rt; "{line} -> {answer}")?;
    }
    Ok(())
}

/// Prints an output line for each line of standard input.
fn main(rt: HostRuntime) -> Result<()> {
    for line in rt.lines(rt.alloc()) {
        print_line(&rt, &line?)?;
    }
    Ok(())
}
