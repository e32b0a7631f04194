//! Compares files.
//!
//! `dunkelva diff LEFT RIGHT` prints the differences between two CSV files, or between two files of
//! JSON documents. `dunkelva schema FILE` prints a schema: the types, counts and extremes of the
//! values in each column of a CSV file, or at each path of JSON documents. The exit status is 2
//! after an error, or if standard output is a closed pipe. Otherwise it is 1 if `diff` found a
//! difference, and else 0.
#![tactic(auto)]

use dunkelva_commands::run::run;
use std::process::ExitCode;

fn main(rt: HostRuntime) -> ExitCode {
    ExitCode::from(run(&rt))
}
