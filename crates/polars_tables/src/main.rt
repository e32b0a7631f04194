//! Reads one command per line from standard input, such as `eq_missing i32 1 null | 1 null`. Prints
//! one result per line, such as `true true`.
#![tactic(auto)]

use polars_tables_lines::arguments::asked;
use polars_tables_lines::demo::demo;
use polars_tables_lines::program::{Command, VERSION, exit_status, fault_text};
use polars_tables_lines::running::{Report, RunError, run};
use std::process::ExitCode;
use std::rt::Env;
use std::{env, io};

/// The text that `--help` prints.
const HELP: &str = "\
Reads one command a line from standard input and prints one result a line.

usage: polars_tables [demo | --help | --version]

    demo         compares small nested arrays
    --help       prints this text
    --version    prints the version

A command is an operation, a type, and rows, with a bar between two lists of rows:

    add i8 127 null | 1 2       -128 null
    eq_missing i32 1 null | 1 null       true true

docs/LINES.md has all operations. A line that can't be answered prints
`line N: refused: WORD`, and the status is then 1.";

/// Returns the command-line arguments after the program's name, or the error of reading them.
fn read_arguments<R: Env + AllocGlobal>(rt: &R) -> io::Result<Vec<String>> {
    let mut words = Vec::new(rt.alloc());
    for word in env::args(rt)?.skip(1) {
        words.push(word)?;
    }
    Ok(words)
}

/// Returns the exit status for the outcome of a run (`exit_status`). If the run stopped, first
/// prints the reason to standard error.
fn end(rt: &impl Eprint, outcome: Result<Report, RunError>) -> u8 {
    if let Err(fault) = &outcome {
        let _ = eprintln!(rt; "{}", fault_text(fault));
    }
    exit_status(&outcome)
}

/// The report of a command that reads no lines.
const NO_LINES: Report = Report {
    lines: 0,
    refused: 0,
};

/// Prints the demo. Returns the report of a run without lines. The error is `Memory` or `Write`.
fn print_demo(rt: &(impl Print + AllocGlobal)) -> Result<Report, RunError> {
    demo(rt.alloc(), &mut io::writer(rt))?;
    Ok(NO_LINES)
}

/// Prints a text and a line feed. Returns the report of a run without lines. The error is `Write`.
fn print_text(rt: &impl Print, text: &str) -> Result<Report, RunError> {
    match println!(rt; "{text}") {
        Ok(()) => Ok(NO_LINES),
        Err(_) => Err(RunError::Write),
    }
}

/// Prints the name and the version of the program. Returns the report of a run without lines. The
/// error is `Write`.
fn print_version(rt: &impl Print) -> Result<Report, RunError> {
    match println!(rt; "polars_tables {VERSION}") {
        Ok(()) => Ok(NO_LINES),
        Err(_) => Err(RunError::Write),
    }
}

/// Runs the command that the arguments ask for, and returns the exit status: 2 if the arguments are
/// wrong, 1 if a line was refused or the run stopped, and else 0.
fn main(rt: HostRuntime) -> ExitCode {
    match asked(&read_arguments(&rt)) {
        Ok(Command::Lines) => {
            let outcome = run(rt.alloc(), &mut rt.reader(), &mut io::writer(&rt));
            ExitCode::from(end(&rt, outcome))
        }
        Ok(Command::Demo) => ExitCode::from(end(&rt, print_demo(&rt))),
        Ok(Command::Help) => ExitCode::from(end(&rt, print_text(&rt, HELP))),
        Ok(Command::Version) => ExitCode::from(end(&rt, print_version(&rt))),
        Ok(Command::Usage) => {
            let _ = eprintln!(rt; "usage: polars_tables [demo | --help | --version]");
            ExitCode::from(2)
        }
        Err(fault) => ExitCode::from(end(&rt, Err(fault))),
    }
}
