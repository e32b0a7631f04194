//! Compares texts in memory, and prints the outcome of each comparison and its report.
//!
//! A line is `tables OPTION.. LEFT RIGHT` or `documents KEY OPTION.. LEFT RIGHT`. Each of the two
//! texts is `x` and two hexadecimal digits for each byte. `KEY` is a path. The options are those of
//! `dunkelva diff`, without hyphens:
//!
//! | Option | Of |
//! |---|---|
//! | `key=NAMES`, `only=NAMES`, `ignore=NAMES`, with commas between names, and `common` | tables |
//! | `skip-bad` | documents |
//! | `unique`, `json` | both |
//!
//! The output for a line is the line, ` -> `, then `same`, `different` or the error of the
//! comparison, and last the bytes of the report, in the form of the two texts. A line that begins
//! with `#` is printed unchanged. The program ends with an error at any other line that is not a
//! case, or if an allocation outside of a comparison fails.
#![tactic(auto)]

use crate::case::answer;
use anyhow::Result;

mod case;
mod documents;
mod tables;
mod words;

/// Prints `line` unchanged if it begins with `#`. Otherwise prints the line, ` -> ` and the result
/// of the case. Returns an error if the line is not a case.
fn print_line(rt: &(impl Print + AllocGlobal), line: &str) -> Result<()> {
    if line.starts_with('#') {
        println!(rt; "{line}")?;
    } else {
        let answer = answer(rt.alloc(), line)?;
        println!(rt; "{line} -> {answer}")?;
    }
    Ok(())
}

/// Prints each line of the input, and for a case its result.
fn main(rt: HostRuntime) -> Result<()> {
    for line in rt.lines(rt.alloc()) {
        print_line(&rt, &line?)?;
    }
    Ok(())
}
