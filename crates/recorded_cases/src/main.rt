//! Compares the result of each public call with the recorded result on the same line.
//!
//! `recorded_cases [--wrong] FILE..` checks each file in turn, or standard input if no file is
//! named. A file has these lines:
//!
//! | Line | Meaning |
//! |---|---|
//! | empty | nothing |
//! | `# TEXT` | begins a case: the names of the case before are forgotten |
//! | `NAME = [shared] ARRAY` | names an array, in parts that are shared or owned |
//! | `NAME = [shared] ARRAY -> refused: WHY` | these parts make no array, or too deep a one |
//! | `NAME = copy OTHER` | names a clone of an array |
//! | `NAME = wrapped LEVELS KINDS ARRAY` | names an array nested in LEVELS others, at most 1,000 |
//! | `NAME = wrapped_far LEVELS KINDS ARRAY` | the line before, with at most 100,000 LEVELS |
//! | `CALL OPERAND.. -> RESULT` | the call returns this result |
//!
//! Operands are names of arrays, numbers, truth values, names of types, bits `b<at>:<0 and 1..>`,
//! whose first `<at>` digits are cut off, and bytes `x<hexadecimal digits>`. Results are rows, bits
//! with `x` where nothing is promised, numbers, truth values, texts, `none`, or `refused: WHY`.
//!
//! The program prints each line whose result differs, with its file, its number and both results,
//! and the counts of each file. Every result of the file after `--wrong` must differ. A file must
//! have at least one result. The status is 0 if all is as it must be, and 1 otherwise. A file or
//! line that can't be read ends the run with status 1. Such a line is named on standard error.
//!
//! `recorded_cases --print FILE..` prints the results of the calls instead of comparing them. The
//! lines of the files need no recorded results.
#![tactic(auto)]

use crate::checking::{Mode, Tally, check_text};
use recorded_text::fault::Fault;
use std::process::ExitCode;
use std::rt::{Env, Files};
use std::{env, fs, io};

mod checking;
mod lines;
mod question;

/// Prints the counts of the file `name`, and returns whether they are right. They are right if
/// there is at least one result, and no result differs. If `is_wrong`, all results must differ
/// instead.
fn report(rt: &impl Print, name: &str, tally: Tally, is_wrong: bool) -> Result<bool, Fault> {
    let Tally { same, differing } = tally;
    match (is_wrong, same, differing) {
        (false, _, 0) => println!(rt; "{name}: {same} as recorded")?,
        (true, 0, _) => println!(rt; "{name}: {differing} differ, as they have to")?,
        _ => println!(rt; "{name}: {same} as recorded, {differing} differ")?,
    }
    Ok(if is_wrong {
        same == 0 && differing > 0
    } else {
        same > 0 && differing == 0
    })
}

/// Checks the cases in the file `name`, and returns whether the results are as `mode` asks. If
/// `mode` is `Print`, prints the results, and returns `true`. The error is `Line` if the file can't
/// be read, or the error of a line that has no result.
fn check_file<R: Files + Print + Eprint + AllocGlobal>(
    rt: &R,
    name: &str,
    mode: Mode,
) -> Result<bool, Fault> {
    let text = fs::read_to_string(rt, name)?;
    let tally = check_text(rt, name, &text, mode)?;
    match mode {
        Mode::Print => Ok(true),
        Mode::Compare => report(rt, name, tally, false),
        Mode::CompareWrong => report(rt, name, tally, true),
    }
}

/// Checks the cases on standard input, and returns whether there are results and all are right. If
/// `mode` is `Print`, prints the results, and returns `true`.
fn check_input<R: Input + Print + Eprint + AllocGlobal>(rt: &R, mode: Mode) -> Result<bool, Fault> {
    let name = "standard input";
    let text = io::read_to_string(rt.alloc(), rt.reader())?;
    let tally = check_text(rt, name, &text, mode)?;
    match mode {
        Mode::Print => Ok(true),
        _ => report(rt, name, tally, false),
    }
}

/// Checks each file that `words` names, and returns whether all counts are right. In the mode
/// `Compare`, the file after a word `--wrong` is checked in the mode `CompareWrong`. If no file
/// follows this word, returns `false`.
fn check_files<R: Files + Print + Eprint + AllocGlobal>(
    rt: &R,
    words: &[String],
    mode: Mode,
) -> Result<bool, Fault> {
    let mut is_well = true;
    let mut of_file = mode;
    for word in words {
        if mode == Mode::Compare && word.as_str() == "--wrong" {
            of_file = Mode::CompareWrong;
        } else {
            is_well &= check_file(rt, word.as_str(), of_file)?;
            of_file = mode;
        }
    }
    Ok(is_well && of_file == mode)
}

/// Checks each file that `words` names, or standard input if there are no words. Returns whether
/// all counts are right, or `true` if `mode` is `Print`.
fn check_all<R>(rt: &R, words: &[String], mode: Mode) -> Result<bool, Fault>
where
    R: Files + Input + Print + Eprint + AllocGlobal,
{
    if words.is_empty() {
        check_input(rt, mode)
    } else {
        check_files(rt, words, mode)
    }
}

/// Checks the files that the program's arguments name, or standard input if they name none, and
/// returns whether all counts are right. After `--print`, prints the results instead, and returns
/// `true`.
fn run<R: Env + Files + Input + Print + Eprint + AllocGlobal>(rt: &R) -> Result<bool, Fault> {
    let words: Vec<String> = env::args(rt)?.skip(1).collect(rt.alloc())?;
    match words.split_first() {
        Some((first, files)) if first.as_str() == "--print" => check_all(rt, files, Mode::Print),
        _ => check_all(rt, &words, Mode::Compare),
    }
}

/// Runs the program. The status is 0 if all counts are right, and otherwise 1.
fn main(rt: HostRuntime) -> ExitCode {
    match run(&rt) {
        Ok(true) => ExitCode::from(0),
        _ => ExitCode::from(1),
    }
}
