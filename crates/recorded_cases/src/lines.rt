//! Calls of the line language of `polars_tables`: results of lines, output of runs, and exit
//! statuses of the program.
//!
//! - `line TEXT`: the result of the line TEXT, or `refused: WHY`
//! - `line_bytes BYTES`: the result of the line of these bytes, which may be unprintable
//! - `line_repeated N PIECE BYTES`: the result of the line that consists of BYTES and then N times
//!   the bytes of PIECE. So the line may be very long
//! - `run BYTES`: the number of lines of this input, the number of refused ones, and the bytes
//!   written
//! - `demo`: the bytes that the demo writes
//! - `command WORD..`: the name of the command that the program runs for these arguments
//! - `exit_status lines N refused N`, `exit_status FAULT`: the status after a run that read N lines
//!   and refused N of them, or after one that stopped by FAULT
//! - `fault_text FAULT`: the message of a run that stopped by FAULT: `read`, `write` or `memory`
//!
//! The error of a function is `Word` if a word is missing or wrong, or `Memory` if an allocation
//! fails. Comments on functions say when another error is returned.

use polars_tables_lines::arguments::command;
use polars_tables_lines::demo::demo;
use polars_tables_lines::line::{LineError, answer_line};
use polars_tables_lines::program::{Command, exit_status, fault_text};
use polars_tables_lines::running::{Report, RunError, run};
use recorded_text::bytes_text::{push_bytes, write_bytes};
use recorded_text::fault::Fault;
use recorded_text::parts::read_bytes;
use recorded_text::words::Words;
use std::alloc::{AllocError, Global};
use std::str::from_utf8;

/// Returns the result of `call` if it is a call of the line language, or `None` for any other call.
/// `text` is the part of the line after the call and a space, and `words` are the words of `text`.
/// The error is `Case` if a run or the demo failed in a way that it must not.
pub fn answer(
    alloc: Global,
    call: &str,
    text: &str,
    words: &mut Words,
) -> Result<Option<String>, Fault> {
    let answer = match call {
        "line" => answer_text(alloc, text),
        "line_bytes" => answer_bytes(alloc, words),
        "line_repeated" => answer_repeated(alloc, words),
        "run" => answer_run(alloc, words),
        "demo" => answer_demo(alloc),
        "command" => answer_command(alloc, text),
        "exit_status" => answer_status(alloc, words),
        "fault_text" => answer_fault(alloc, words),
        _ => return Ok(None),
    };
    answer.map(Some)
}

/// Splits `text` into arguments, and returns the name of the command that they select.
fn answer_command(alloc: Global, text: &str) -> Result<String, Fault> {
    let arguments = split_arguments(alloc, text)?;
    command_name(command(&arguments))
        .to_string(alloc)
        .map_err(Fault::from)
}

/// Reads the outcome of a run from `words`, and returns the exit status after such a run.
fn answer_status(alloc: Global, words: &mut Words) -> Result<String, Fault> {
    let outcome = read_outcome(words)?;
    exit_status(&outcome).to_string(alloc).map_err(Fault::from)
}

/// Reads the name of an error of a run from the next word, and returns the message for this error.
/// The error is `Word` if no error has this name.
fn answer_fault(alloc: Global, words: &mut Words) -> Result<String, Fault> {
    let fault = run_error_named(words.read()?)?;
    fault_text(&fault).to_string(alloc).map_err(Fault::from)
}

/// Returns the result of `line` in the line language, or `refused: WHY` if the line has a fault.
/// The error is `Memory`.
fn answer_text(alloc: Global, line: &str) -> Result<String, Fault> {
    match answer_line(alloc, line) {
        Ok(answer) => Ok(answer),
        Err(LineError::Memory) => Err(Fault::Memory),
        Err(fault) => format!(in alloc; "refused: {fault}").map_err(Fault::from),
    }
}

/// Reads bytes from the next word, and returns the result of the line that consists of these bytes.
fn answer_bytes(alloc: Global, words: &mut Words) -> Result<String, Fault> {
    let bytes = read_bytes(alloc, words.read()?)?;
    answer_read(alloc, &bytes)
}

/// Returns the result of the line that consists of `bytes`. The error is `Word` if the bytes are
/// not UTF-8.
fn answer_read(alloc: Global, bytes: &[u8]) -> Result<String, Fault> {
    match from_utf8(bytes) {
        Ok(line) => answer_text(alloc, line),
        Err(_) => Err(Fault::Word),
    }
}

/// Reads a number, a piece and the beginning of a line from the next three words. Returns the
/// result of the line that begins so and ends in the piece, repeated that number of times.
fn answer_repeated(alloc: Global, words: &mut Words) -> Result<String, Fault> {
    let times = words.read_number()?;
    let piece = read_bytes(alloc, words.read()?)?;
    answer_ending(alloc, words, times, &piece)
}

/// Reads the beginning of a line as bytes from the next word. Returns the result of the line that
/// begins with these bytes and ends in `piece`, repeated `times` times.
fn answer_ending(
    alloc: Global,
    words: &mut Words,
    times: u32,
    piece: &[u8],
) -> Result<String, Fault> {
    let mut bytes = read_bytes(alloc, words.read()?)?;
    push_repeated(&mut bytes, times, piece)?;
    answer_read(alloc, &bytes)
}

/// Appends `piece` to `bytes`, `times` times.
fn push_repeated(bytes: &mut Vec<u8>, times: u32, piece: &[u8]) -> Result<(), AllocError> {
    for _ in 0..times {
        bytes.extend_from_slice(piece)?;
    }
    Ok(())
}

/// Reads bytes from the next word, and runs the line language with these bytes as input. Returns
/// the text of the report and of the output. If the run fails, returns its error, converted by
/// `fault_of`.
fn answer_run(alloc: Global, words: &mut Words) -> Result<String, Fault> {
    let input = read_bytes(alloc, words.read()?)?;
    let mut written = Vec::new(alloc);
    match run(alloc, &mut input.as_slice(), &mut written) {
        Ok(report) => write_run(alloc, report, &written),
        Err(fault) => Err(fault_of(fault, &written)),
    }
}

/// Returns the text of `report`, `lines N refused N`, and then the bytes of `written`, the output
/// of a run.
fn write_run(alloc: Global, report: Report, written: &[u8]) -> Result<String, Fault> {
    let Report { lines, refused } = report;
    let mut text = format!(in alloc; "lines {lines} refused {refused} ")?;
    push_bytes(&mut text, written)?;
    Ok(text)
}

/// Runs the demo, and returns the text of the bytes that it writes. If the demo fails, returns its
/// error, converted by `fault_of`.
fn answer_demo(alloc: Global) -> Result<String, Fault> {
    let mut written = Vec::new(alloc);
    match demo(alloc, &mut written) {
        Ok(()) => write_bytes(alloc, &written),
        Err(fault) => Err(fault_of(fault, &written)),
    }
}

/// Converts `fault`, the error of a run that wrote `written` into a vector. Returns `Memory` if a
/// write failed, because the vector could not grow, or if the run failed to allocate before it
/// wrote anything. Otherwise returns `Case`, since such a run must not have written anything.
fn fault_of(fault: RunError, written: &[u8]) -> Fault {
    match fault {
        RunError::Memory if written.is_empty() => Fault::Memory,
        RunError::Write => Fault::Memory,
        _ => Fault::Case,
    }
}

/// Splits `text` at spaces into arguments. Adjacent spaces count as one.
fn split_arguments(alloc: Global, text: &str) -> Result<Vec<String>, AllocError> {
    let mut arguments = Vec::new(alloc);
    for word in text.split(' ') {
        if !word.is_empty() {
            arguments.push(word.to_string(alloc)?)?;
        }
    }
    Ok(arguments)
}

/// Returns the name of `command` in results.
fn command_name(command: Command) -> &'static str {
    match command {
        Command::Lines => "lines",
        Command::Demo => "demo",
        Command::Help => "help",
        Command::Version => "version",
        Command::Usage => "usage",
    }
}

/// Reads the outcome of a run from the next words: `lines N refused N` for a report, or the name of
/// an error: `read`, `write` or `memory`. The error is `Word` for any other words.
fn read_outcome(words: &mut Words) -> Result<Result<Report, RunError>, Fault> {
    match words.read()? {
        "lines" => read_report(words).map(Ok),
        word => run_error_named(word).map(Err),
    }
}

/// Reads the words `N refused N`, which follow the word `lines`, as a report. The error is `Word`
/// for any other words.
fn read_report(words: &mut Words) -> Result<Report, Fault> {
    let lines = words.read_number()?;
    if words.read()? != "refused" {
        return Err(Fault::Word);
    }
    let refused = words.read_number()?;
    Ok(Report { lines, refused })
}

/// Returns the error of a run that is named `word`: `read`, `write` or `memory`. The error is
/// `Word` for any other word.
fn run_error_named(word: &str) -> Result<RunError, Fault> {
    match word {
        "read" => Ok(RunError::Read),
        "write" => Ok(RunError::Write),
        "memory" => Ok(RunError::Memory),
        _ => Err(Fault::Word),
    }
}
