//! A case: an input or the demo of `polars_tables_lines`, and the numbers of reads and writes that
//! succeed.

use crate::manner::Manner;
use crate::slow_reader::SlowReader;
use crate::slow_writer::SlowWriter;
use anyhow::{Context, Result};
use polars_tables_lines::demo::demo;
use polars_tables_lines::running::{Report, RunError, run};
use std::alloc::Global;

/// Runs the case that `line` describes, and returns the outcome and the bytes that the writer
/// accepted, as text. Fails if `line` describes no case.
pub fn answer(alloc: Global, line: &str) -> Result<String> {
    let (manner, line) = Manner::read(line)?;
    match line.strip_prefix("demo ") {
        Some(writes) => answer_demo(alloc, writes, manner),
        None => answer_input(alloc, line, manner),
    }
}

/// Runs the commands of an input, and returns the outcome and the bytes that the writer accepted,
/// as text. `line` is `READS WRITES BYTES` or `READS WRITES BYTES TIMES PIECE`. Fails if `line` has
/// another form.
fn answer_input(alloc: Global, line: &str, manner: Manner) -> Result<String> {
    let (reads, rest) = line.split_once(' ').context("no reads")?;
    let (writes, bytes) = rest.split_once(' ').context("no writes")?;
    let input = read_input(alloc, bytes)?;
    answer_run(alloc, &input, reads, writes, manner)
}

/// Returns the input that `text` describes: the bytes of its first word and, if two more words
/// `TIMES PIECE` follow, the bytes of `PIECE` repeated `TIMES` times. Fails if a word is malformed.
fn read_input(alloc: Global, text: &str) -> Result<Vec<u8>> {
    let Some((bytes, more)) = text.split_once(' ') else {
        return read_bytes(alloc, text);
    };
    let (times, piece) = more.split_once(' ').context("no bytes to repeat")?;
    let mut input = read_bytes(alloc, bytes)?;
    push_pieces(alloc, &mut input, times, piece)?;
    Ok(input)
}

/// Appends to `input` the bytes that the word `piece` describes, repeated `times` times. Fails if
/// `times` is not a number, or `piece` is malformed.
fn push_pieces(alloc: Global, input: &mut Vec<u8>, times: &str, piece: &str) -> Result<()> {
    let times = times.parse()?;
    push_repeated(input, times, &read_bytes(alloc, piece)?)
}

/// Returns the bytes that `word` describes: `x`, and two hexadecimal digits for each byte. Fails if
/// `word` does not have this form.
fn read_bytes(alloc: Global, word: &str) -> Result<Vec<u8>> {
    let digits = word.strip_prefix('x').context("no bytes")?;
    Ok(hex::decode(alloc, digits)?)
}

/// Appends the bytes of `piece` to `input`, `times` times.
fn push_repeated(input: &mut Vec<u8>, times: u32, piece: &[u8]) -> Result<()> {
    for _ in 0..times {
        input.extend_from_slice(piece)?;
    }
    Ok(())
}

/// Runs the commands of `input`, and returns the outcome and the bytes that the writer accepted, as
/// text. `reads` and `writes` are the numbers of calls that succeed. Fails if one of them is not a
/// number.
fn answer_run(
    alloc: Global,
    input: &[u8],
    reads: &str,
    writes: &str,
    manner: Manner,
) -> Result<String> {
    let reads = reads.parse()?;
    let writes = writes.parse()?;
    let mut reader = SlowReader::new(input, reads, manner);
    let mut writer = SlowWriter::new(alloc, writes, manner);
    let outcome = run(alloc, &mut reader, &mut writer);
    write_outcome(alloc, outcome_text(alloc, &outcome), writer.taken())
}

/// Runs the demo, and returns the outcome and the bytes that the writer accepted, as text. `writes`
/// is the number of writes that succeed. Fails if it is not a number.
fn answer_demo(alloc: Global, writes: &str, manner: Manner) -> Result<String> {
    let mut writer = SlowWriter::new(alloc, writes.parse()?, manner);
    let outcome = demo(alloc, &mut writer);
    write_outcome(alloc, demo_text(alloc, &outcome), writer.taken())
}

/// Returns the outcome `said`, ` x`, and `taken`, the bytes that the writer accepted, in
/// hexadecimal. If `said` is an error, returns this error.
fn write_outcome(alloc: Global, said: Result<String>, taken: &[u8]) -> Result<String> {
    let said = said?;
    let taken = hex::encode(alloc, taken)?;
    Ok(format!(in alloc; "{said} x{taken}")?)
}

/// Returns the text of the outcome of a run: the numbers of lines and of refused lines, or the
/// error.
fn outcome_text(alloc: Global, outcome: &Result<Report, RunError>) -> Result<String> {
    let text = match outcome {
        Ok(report) => format!(in alloc; "ok lines {} refused {}", report.lines, report.refused),
        Err(fault) => fault.to_string(alloc),
    };
    Ok(text?)
}

/// Returns the text of the outcome of the demo: `ok`, or the error.
fn demo_text(alloc: Global, outcome: &Result<(), RunError>) -> Result<String> {
    let text = match outcome {
        Ok(()) => "ok".to_string(alloc),
        Err(fault) => fault.to_string(alloc),
    };
    Ok(text?)
}
