//! Runs the commands in all lines of an input, and writes the results.

ghost use Rattle.std.specs.Prelude.{◌≡◌, ◌⊎◌, ◌++◌, ◌∷◌, [], length, vec_len, ◌<◌, ◌==◌, ◌+◌, ◌^◌};
ghost use Rattle.std.specs.Prelude.{IfOk, IfErr, IfSome, OnOk};
ghost use Rattle.std.specs.List.{position};
ghost use Rattle.std.specs.String.{string_bytes};
ghost use Rattle.std.specs.Io.KnownBytes.{Appends, Keeps};
ghost use Rattle.polars_tables_rows.specs.Faults.{Tells};
ghost use Rattle.polars_tables_lines.specs.Output.{fault_word, meaning_of, refusal, lines_of};
ghost use Rattle.polars_tables_lines.specs.Output.{output_of, Reports};
ghost use Rattle.polars_tables_lines.specs.Answers.{AddsLine};
ghost use Rattle.polars_tables_lines.specs.Reading.{ReadsOn};
ghost use Rattle.polars_tables_lines.specs.declared.running.RunError.TheVariants.{Memory};

use crate::line::{LineError, answer_line};
use std::alloc::{AllocError, AllocFailed, Global};
use std::io::{ErrorKind, Read, Write};
use thiserror::Error;

/// The number of lines that were read, and how many of them were refused.
#[derive(Clone, Copy, Debug, PartialEq, Eq)]
pub struct Report {
    /// The number of lines, including refused ones.
    pub lines: u64,
    /// The number of refused lines.
    pub refused: u64,
}

/// The reason why a run stopped before its end.
#[derive(Debug, Drop, PartialEq, Eq, Error)]
pub enum RunError {
    /// A read failed, or the input had not ended after 2^32 reads. Nothing was written.
    #[error("read failed")]
    Read,
    /// A write failed. The beginning of the output may have been written.
    #[error("write failed")]
    Write,
    /// An allocation failed. Nothing was written.
    #[error("out of memory")]
    Memory,
}

impl From<AllocError> for RunError {
    ghost from_gives = { λ _ e. e ≡ Memory };

    fn from(_error: AllocError) -> RunError {
        RunError::Memory
    }
}

/// The maximum number of reads in a run.
const READS: u64 = 1 << 32;

/// The maximum number of bytes in a read.
const CHUNK: usize = 1 << 16;

/// Allocates a buffer for the bytes of one read.
fn make_chunk(alloc: Global) -> Result<Vec<u8>, AllocError>
    ensures { IfOk result (λ chunk. 0 < vec_len chunk) }
{
    vec![in alloc; 0u8; CHUNK]
}

/// Reads once from `reader`, with `chunk` as the buffer, and appends the bytes to `input`. Returns
/// whether the reader was at its end. If the read was interrupted, appends nothing and returns
/// `false`. The error is `Read` if the read fails otherwise, or `Memory` if an allocation fails.
fn read_once<R: Read>(
    reader: &mut R,
    chunk: &mut Vec<u8>,
    input: &mut Vec<u8>,
) -> Result<bool, RunError>
    requires { 0 < vec_len chunk.old }
    ensures room { vec_len chunk.new ≡ vec_len chunk.old }
    ensures bytes { IfOk result
        (λ ended. ReadsOn (R.remaining reader.old) (R.remaining reader.new) input.old.items
        input.new.items ended) }
    ensures fault { IfErr result (λ e. (e ≡ RunError.Read) ⊎ (e ≡ RunError.Memory)) }
{
    match reader.read(chunk.as_mut_slice()) {
        Ok(0) => Ok(true),
        Ok(n) => {
            input.extend_from_slice(&chunk[..n])?;
            Ok(false)
        }
        Err(error) => {
            if error.kind() == ErrorKind::Interrupted {
                Ok(false)
            } else {
                Err(RunError::Read)
            }
        }
    }
}

/// Reads all bytes of a reader. The error is `Read` if a read fails or the end does not come within
/// `READS` reads, or `Memory`.
fn read_input<R: Read>(alloc: Global, reader: &mut R) -> Result<Vec<u8>, RunError>
    ensures bytes { IfOk result
        (λ input. IfSome (R.remaining reader.old) (λ bytes. input.items ≡ bytes)) }
    ensures fault { IfErr result (λ e. (e ≡ RunError.Read) ⊎ (e ≡ RunError.Memory)) }
{
    let mut input = Vec::new(alloc);
    let mut chunk = make_chunk(alloc)?;
    for _ in 0..READS {
        if read_once(reader, &mut chunk, &mut input)? {
            return Ok(input);
        }
    }
    Err(RunError::Read)
}

/// The output for the lines so far: the text of their results, and the numbers of lines and of
/// refused lines.
#[derive(Drop)]
struct Answers {
    text: String,
    report: Report,
}

/// Returns the word that stands for a fault in the output.
fn fault_word(fault: &LineError) -> &'static str
    ensures { result.now ≡ fault_word fault.now }
{
    match fault {
        LineError::Op => "op",
        LineError::TypeName => "type",
        LineError::Row => "row",
        LineError::Length => "length",
        LineError::Range => "range",
        LineError::Memory => "memory",
    }
}

/// Runs the command in a line of bytes, and returns its result as text. The error is `Op` if the
/// line is not UTF-8, or an error of `answer_line`.
fn answer_bytes(alloc: Global, line: &[u8]) -> Result<String, LineError>
    ensures { Tells string_bytes (meaning_of line.now) result }
{
    match str::from_utf8(line) {
        Ok(line) => answer_line(alloc, line),
        Err(_) => Err(LineError::Op),
    }
}

/// Appends the line of a refusal to the text, without a line feed: `line N: refused: WORD`. N is
/// `number`, and WORD stands for the fault.
fn push_refusal(
    alloc: Global,
    text: &mut String,
    number: u64,
    fault: &LineError,
) -> Result<(), AllocError>
    ensures { OnOk result
        (string_bytes text.new ≡ string_bytes text.old ++ refusal number fault.now) }
{
    let digits = number.to_string(alloc)?;
    text.push_str("line ")?;
    text.push_str(digits.as_str())?;
    text.push_str(": refused: ")?;
    text.push_str(fault_word(fault))?;
    Ok(())
}

impl Answers {
    /// Creates an output without lines.
    fn new(alloc: Global) -> Answers
        ensures text { string_bytes result.text ≡ [] }
        ensures report { result.report ≡ record { lines = 0; refused = 0 } }
    {
        let report = Report {
            lines: 0,
            refused: 0,
        };
        Answers {
            text: String::new(alloc),
            report,
        }
    }

    /// Runs the command in the next line, appends its result or its refusal to the text, and counts
    /// the line. The error is `Memory`.
    fn add(&mut self, alloc: Global, line: &[u8]) -> Result<(), RunError>
        requires lines { self.old.report.lines + 1 < 2 ^ 64 }
        requires refused { self.old.report.refused + 1 < 2 ^ 64 }
        ensures added { OnOk result (AddsLine self.old self.new line.now) }
        ensures fault { IfErr result (λ e. e ≡ RunError.Memory) }
    {
        let number = self.report.lines + 1;
        match answer_bytes(alloc, line) {
            Ok(text) => self.text.push_str(text.as_str())?,
            Err(LineError::Memory) => return Err(RunError::Memory),
            Err(fault) => {
                push_refusal(alloc, &mut self.text, number, &fault)?;
                self.report.refused += 1;
            }
        }
        self.text.push_str("\n")?;
        self.report.lines = number;
        Ok(())
    }
}

/// Returns the index of the first line feed of `text`, or `None` if there is none.
fn line_end(text: &[u8]) -> Option<usize>
    ensures { result ≡ position (λ c. c == 10) text.now }
{
    text.iter().position(|c| *c == b'\n')
}

/// Splits a text that is not empty after its first line. Returns the line without its line feed,
/// and the text after the line feed.
fn split_line(text: &[u8]) -> (&[u8], &[u8])
    requires { 0 < length text.now }
    ensures lines { lines_of text.now ≡ result.0.now ∷ lines_of result.1.now }
    ensures shorter { length result.1.now < length text.now }
{
    match line_end(text) {
        Some(end) => (&text[..end], &text[end + 1..]),
        None => (text, &[]),
    }
}

/// Runs the commands in all lines of an input, and returns the output. The error is `Memory`.
fn answer_lines(alloc: Global, input: &[u8]) -> Result<Answers, RunError>
    ensures text { IfOk result (λ answers. string_bytes answers.text ≡ output_of input.now) }
    ensures report { IfOk result (λ answers. Reports input.now answers.report) }
    ensures fault { IfErr result (λ e. e ≡ RunError.Memory) }
{
    let mut answers = Answers::new(alloc);
    let mut rest = input;
    while !rest.is_empty() {
        let (line, more) = split_line(rest);
        answers.add(alloc, line)?;
        rest = more;
    }
    Ok(answers)
}

/// Writes a whole text, and flushes the writer. The error is `Write`.
pub(crate) fn write_text<W: Write>(writer: &mut W, text: &str) -> Result<(), RunError>
    ensures written { OnOk result
        (Appends (W.contents writer.old) (W.contents writer.new) text.now) }
    ensures fault { IfErr result (λ e. e ≡ RunError.Write) }
{
    if writer.write_all(text.as_bytes()).is_err() {
        return Err(RunError::Write);
    }
    if writer.flush().is_err() {
        return Err(RunError::Write);
    }
    Ok(())
}

/// Reads the whole input, and then writes the result of each line, with a line feed after it. A
/// refused line has the result `line N: refused: WORD`, where N counts the lines from 1. Returns
/// the number of lines and of refused lines. The error is `Read` if a read fails or the input does
/// not end within 2^32 reads, `Write` if a write fails, or `Memory`. Something may have been
/// written only if the error is `Write`.
pub fn run<R: Read, W: Write>(
    alloc: Global,
    reader: &mut R,
    writer: &mut W,
) -> Result<Report, RunError>
    // Writes exactly the results of the bytes that the reader had.
    ensures written { OnOk result (IfSome (R.remaining reader.old) (λ input.
        Appends (W.contents writer.old) (W.contents writer.new) (output_of input))) }
    ensures reported { IfOk result
        (λ report. IfSome (R.remaining reader.old) (λ input. Reports input report)) }

    // Writes nothing on an error, except if a write failed.
    ensures unwritten { IfErr result (λ e. (e ≡ RunError.Write)
        ⊎ Keeps (W.contents writer.old) (W.contents writer.new)) }
{
    let input = read_input(alloc, reader)?;
    let answers = answer_lines(alloc, &input)?;
    write_text(writer, &answers.text)?;
    Ok(answers.report)
}
