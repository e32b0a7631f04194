//! Compares two CSV inputs, from two readers to a writer.

ghost use Rattle.std.specs.Prelude.{◌≡◌, ◌⊎◌, ℕ, List, Some, IfErr, IfOk, MatchResult};
ghost use Rattle.std.specs.Io.KnownBytes.{Appends};
ghost use Rattle.diff_run.specs.Faults.{IsRunFault, IsWrite};
ghost use Rattle.diff_run.specs.Run.{IsReportOf};

use crate::error::RunError;
use crate::heads::heads_of;
use crate::inputs::opened;
use crate::options::Options;
use crate::report::{Report, report_of};
use crate::sides::{Files, sides_of};
use diff_columns::error::Side;
use diff_keys::outcome::Outcome;
use std::alloc::Global;
use std::io::{Read, Write};

/// An input, with its name for the report.
#[derive(Drop)]
pub struct Input<'a, R> {
    /// The name of the input in the report.
    pub name: &'a [u8],
    /// The reader that gives the text: CSV, or JSON documents for `document_run`.
    pub reader: R,
}

/// Reads and compares two inputs, and returns the report. Can fail with any `RunError` except
/// `Write`.
fn report_on<L: Read + Drop, R: Read + Drop>(
    alloc: Global,
    left: Input<'_, L>,
    right: Input<'_, R>,
    options: &Options<'_>,
) -> Result<Report, RunError>
    ensures { MatchResult result
        (λ report. (left_text right_text : List ℕ) → L.remaining left.entry.reader ≡ Some left_text
        → R.remaining right.entry.reader ≡ Some right_text
        → IsReportOf options.now left_text right_text left.entry.name.now right.entry.name.now
        report.text.items report.outcome)
        (λ error. (left_text right_text : List ℕ) → L.remaining left.entry.reader ≡ Some left_text
        → R.remaining right.entry.reader ≡ Some right_text
        → IsRunFault options.now left_text right_text error) }
{
    let files = Files {
        left: left.name,
        right: right.name,
    };
    let left = opened(alloc, left.reader, options, Side::Left)?;
    let right = opened(alloc, right.reader, options, Side::Right)?;
    let heads = heads_of(alloc, &left, &right, options)?;
    let sides = sides_of(alloc, left, right, &heads, files, options)?;
    report_of(alloc, &sides, &heads, files, options)
}

/// Compares two CSV inputs, writes the report to `out`, and returns the outcome. Can fail with any
/// `RunError`. The inputs are read completely and the report is made in memory before anything is
/// written. So something may have been written only if the error is `Write`.
pub fn run<L: Read + Drop, R: Read + Drop, W: Write>(
    alloc: Global,
    left: Input<'_, L>,
    right: Input<'_, R>,
    out: &mut W,
    options: &Options<'_>,
) -> Result<Outcome, RunError>
    ensures report { IfOk result
        (λ outcome. (left_text right_text : List ℕ) → L.remaining left.entry.reader ≡ Some left_text
        → R.remaining right.entry.reader ≡ Some right_text → (written : List ℕ)
        × Appends (W.contents out.old) (W.contents out.new) written
        × IsReportOf options.now left_text right_text left.entry.name.now right.entry.name.now
        written outcome) }
    ensures fault { IfErr result
        (λ error. (left_text right_text : List ℕ) → L.remaining left.entry.reader ≡ Some left_text
        → R.remaining right.entry.reader ≡ Some right_text
        → IsRunFault options.now left_text right_text error) }
    ensures nothing_written { IfErr result (λ error. (out.new ≡ out.old) ⊎ IsWrite error) }
{
    let report = report_on(alloc, left, right, options)?;
    match out.write_all(&report.text) {
        Ok(()) => Ok(report.outcome),
        Err(cause) => Err(RunError::Write { cause }),
    }
}
