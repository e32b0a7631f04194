//! Compares two inputs of documents, from two readers to a writer.

ghost use Rattle.std.specs.Prelude.{◌≡◌, ◌⊎◌, ℕ, List, Some, IfErr, IfOk, MatchResult};
ghost use Rattle.std.specs.Io.KnownBytes.{Appends};
ghost use Rattle.document_run.specs.Faults.{IsDocumentFault, IsWrite};
ghost use Rattle.document_run.specs.Run.{IsDocumentReportOf};

use crate::error::DocumentError;
use crate::options::DocumentOptions;
use crate::report::{Report, report_of};
use crate::sides::sides_of;
use diff_keys::outcome::Outcome;
use diff_run::run::Input;
use std::alloc::Global;
use std::io::{Read, Write};

/// Reads and compares two inputs, and returns the report and the outcome. Fails with any error of
/// `DocumentError` but `Write`, since nothing is written.
fn report_on<L: Read + Drop, R: Read + Drop>(
    alloc: Global,
    left: Input<'_, L>,
    right: Input<'_, R>,
    options: &DocumentOptions<'_>,
) -> Result<Report, DocumentError>
    ensures { MatchResult result
        (λ report. (left_text right_text : List ℕ) → L.remaining left.entry.reader ≡ Some left_text
        → R.remaining right.entry.reader ≡ Some right_text
        → IsDocumentReportOf options.now left_text right_text left.entry.name.now
        right.entry.name.now report.text.items report.outcome)
        (λ error. (left_text right_text : List ℕ) → L.remaining left.entry.reader ≡ Some left_text
        → R.remaining right.entry.reader ≡ Some right_text
        → IsDocumentFault options.now left_text right_text error) }
{
    let sides = sides_of(alloc, left, right, options)?;
    let report = report_of(alloc, &sides, options)?;
    Ok(report)
}

/// Compares two inputs of documents, writes the report to `out`, and returns the outcome. The
/// inputs are read completely, and the report is made in memory, before anything is written. Fails
/// with `Write` if a write fails. After any other error of `DocumentError` nothing was written.
pub fn run_documents<L: Read + Drop, R: Read + Drop, W: Write>(
    alloc: Global,
    left: Input<'_, L>,
    right: Input<'_, R>,
    out: &mut W,
    options: &DocumentOptions<'_>,
) -> Result<Outcome, DocumentError>
    ensures report { IfOk result
        (λ outcome. (left_text right_text : List ℕ) → L.remaining left.entry.reader ≡ Some left_text
        → R.remaining right.entry.reader ≡ Some right_text → (written : List ℕ)
        × Appends (W.contents out.old) (W.contents out.new) written
        × IsDocumentReportOf options.now left_text right_text left.entry.name.now
        right.entry.name.now written outcome) }
    ensures fault { IfErr result
        (λ error. (left_text right_text : List ℕ) → L.remaining left.entry.reader ≡ Some left_text
        → R.remaining right.entry.reader ≡ Some right_text
        → IsDocumentFault options.now left_text right_text error) }
    ensures nothing_written { IfErr result (λ error. (out.new ≡ out.old) ⊎ IsWrite error) }
{
    let report = report_on(alloc, left, right, options)?;
    match out.write_all(&report.text) {
        Ok(()) => Ok(report.outcome),
        Err(cause) => Err(DocumentError::Write { cause }),
    }
}
