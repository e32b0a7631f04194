//! Makes the report of two inputs of documents.

ghost use Rattle.std.specs.Prelude.{◌≡◌, IfOk, MatchResult};
ghost use Rattle.document_report.specs.Forms.{format_text};
ghost use Rattle.document_run.specs.Faults.{IsRowsFault};
ghost use Rattle.document_run.specs.Sides.{AreComparable, IsFoundOn, IsReportOn};

use crate::error::DocumentError;
use crate::found::{Found, found_on};
use crate::options::DocumentOptions;
use diff_keys::outcome::{Outcome, outcome_of};
use document_report::report::push_document_report;
use document_words::sides::DocumentSides;
use std::alloc::{AllocError, Global};

/// The report of two inputs, and the outcome of their comparison.
#[derive(Drop)]
pub(crate) struct Report {
    pub(crate) text: Vec<u8>,
    pub(crate) outcome: Outcome,
}

/// Returns the report of the comparison result `found`, in the format and with the limit of
/// `options`.
fn text_of(
    alloc: Global,
    sides: &DocumentSides<'_>,
    found: &Found,
    options: &DocumentOptions<'_>,
) -> Result<Vec<u8>, AllocError>
    requires sides { AreComparable options.now sides.now }
    requires found { IsFoundOn options.now sides.now found.now }
    ensures { IfOk result
        (λ text. text.items
        ≡ format_text options.now.format sides.now found.now.matching found.now.changed.items
        options.now.limit) }
{
    let (matching, changed) = (&found.matching, &found.changed);
    let mut text = Vec::new(alloc);
    let (format, limit) = (options.format, options.limit);
    push_document_report(alloc, &mut text, format, sides, matching, changed, limit)?;
    Ok(text)
}

/// Compares the documents of two inputs, and returns the report and the outcome.
///
/// Fails with `KeyTwice` if `options.unique` is true and two documents of an input have the same
/// key, with `TooManyRows` if an input has more than 2^32 documents, and with `Memory` if an
/// allocation fails.
pub(crate) fn report_of(
    alloc: Global,
    sides: &DocumentSides<'_>,
    options: &DocumentOptions<'_>,
) -> Result<Report, DocumentError>
    requires { AreComparable options.now sides.now }
    ensures { MatchResult result
        (λ report. IsReportOn options.now sides.now report.text.items report.outcome)
        (IsRowsFault options.now sides.now) }
{
    let found = found_on(alloc, sides, options)?;
    let text = text_of(alloc, sides, &found, options)?;
    let outcome = outcome_of(&found.matching, &found.changed, true);
    Ok(Report { text, outcome })
}
