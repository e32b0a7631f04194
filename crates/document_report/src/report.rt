//! Writes the report of a comparison of documents.

ghost use Rattle.std.specs.List.{concat};
ghost use Rattle.std.specs.Prelude.{◌≡◌, ◌≤◌, ◌++◌, length, take, OnOk};
ghost use Rattle.document_words.specs.Sides.{AreDocumentSides, NamesDocuments};
ghost use Rattle.document_report.specs.Documents.{HoldDocuments};
ghost use Rattle.document_report.specs.Forms.{all_lines, end_text, format_text};

use crate::pairs::push_pairs;
use diff_keys::matching::Matching;
use diff_report::lines::Alone;
use diff_report::summary::{difference_count, push_rest};
use diff_words::formats::Format;
use document_words::counts::{push_counts, push_summary};
use document_words::lines::push_documents_alone;
use document_words::sides::DocumentSides;
use document_words::skipped::push_skipped_lines;
use std::alloc::{AllocError, Global};

/// Appends the lines of the first `limit` differences: the changed documents in the order of the
/// left file, then the removed documents, then the added documents. `changed` has the indices of
/// the matched pairs that differ.
fn push_lines(
    alloc: Global,
    out: &mut Vec<u8>,
    format: Format,
    sides: &DocumentSides<'_>,
    matching: &Matching,
    changed: &[usize],
    limit: usize,
) -> Result<(), AllocError>
    requires sides { AreDocumentSides sides.now }
    requires documents { HoldDocuments sides.now }
    requires rows { NamesDocuments sides.now matching.now changed.now }
    ensures { OnOk result
        (out.new.items ≡ out.old.items
        ++ concat (take limit (all_lines format sides.now matching.now changed.now))) }
{
    let (left, right) = (&sides.left, &sides.right);
    let (removed, added) = (&matching.removed, &matching.added);
    push_pairs(alloc, out, format, sides, matching, changed, limit)?;
    let room = limit.saturating_sub(changed.len());
    push_documents_alone(out, format, Alone::Removed, sides, left, removed, room)?;
    let room = room.saturating_sub(removed.len());
    push_documents_alone(out, format, Alone::Added, sides, right, added, room)?;
    Ok(())
}

/// Appends the end of a report. A text report ends with the number of differences beyond `limit`,
/// the summary, and how many lines were skipped. The number is left out if there are none or if
/// `limit` is 0 (`push_rest`). A JSON report ends with the line of the counts. `changed` is the
/// number of matched pairs that differ.
fn push_end(
    out: &mut Vec<u8>,
    format: Format,
    sides: &DocumentSides<'_>,
    matching: &Matching,
    changed: usize,
    limit: usize,
) -> Result<(), AllocError>
    requires { changed ≤ length matching.now.left_rows.items }
    ensures { OnOk result
        (out.new.items ≡ out.old.items ++ end_text format sides.now matching.now changed limit) }
{
    match format {
        Format::Text => {
            push_rest(out, difference_count(matching, changed), limit)?;
            push_summary(out, matching, changed)?;
            push_skipped_lines(out, sides)?;
            Ok(())
        }
        Format::Json => push_counts(out, sides, matching, changed, limit),
    }
}

/// Appends the report of a comparison of documents: the lines of the first `limit` differences, and
/// then the counts. `changed` has the indices of the matched pairs that differ. The only error is a
/// failed allocation.
pub fn push_document_report(
    alloc: Global,
    out: &mut Vec<u8>,
    format: Format,
    sides: &DocumentSides<'_>,
    matching: &Matching,
    changed: &[usize],
    limit: usize,
) -> Result<(), AllocError>
    requires sides { AreDocumentSides sides.now }
    requires documents { HoldDocuments sides.now }
    requires rows { NamesDocuments sides.now matching.now changed.now }
    ensures { OnOk result
        (out.new.items ≡ out.old.items
        ++ format_text format sides.now matching.now changed.now limit) }
{
    push_lines(alloc, out, format, sides, matching, changed, limit)?;
    push_end(out, format, sides, matching, changed.len(), limit)?;
    Ok(())
}
