//! Writes the numbers of documents that differ.

ghost use Rattle.std.specs.Fmt.{decimal};
ghost use Rattle.std.specs.Prelude.{◌≡◌, ◌≤◌, ◌++◌, length, OnOk};
ghost use Rattle.document_words.specs.Counts.{counts_object, summary_text, totals_text};

use crate::sides::DocumentSides;
use crate::skipped::push_skipped_members;
use diff_json::counts;
use diff_keys::matching::Matching;
use diff_report::summary::difference_count;
use diff_words::decimals::push_decimal;
use std::alloc::AllocError;

/// Appends the number `count`, and the text `what` after it.
fn push_count(out: &mut Vec<u8>, count: usize, what: &[u8]) -> Result<(), AllocError>
    ensures { OnOk result (out.new.items ≡ out.old.items ++ decimal count ++ what.now) }
{
    push_decimal(out, count)?;
    out.extend_from_slice(what)?;
    Ok(())
}

/// Appends a line of text with the four counts: `1 changed, 2 removed, 0 added, 5 the same.`
#[tactic(auto, unfolding(crate::specs::Counts::totals_text))]
fn push_totals(
    out: &mut Vec<u8>,
    changed: usize,
    removed: usize,
    added: usize,
    same: usize,
) -> Result<(), AllocError>
    ensures { OnOk result
        (out.new.items ≡ out.old.items ++ totals_text changed removed added same) }
{
    push_count(out, changed, b" changed, ")?;
    push_count(out, removed, b" removed, ")?;
    push_count(out, added, b" added, ")?;
    push_count(out, same, b" the same.\n")?;
    Ok(())
}

/// Appends the summary of a text report: a line with the numbers of changed, removed and added
/// documents, and of pairs without a difference to report. `changed` is the number of matched pairs
/// that differ.
pub fn push_summary(
    out: &mut Vec<u8>,
    matching: &Matching,
    changed: usize,
) -> Result<(), AllocError>
    requires { changed ≤ length matching.now.left_rows.items }
    ensures { OnOk result (out.new.items ≡ out.old.items ++ summary_text matching.now changed) }
{
    let same = matching.left_rows.len() - changed;
    push_totals(
        out,
        changed,
        matching.removed.len(),
        matching.added.len(),
        same,
    )?;
    Ok(())
}

/// Appends the last line of a JSON report: the counts of documents, and also of skipped lines if
/// lines may be skipped. `changed` is the number of matched pairs that differ. `limit` is the most
/// differences with a line of their own; the rest are counted as `not_shown`.
#[tactic(auto, unfolding(crate::specs::Counts::counts_json, crate::specs::Counts::counts_object))]
pub fn push_counts(
    out: &mut Vec<u8>,
    sides: &DocumentSides<'_>,
    matching: &Matching,
    changed: usize,
    limit: usize,
) -> Result<(), AllocError>
    requires { changed ≤ length matching.now.left_rows.items }
    ensures { OnOk result
        (out.new.items ≡ out.old.items ++ counts_object sides.now matching.now changed limit) }
{
    let same = matching.left_rows.len() - changed;
    let not_shown = difference_count(matching, changed).saturating_sub(limit as u128);
    let (removed, added) = (matching.removed.len(), matching.added.len());
    out.extend_from_slice(br#"{"kind":"counts","#)?;
    counts::push_totals(out, changed, removed, added, same, not_shown)?;
    push_skipped_members(out, sides)?;
    out.extend_from_slice(b"}\n")?;
    Ok(())
}
