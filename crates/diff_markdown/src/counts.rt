//! Writes the sentences with the counts, before the table.

ghost use Rattle.std.specs.Prelude.{◌≡◌, ◌++◌, OnOk};
ghost use Rattle.json.specs.Tree.{HasNumbers};
ghost use Rattle.json.specs.Value.{value_view};
ghost use Rattle.diff_markdown.specs.Counts.{columns_note, counts_text, hidden_note, kinds_text};
ghost use Rattle.diff_markdown.specs.Counts.{skipped_note};

use crate::cells::{push_number, push_pairs_cell};
use crate::escapes::push_safe;
use diff_lines::parts::number_at;
use json::Value;
use std::alloc::{AllocError, Global};

/// Appends a colon and the numbers of changed, removed, added and equal rows. `counts` is the JSON
/// line of the counts.
#[tactic(auto, unfolding(crate::specs::Counts::kinds_text))]
fn push_kinds(out: &mut Vec<u8>, counts: &Value<'_>) -> Result<(), AllocError>
    ensures { OnOk result (out.new.items ≡ out.old.items ++ kinds_text (value_view counts.now)) }
{
    out.extend_from_slice(b": ")?;
    push_number(out, counts, "changed")?;
    out.extend_from_slice(b" changed, ")?;
    push_number(out, counts, "removed")?;
    out.extend_from_slice(b" removed, ")?;
    push_number(out, counts, "added")?;
    out.extend_from_slice(b" added, ")?;
    push_number(out, counts, "same")?;
    out.extend_from_slice(b" the same.")?;
    Ok(())
}

/// Appends `By column:` and then `pairs`, a text with the number of differing cells for each
/// column. Appends nothing if `pairs` is empty.
fn push_columns(out: &mut Vec<u8>, pairs: &[u8]) -> Result<(), AllocError>
    ensures { OnOk result (out.new.items ≡ out.old.items ++ columns_note pairs.now) }
{
    if pairs.is_empty() {
        return Ok(());
    }
    out.extend_from_slice(b" By column: ")?;
    out.extend_from_slice(pairs)?;
    out.push(b'.')?;
    Ok(())
}

/// Appends the number of skipped lines of each file. `counts` is the JSON line of the counts.
/// Appends nothing if it has no number as its member `left_skipped`.
#[tactic(auto, unfolding(crate::specs::Counts::skipped_note))]
fn push_skipped(out: &mut Vec<u8>, counts: &Value<'_>) -> Result<(), AllocError>
    ensures { OnOk result (out.new.items ≡ out.old.items ++ skipped_note (value_view counts.now)) }
{
    if number_at(counts, "left_skipped").is_empty() {
        return Ok(());
    }
    out.extend_from_slice(b" Skipped lines: ")?;
    push_number(out, counts, "left_skipped")?;
    out.extend_from_slice(b" left, ")?;
    push_number(out, counts, "right_skipped")?;
    out.extend_from_slice(b" right.")?;
    Ok(())
}

/// Appends `Not shown:` and then `count`, the number of differences that the report leaves out, as
/// decimal text. Appends nothing if `count` is `0`.
fn push_hidden(out: &mut Vec<u8>, count: &str) -> Result<(), AllocError>
    ensures { OnOk result (out.new.items ≡ out.old.items ++ hidden_note count.now) }
{
    if count == "0" {
        return Ok(());
    }
    out.extend_from_slice(b" Not shown: ")?;
    push_safe(out, count.as_bytes())?;
    out.extend_from_slice(b" more.")?;
    Ok(())
}

/// Appends all counts of a report: rows by kind, differing cells by column, skipped lines, and
/// differences that are not shown. `counts` is the JSON line of the counts.
#[tactic(auto, unfolding(crate::specs::Counts::counts_text))]
pub(crate) fn push_counts(
    alloc: Global,
    out: &mut Vec<u8>,
    counts: &Value<'_>,
) -> Result<(), AllocError>
    requires { HasNumbers (value_view counts.now) }
    ensures { OnOk result (out.new.items ≡ out.old.items ++ counts_text (value_view counts.now)) }
{
    let mut columns = Vec::new(alloc);
    push_pairs_cell(alloc, &mut columns, counts, "columns")?;
    push_kinds(out, counts)?;
    push_columns(out, &columns)?;
    push_skipped(out, counts)?;
    push_hidden(out, number_at(counts, "not_shown"))?;
    Ok(())
}
