//! Writes the lines of differences, as text or JSON.

ghost use Rattle.std.specs.List.{concat, flat_map};
ghost use Rattle.std.specs.Prelude.{◌≡◌, ◌<◌, ◌++◌, All, length, take, OnOk};
ghost use Rattle.polars_arrays_bytes.specs.OffsetStrings.{offset_strings};
ghost use Rattle.diff_report.specs.Sides.{AreSides, IsSide, NamesRows, naming_of};
ghost use Rattle.diff_report.specs.Summary.{AreTotalsOf};
ghost use Rattle.diff_report.specs.declared.sides.Sides.{Sides};
ghost use Rattle.diff_run.specs.Lines.{all_lines, end_text, pair_at, row_alone};
ghost use Rattle.diff_tables.specs.Comparison.{ArePairs};
ghost use Rattle.diff_tables.specs.declared.compare.Comparison.{Comparison};

use diff_json::counts::push_counts;
use diff_json::lines::{push_alone, push_pair};
use diff_keys::matching::Matching;
use diff_report::lines::{Alone, push_pair_line, push_side_line};
use diff_report::sides::{Side, Sides};
use diff_report::summary::{Totals, push_rest, push_summary};
use diff_tables::compare::Comparison;
use diff_words::formats::Format;
use polars_arrays_bytes::binary::BinaryArray;
use std::alloc::AllocError;

/// Appends the line of the matched pair at index `k` of `matching`. The rows of the pair differ.
fn push_pair_at(
    out: &mut Vec<u8>,
    format: Format,
    sides: &Sides,
    matching: &Matching,
    k: usize,
) -> Result<(), AllocError>
    requires sides { AreSides sides.now }
    requires rows { ArePairs sides.now.left.table.rows sides.now.right.table.rows
        matching.now.left_rows.items matching.now.right_rows.items }
    requires place { k < length matching.now.left_rows.items }
    ensures { OnOk result
        (out.new.items ≡ out.old.items ++ pair_at format sides.now matching.now k) }
{
    let i = matching.left_rows[k] as usize;
    let j = matching.right_rows[k] as usize;
    match format {
        Format::Text => push_pair_line(out, sides, i, j),
        Format::Json => push_pair(out, sides, i, j),
    }
}

/// Appends the line of row `i` of `side`, which has no partner. `alone` says whether the row is
/// reported as removed or as added.
fn push_row(
    out: &mut Vec<u8>,
    format: Format,
    alone: Alone,
    sides: &Sides,
    side: &Side,
    i: usize,
) -> Result<(), AllocError>
    requires sides { AreSides sides.now }
    requires side { IsSide (naming_of sides.now) side.now }
    requires row { i < length side.now.table.rows }
    ensures { OnOk result
        (out.new.items ≡ out.old.items ++ row_alone format alone (naming_of sides.now) side.now i) }
{
    match (format, alone) {
        (Format::Text, Alone::Removed) => push_side_line(out, b'-', sides, side, i),
        (Format::Text, Alone::Added) => push_side_line(out, b'+', sides, side, i),
        (Format::Json, Alone::Removed) => push_alone(out, b"removed", sides, side, i),
        (Format::Json, Alone::Added) => push_alone(out, b"added", sides, side, i),
    }
}

/// Appends the lines of the first `limit` changed pairs of `comparison`.
fn push_pairs(
    out: &mut Vec<u8>,
    format: Format,
    sides: &Sides,
    comparison: &Comparison,
    limit: usize,
) -> Result<(), AllocError>
    requires sides { AreSides sides.now }
    requires rows { NamesRows sides.now comparison.now }
    ensures { OnOk result
        (out.new.items ≡ out.old.items
        ++ flat_map (pair_at format sides.now comparison.now.matching)
        (take limit comparison.now.changed.items)) }
{
    for n in 0..comparison.changed.len().min(limit) {
        let k = comparison.changed[n];
        push_pair_at(out, format, sides, &comparison.matching, k)?;
    }
    Ok(())
}

/// Appends the lines of the first `limit` of `rows`, which are indices of rows of `side` without a
/// partner. `alone` says whether the rows are reported as removed or as added.
fn push_rows(
    out: &mut Vec<u8>,
    format: Format,
    alone: Alone,
    sides: &Sides,
    side: &Side,
    rows: &[u32],
    limit: usize,
) -> Result<(), AllocError>
    requires sides { AreSides sides.now }
    requires side { IsSide (naming_of sides.now) side.now }
    requires rows { All (λ i. i < length side.now.table.rows) rows.now }
    ensures { OnOk result
        (out.new.items ≡ out.old.items
        ++ flat_map (row_alone format alone (naming_of sides.now) side.now) (take limit rows.now)) }
{
    for n in 0..rows.len().min(limit) {
        push_row(out, format, alone, sides, side, rows[n] as usize)?;
    }
    Ok(())
}

/// Appends the lines of the first `limit` differences: the changed rows in the order of the left
/// rows, then the removed rows, then the added rows.
pub(crate) fn push_lines(
    out: &mut Vec<u8>,
    format: Format,
    sides: &Sides,
    comparison: &Comparison,
    limit: usize,
) -> Result<(), AllocError>
    requires sides { AreSides sides.now }
    requires rows { NamesRows sides.now comparison.now }
    ensures { OnOk result
        (out.new.items ≡ out.old.items
        ++ concat (take limit (all_lines format sides.now comparison.now))) }
{
    let (left, right) = (&sides.left, &sides.right);
    let Matching { removed, added, .. } = &comparison.matching;
    push_pairs(out, format, sides, comparison, limit)?;
    let room = limit.saturating_sub(comparison.changed.len());
    push_rows(out, format, Alone::Removed, sides, left, removed, room)?;
    let room = room.saturating_sub(removed.len());
    push_rows(out, format, Alone::Added, sides, right, added, room)?;
    Ok(())
}

/// Appends the end of a report. A text report ends with the number of differences without a line
/// (see `push_rest`) and the summary, a JSON report with the line of counts. `names` has the names
/// of the columns, and `counts` for each column the number of changed pairs that differ in it.
/// `limit` is the most differences that have a line.
pub fn push_end(
    out: &mut Vec<u8>,
    format: Format,
    names: &BinaryArray<i64>,
    totals: &Totals,
    counts: &[usize],
    limit: usize,
) -> Result<(), AllocError>
    requires { length counts.now ≡ length (offset_strings (λ x. x) names.now) }
    ensures { OnOk result
        ((s : Sides) (c : Comparison) → (naming_of s).names ≡ offset_strings (λ x. x) names.now
        → AreTotalsOf c totals.now
        → out.new.items ≡ out.old.items ++ end_text format s c counts.now limit) }
{
    match format {
        Format::Text => {
            push_rest(out, totals.differences(), limit)?;
            push_summary(out, names, totals, counts)?;
            Ok(())
        }
        Format::Json => push_counts(out, names, totals, counts, limit),
    }
}
