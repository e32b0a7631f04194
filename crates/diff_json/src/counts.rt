//! Writes the JSON line with the counts.

ghost use Rattle.std.specs.Prelude.{◌≡◌, ◌<◌, ◌+◌, ◌++◌, [], if◌then◌else◌, length, codes};
ghost use Rattle.std.specs.Prelude.{IfOk, OnOk};
ghost use Rattle.polars_arrays_bytes.specs.OffsetStrings.{offset_strings};
ghost use Rattle.diff_words.specs.Lists.{gap};
ghost use Rattle.diff_report.specs.Naming.{Naming};
ghost use Rattle.diff_report.specs.Summary.{AreTotalsOf, is_counted};
ghost use Rattle.diff_json.specs.Counts.{column_member, column_members, counts_object};
ghost use Rattle.diff_json.specs.Counts.{totals_members};
ghost use Rattle.diff_tables.specs.declared.compare.Comparison.{Comparison};

use crate::numbers::push_number;
use crate::strings::push_string;
use diff_report::summary::Totals;
use diff_words::lists::push_gap;
use polars_arrays_bytes::binary::BinaryArray;
use polars_arrays_flat::byte_rows::ByteRows;
use std::alloc::AllocError;

/// Appends the member `"COLUMN":COUNT` for a column if its count in `counts` is not 0, with a comma
/// before it if `written` is not 0. `written` is the number of members appended so far. Returns
/// this number after the call.
fn push_if_counted(
    out: &mut Vec<u8>,
    names: &BinaryArray<i64>,
    counts: &[usize],
    column: usize,
    written: usize,
) -> Result<usize, AllocError>
    requires names { column < length (offset_strings (λ x. x) names.now) }
    requires counts { column < length counts.now }
    requires room { written < usize.MAX }
    ensures text { OnOk result
        (out.new.items ≡ out.old.items
        ++ (if is_counted counts.now column then gap (codes ",") written
        ++ column_member (offset_strings (λ x. x) names.now) counts.now column else [])) }
    ensures count { IfOk result
        (λ n. n ≡ written + (if is_counted counts.now column then 1 else 0)) }
{
    if counts[column] == 0 {
        return Ok(written);
    }
    push_gap(out, b",", written)?;
    push_string(out, names.bytes(column))?;
    push_number(out, b":", counts[column])?;
    Ok(written + 1)
}

/// Appends the member `"COLUMN":COUNT` for each column whose count in `counts` is not 0, with
/// commas between the members.
fn push_by_column(
    out: &mut Vec<u8>,
    names: &BinaryArray<i64>,
    counts: &[usize],
) -> Result<(), AllocError>
    requires { length counts.now ≡ length (offset_strings (λ x. x) names.now) }
    ensures { OnOk result
        (out.new.items ≡ out.old.items
        ++ column_members (offset_strings (λ x. x) names.now) counts.now) }
{
    let mut written = 0;
    for column in 0..counts.len() {
        written = push_if_counted(out, names, counts, column, written)?;
    }
    Ok(())
}

/// Appends the members `changed`, `removed`, `added`, `same` and `not_shown` without braces.
/// `not_shown` is the number of differences that have no line of their own.
#[tactic(auto, unfolding(crate::specs::Counts::totals_members))]
pub fn push_totals(
    out: &mut Vec<u8>,
    changed: usize,
    removed: usize,
    added: usize,
    same: usize,
    not_shown: u128,
) -> Result<(), AllocError>
    ensures { OnOk result
        (out.new.items ≡ out.old.items ++ totals_members changed removed added same not_shown) }
{
    push_number(out, br#""changed":"#, changed)?;
    push_number(out, br#","removed":"#, removed)?;
    push_number(out, br#","added":"#, added)?;
    push_number(out, br#","same":"#, same)?;
    push_number(out, br#","not_shown":"#, not_shown)?;
    Ok(())
}

/// Appends the last line of a report, the JSON line with the counts. `names` has the names of the
/// columns, and `counts` has for each column the number of row pairs that differ in it. At most
/// `limit` differences have a line of their own. All further differences are counted as
/// `not_shown`.
pub fn push_counts(
    out: &mut Vec<u8>,
    names: &BinaryArray<i64>,
    totals: &Totals,
    counts: &[usize],
    limit: usize,
) -> Result<(), AllocError>
    requires { length counts.now ≡ length (offset_strings (λ x. x) names.now) }
    ensures { OnOk result
        ((n : Naming) (c : Comparison) → n.names ≡ offset_strings (λ x. x) names.now
        → AreTotalsOf c totals.now
        → out.new.items ≡ out.old.items ++ counts_object n c counts.now limit) }
{
    let not_shown = totals.differences().saturating_sub(limit as u128);
    out.extend_from_slice(br#"{"kind":"counts","#)?;
    let (changed, same) = (totals.changed, totals.same);
    push_totals(out, changed, totals.removed, totals.added, same, not_shown)?;
    out.extend_from_slice(br#","columns":{"#)?;
    push_by_column(out, names, counts)?;
    out.extend_from_slice(b"}}\n")?;
    Ok(())
}
