//! Writes the summary at the end of a text report.

ghost use Rattle.std.specs.Fmt.{decimal};
ghost use Rattle.std.specs.Prelude.{◌≡◌, ◌==◌, ◌<◌, ◌≤◌, ◌+◌, ◌++◌, [], if◌then◌else◌, length};
ghost use Rattle.std.specs.Prelude.{map, codes, IfOk, OnOk};
ghost use Rattle.diff_words.specs.Lists.{gap, listed};
ghost use Rattle.polars_arrays_bytes.specs.OffsetStrings.{offset_strings};
ghost use Rattle.diff_report.specs.Naming.{Naming};
ghost use Rattle.diff_report.specs.Summary.{AreTotalsOf, by_column, count_text, difference_count};
ghost use Rattle.diff_report.specs.Summary.{is_counted, rest_text, summary_text, totals_text};
ghost use Rattle.diff_tables.specs.declared.compare.Comparison.{Comparison};

use diff_keys::matching::Matching;
use diff_tables::compare::Comparison;
use diff_words::decimals::push_decimal;
use diff_words::lists::push_gap;
use diff_words::words::push_word;
use polars_arrays_bytes::binary::BinaryArray;
use polars_arrays_flat::byte_rows::ByteRows;
use std::alloc::AllocError;

/// The number of row pairs and rows of each kind in a comparison.
#[derive(Clone, Copy)]
pub struct Totals {
    /// The number of matched pairs whose rows differ.
    pub changed: usize,
    /// The number of left rows without a partner.
    pub removed: usize,
    /// The number of right rows without a partner.
    pub added: usize,
    /// The number of matched pairs whose rows are equal.
    pub same: usize,
}

impl Totals {
    /// Returns the totals of a comparison.
    pub fn of(comparison: &Comparison) -> Totals
        requires { length comparison.now.changed.items ≤ length
            comparison.now.matching.left_rows.items }
        ensures { AreTotalsOf comparison.now result }
    {
        let changed = comparison.changed.len();
        Totals {
            changed,
            removed: comparison.matching.removed.len(),
            added: comparison.matching.added.len(),
            same: comparison.matching.left_rows.len() - changed,
        }
    }

    /// Returns the number of differences: the sum of `changed`, `removed` and `added`. The sum has
    /// 128 bits, so that it can't overflow.
    pub fn differences(&self) -> u128
        ensures { (c : Comparison) → AreTotalsOf c self.now
            → result ≡ difference_count c.matching (length c.changed.items) }
    {
        self.changed as u128 + self.removed as u128 + self.added as u128
    }
}

/// Returns the number of differences: `changed` plus the number of rows without a partner in
/// `matching`, left and right. `changed` is the number of matched pairs that differ. The sum has
/// 128 bits, so that it can't overflow.
pub fn difference_count(matching: &Matching, changed: usize) -> u128
    ensures { result ≡ difference_count matching.now changed }
{
    changed as u128 + matching.removed.len() as u128 + matching.added.len() as u128
}

/// Appends `.. and N more` and a line feed if `count`, the number of differences, is greater than
/// `limit`, the most differences that have a line. N is `count - limit`. Appends nothing if `limit`
/// is 0.
#[tactic(auto, unfolding(crate::specs::Summary::rest_text))]
pub fn push_rest(out: &mut Vec<u8>, count: u128, limit: usize) -> Result<(), AllocError>
    ensures { OnOk result (out.new.items ≡ out.old.items ++ rest_text limit count) }
{
    if limit == 0 || count <= limit as u128 {
        return Ok(());
    }
    out.extend_from_slice(b".. and ")?;
    push_decimal(out, count - limit as u128)?;
    out.extend_from_slice(b" more\n")?;
    Ok(())
}

/// Appends a number and the text `what` after it.
fn push_count(out: &mut Vec<u8>, count: usize, what: &[u8]) -> Result<(), AllocError>
    ensures { OnOk result (out.new.items ≡ out.old.items ++ decimal count ++ what.now) }
{
    push_decimal(out, count)?;
    out.extend_from_slice(what)?;
    Ok(())
}

/// Appends the numbers of changed, removed, added and equal rows.
fn push_totals(out: &mut Vec<u8>, totals: &Totals) -> Result<(), AllocError>
    ensures { OnOk result
        ((c : Comparison) → AreTotalsOf c totals.now
        → out.new.items ≡ out.old.items ++ totals_text c) }
{
    push_count(out, totals.changed, b" changed, ")?;
    push_count(out, totals.removed, b" removed, ")?;
    push_count(out, totals.added, b" added, ")?;
    push_count(out, totals.same, b" the same.")?;
    Ok(())
}

/// Appends `COLUMN COUNT` for the column with the index `column` in `names` and `counts`, or
/// nothing if its count is 0. `written` is the number of columns that were appended before; if it
/// is not 0, a comma comes first. Returns the number of columns appended up to now.
fn push_if_counted(
    out: &mut Vec<u8>,
    names: &BinaryArray<i64>,
    counts: &[usize],
    column: usize,
    written: usize,
) -> Result<usize, AllocError>
    requires names { column < length (offset_strings (λ x. x) names.now) }
    requires counts { column < length counts.now }
    requires room { written < usize.MAX }
    ensures text { OnOk result
        (out.new.items ≡ out.old.items
        ++ (if is_counted counts.now column then gap (codes ", ") written
        ++ count_text (offset_strings (λ x. x) names.now) counts.now column else [])) }
    ensures count { IfOk result
        (λ n. n ≡ written + (if is_counted counts.now column then 1 else 0)) }
{
    if counts[column] == 0 {
        return Ok(written);
    }
    push_gap(out, b", ", written)?;
    push_word(out, names.bytes(column))?;
    out.push(b' ')?;
    push_decimal(out, counts[column])?;
    Ok(written + 1)
}

/// Appends `By column:`, and `COLUMN COUNT` for each column whose count in `counts` is not 0, with
/// commas between the columns and a full stop at the end.
fn push_by_column(
    out: &mut Vec<u8>,
    names: &BinaryArray<i64>,
    counts: &[usize],
) -> Result<(), AllocError>
    requires { length counts.now ≡ length (offset_strings (λ x. x) names.now) }
    ensures { OnOk result
        (out.new.items ≡ out.old.items
        ++ by_column (offset_strings (λ x. x) names.now) counts.now) }
{
    out.extend_from_slice(b"  By column: ")?;
    let mut written = 0;
    for column in 0..counts.len() {
        written = push_if_counted(out, names, counts, column, written)?;
    }
    out.push(b'.')?;
    Ok(())
}

/// Appends the counts by column (`push_by_column`), or nothing if `changed` is 0. `changed` is the
/// number of changed rows.
fn push_columns(
    out: &mut Vec<u8>,
    names: &BinaryArray<i64>,
    changed: usize,
    counts: &[usize],
) -> Result<(), AllocError>
    requires { length counts.now ≡ length (offset_strings (λ x. x) names.now) }
    ensures { OnOk result (out.new.items ≡ out.old.items ++ (if changed
        == 0 then [] else by_column (offset_strings (λ x. x) names.now) counts.now)) }
{
    if changed == 0 {
        return Ok(());
    }
    push_by_column(out, names, counts)?;
    Ok(())
}

/// Appends the last line of a report: the totals, and the counts by column if any row is changed.
/// `names` has the names of the columns, and `counts` has for each column the number of changed
/// pairs that differ in it.
pub fn push_summary(
    out: &mut Vec<u8>,
    names: &BinaryArray<i64>,
    totals: &Totals,
    counts: &[usize],
) -> Result<(), AllocError>
    requires { length counts.now ≡ length (offset_strings (λ x. x) names.now) }
    ensures { OnOk result
        ((n : Naming) (c : Comparison) → n.names ≡ offset_strings (λ x. x) names.now
        → AreTotalsOf c totals.now
        → out.new.items ≡ out.old.items ++ summary_text n c counts.now) }
{
    push_totals(out, totals)?;
    push_columns(out, names, totals.changed, counts)?;
    out.push(b'\n')?;
    Ok(())
}
