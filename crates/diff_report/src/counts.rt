//! Counts, for each column, the changed pairs that differ in it.

ghost use Rattle.std.specs.Prelude.{◌≡◌, ◌<◌, ◌-◌, ◌^◌, All, length, IfOk};
ghost use Rattle.diff_tables.specs.Comparison.{IsComparison};
ghost use Rattle.diff_report.specs.Counts.{AddsWhere, column_counts};
ghost use Rattle.diff_report.specs.Pairs.{is_apart};
ghost use Rattle.diff_report.specs.Sides.{AreSides, NamesRows, compared_left, compared_right};
ghost use Rattle.diff_report.specs.Sides.{naming_of};

use crate::pairs::differ_at;
use crate::sides::Sides;
use diff_tables::compare::Comparison;
use std::alloc::{AllocError, Global};

/// Adds 1 to the count of each column in which left row `i` and right row `j` differ.
fn count_pair(counts: &mut Vec<usize>, sides: &Sides, i: usize, j: usize)
    requires sides { AreSides sides.now }
    requires left { i < length sides.now.left.table.rows }
    requires right { j < length sides.now.right.table.rows }
    requires columns { length counts.old.items ≡ length (naming_of sides.now).names }
    requires room { All (λ n. n < 2 ^ 64 - 1) counts.old.items }
    ensures { AddsWhere (is_apart sides.now i j) counts.old.items counts.new.items }
{
    for column in 0..counts.len() {
        counts[column] += usize::from(differ_at(sides, i, j, column));
    }
}

/// Returns, for each column, the number of changed pairs of `comparison` that differ in it.
fn counts_of(
    alloc: Global,
    sides: &Sides,
    comparison: &Comparison,
) -> Result<Vec<usize>, AllocError>
    requires sides { AreSides sides.now }
    requires rows { NamesRows sides.now comparison.now }
    ensures { IfOk result
        (λ counts. counts.items
        ≡ column_counts sides.now comparison.now.matching comparison.now.changed.items) }
{
    let mut counts: Vec<usize> = vec![in alloc; 0; sides.left.table.width()]?;
    for n in 0..comparison.changed.len() {
        let k = comparison.changed[n];
        let i = comparison.matching.left_rows[k] as usize;
        let j = comparison.matching.right_rows[k] as usize;
        count_pair(&mut counts, sides, i, j);
    }
    Ok(counts)
}

/// Returns, for each column, the number of changed pairs of `comparison` that differ in it.
/// `comparison` must compare `sides.compared_left()` with `sides.compared_right()` by the key
/// columns of `sides`.
pub fn count_by_column(
    alloc: Global,
    sides: &Sides,
    comparison: &Comparison,
) -> Result<Vec<usize>, AllocError>
    requires sides { AreSides sides.now }
    requires comparison { IsComparison sides.now.keys.items (compared_left sides.now)
        (compared_right sides.now) comparison.now }
    ensures counts { IfOk result
        (λ counts. counts.items
        ≡ column_counts sides.now comparison.now.matching comparison.now.changed.items) }
    ensures as_many { IfOk result
        (λ counts. length counts.items ≡ length (naming_of sides.now).names) }
{
    let counts = counts_of(alloc, sides, comparison)?;
    Ok(counts)
}
