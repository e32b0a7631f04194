//! Makes the report of two inputs.

ghost use Rattle.std.specs.Prelude.{◌≡◌, ◌++◌, ℕ, List, IfOk, MatchResult};
ghost use Rattle.polars_arrays_bytes.specs.OffsetStrings.{offset_strings};
ghost use Rattle.diff_columns.specs.Layout.{IsLayout};
ghost use Rattle.diff_report.specs.Counts.{column_counts};
ghost use Rattle.diff_report.specs.Sides.{AreSides, compared_left, compared_right};
ghost use Rattle.diff_run.specs.Faults.{IsRowsFault, IsRunFault};
ghost use Rattle.diff_run.specs.Heads.{AreHeadsOf};
ghost use Rattle.diff_run.specs.Run.{AreSidesOf, HaveUniqueKeys, IsReportOf, columns_text};
ghost use Rattle.diff_run.specs.Run.{differences_text, outcome_of};
ghost use Rattle.diff_run.specs.declared.options.Options.{Options};
ghost use Rattle.diff_tables.specs.Comparison.{IsComparison};

use crate::error::RunError;
use crate::heads::Heads;
use crate::lines::{push_end, push_lines};
use crate::lone::push_alone;
use crate::options::Options;
use crate::sides::Files;
use crate::unique::test_keys;
use diff_columns::error::Side;
use diff_columns::layout::Layout;
use diff_keys::error::MatchError;
use diff_keys::outcome::{self, Outcome};
use diff_report::counts::count_by_column;
use diff_report::sides::Sides;
use diff_report::summary::Totals;
use diff_tables::compare::{Comparison, compare_tables};
use std::alloc::{AllocError, Global};

/// The report of two inputs, and the outcome of their comparison.
#[derive(Drop)]
pub struct Report {
    /// The bytes of the report.
    pub text: Vec<u8>,
    /// `Same` if the inputs have no difference, and else `Different`.
    pub outcome: Outcome,
}

/// Returns the lines about columns that only one input has. The text is empty if the option
/// `common` is set.
pub fn columns_text(
    alloc: Global,
    heads: &Heads,
    files: Files<'_>,
    options: &Options<'_>,
) -> Result<Vec<u8>, AllocError>
    requires { IsLayout (offset_strings (λ x. x) heads.now.left_names)
        (offset_strings (λ x. x) heads.now.right_names) options.now.choice heads.now.layout }
    ensures { IfOk result
        (λ text. text.items
        ≡ columns_text options.now files.entry.left.now files.entry.right.now
        (offset_strings (λ x. x) heads.now.left_names)
        (offset_strings (λ x. x) heads.now.right_names) heads.now.layout) }
{
    let mut text = Vec::new(alloc);
    if !options.common {
        let (left, right) = (&heads.left_names, &heads.right_names);
        let (layout, format) = (&heads.layout, options.format);
        push_alone(
            &mut text,
            format,
            Side::Left,
            files.left,
            left,
            &layout.left_alone,
        )?;
        push_alone(
            &mut text,
            format,
            Side::Right,
            files.right,
            right,
            &layout.right_alone,
        )?;
    }
    Ok(text)
}

/// Matches the rows of the two sides by key, and compares the matched rows. Fails with
/// `TooManyRows` if a table has more than 2^32 rows, and with `Memory` if an allocation fails.
fn compared(alloc: Global, sides: &Sides) -> Result<Comparison, RunError>
    requires { AreSides sides.now }
    ensures { MatchResult result
        (IsComparison sides.now.keys.items (compared_left sides.now) (compared_right sides.now))
        (λ error. (options : Options) → IsRowsFault options sides.now error) }
{
    let (left, right) = (sides.compared_left(), sides.compared_right());
    match compare_tables(alloc, left, right, &sides.keys) {
        Ok(comparison) => Ok(comparison),
        Err(MatchError::Memory) => Err(RunError::Memory),
        Err(MatchError::TooManyRows) => Err(RunError::TooManyRows),
    }
}

/// Appends the report of the rows in the format of the options: the lines of differences, and the
/// end.
fn push_all(
    alloc: Global,
    out: &mut Vec<u8>,
    sides: &Sides,
    comparison: &Comparison,
    options: &Options<'_>,
) -> Result<(), AllocError>
    requires sides { AreSides sides.now }
    requires comparison { IsComparison sides.now.keys.items (compared_left sides.now)
        (compared_right sides.now) comparison.now }
    ensures { IfOk result
        (λ _. out.new.items ≡ out.old.items
        ++ differences_text options.now.format sides.now comparison.now
        (column_counts sides.now comparison.now.matching comparison.now.changed.items)
        options.now.limit) }
{
    let counts = count_by_column(alloc, sides, comparison)?;
    let (format, limit) = (options.format, options.limit);
    push_lines(out, format, sides, comparison, limit)?;
    let totals = Totals::of(comparison);
    push_end(out, format, &sides.names, &totals, &counts, limit)?;
    Ok(())
}

/// Returns the outcome of a comparison: `Same` if there are no differences in rows and, unless
/// `common` is set, none in columns.
fn outcome_of(options: &Options<'_>, layout: &Layout, comparison: &Comparison) -> Outcome
    ensures { result ≡ outcome_of options.now layout.now comparison.now }
{
    let same_columns = layout.left_alone.is_empty() && layout.right_alone.is_empty();
    let is_shared = options.common || same_columns;
    outcome::outcome_of(&comparison.matching, &comparison.changed, is_shared)
}

/// Compares the two sides, and returns the report and the outcome. Fails with `KeyTwice` if keys
/// must be unique but are not, with `TooManyRows` if a table has more than 2^32 rows, and with
/// `Memory` if an allocation fails.
pub(crate) fn report_of(
    alloc: Global,
    sides: &Sides,
    heads: &Heads,
    files: Files<'_>,
    options: &Options<'_>,
) -> Result<Report, RunError>
    requires sides { AreSides sides.now }
    requires layout { IsLayout (offset_strings (λ x. x) heads.now.left_names)
        (offset_strings (λ x. x) heads.now.right_names) options.now.choice heads.now.layout }
    ensures { MatchResult result
        (λ report. (left_text right_text : List ℕ)
        → AreHeadsOf options.now left_text right_text heads.now
        → AreSidesOf options.now left_text right_text files.entry.left.now files.entry.right.now
        heads.now.layout sides.now
        → IsReportOf options.now left_text right_text files.entry.left.now files.entry.right.now
        report.text.items report.outcome)
        (λ error. (left_text right_text : List ℕ)
        → AreSidesOf options.now left_text right_text files.entry.left.now files.entry.right.now
        heads.now.layout sides.now → IsRunFault options.now left_text right_text error) }
{
    test_keys(alloc, sides, options)?;
    let comparison = compared(alloc, sides)?;
    let mut text = columns_text(alloc, heads, files, options)?;
    push_all(alloc, &mut text, sides, &comparison, options)?;
    let outcome = outcome_of(options, &heads.layout, &comparison);
    Ok(Report { text, outcome })
}
