//! Compares two sorted CSV inputs, from two readers to a writer.

ghost use Rattle.std.specs.Prelude.{◌≡◌, ◌⊎◌, ◌||◌, if◌then◌else◌, ℕ, List, Some, IfErr, IfOk};
ghost use Rattle.std.specs.Prelude.{MatchResult};
ghost use Rattle.std.specs.Io.KnownBytes.{Appends};
ghost use Rattle.polars_arrays_bytes.specs.OffsetStrings.{offset_strings};
ghost use Rattle.diff_columns.specs.Layout.{IsLayout};
ghost use Rattle.diff_csv.specs.Reading.{IsOpen};
ghost use Rattle.diff_keys.specs.declared.outcome.Outcome.TheVariants.{Same, Different};
ghost use Rattle.diff_run.specs.Chosen.{no_columns};
ghost use Rattle.diff_run.specs.Heads.{AreChosen, AreHeadsOf, IsFrameOf};
ghost use Rattle.diff_merge.specs.Rows.{Seen};
ghost use Rattle.diff_report.specs.declared.sides.Sides.{Sides};
ghost use Rattle.diff_run.specs.Run.{IsReportOf, outcome_of};
ghost use Rattle.diff_run.specs.declared.sides.Frame.{Frame};
ghost use Rattle.diff_sorted.specs.Ends.{IsLentFrame, IsToldAs, IsToldOf};
ghost use Rattle.diff_sorted.specs.Faults.{CanBeSorted, IsMemory, IsSortedFault, IsWrite};
ghost use Rattle.diff_tables.specs.declared.compare.Comparison.{Comparison};

use crate::error::SortedError;
use crate::report::SortedReport;
use diff_columns::error::Side;
use diff_columns::layout::Layout;
use diff_csv::source::Source;
use diff_keys::outcome::Outcome;
use diff_merge::cursor::{Cursor, Wanted};
use diff_merge::merge::merge;
use diff_run::error::RunError;
use diff_run::heads::{Heads, heads_of};
use diff_run::inputs::opened;
use diff_run::options::Options;
use diff_run::report::{Report, columns_text};
use diff_run::run::Input;
use diff_run::sides::{Files, Frame, frame_of};
use diff_single::frame;
use std::alloc::Global;
use std::io::{Read, Write};

/// Checks that the options have a key, and that `numbers`, `tolerances` and `part` are `None`. The
/// only error is `Refused`.
fn test_options(options: &Options<'_>) -> Result<(), SortedError>
    ensures { MatchResult result (λ _. CanBeSorted options.now)
        (λ error. (left_text right_text : List ℕ)
        → IsSortedFault options.now left_text right_text error) }
{
    let has_numbers = options.numbers.is_some();
    if has_numbers {
        return Err(SortedError::Refused);
    }
    let has_tolerances = options.tolerances.is_some();
    if has_tolerances {
        return Err(SortedError::Refused);
    }
    let has_part = options.part.is_some();
    if has_part {
        return Err(SortedError::Refused);
    }
    let key_count = options.choice.keys.len();
    if key_count == 0 {
        return Err(SortedError::Refused);
    }
    Ok(())
}

/// Returns the names and options that all lines of a report share. The names are borrowed from
/// `frame`.
fn lent<'a>(frame: &'a Frame, options: &Options<'_>) -> frame::Frame<'a>
    ensures { IsLentFrame options.now frame.now result }
{
    frame::Frame {
        names: &frame.names,
        keys: &frame.keys,
        null: frame.null.as_deref(),
        colored: options.colored,
        format: options.format,
        left: &frame.left,
        right: &frame.right,
    }
}

/// Merges the rows of two sorted inputs, and returns the report that received them. `heads` has the
/// matched columns of the inputs, and `frame` the names and options for the lines. Fails with
/// `Falls` if a row has a lesser key than the row before it, with `KeyTwice` if keys must be unique
/// but are not, and with `Run` for all other errors.
fn merged_report<'f, L: Read + Drop, R: Read + Drop>(
    alloc: Global,
    left: Source<L>,
    right: Source<R>,
    heads: &Heads,
    frame: frame::Frame<'f>,
    options: &Options<'_>,
) -> Result<SortedReport<'f>, SortedError>
    requires { IsLayout (offset_strings (λ x. x) heads.now.left_names)
        (offset_strings (λ x. x) heads.now.right_names) options.now.choice heads.now.layout }
    ensures frame { IfOk result (λ r. r.frame ≡ frame.entry) }
    ensures limit { IfOk result (λ r. r.limit ≡ options.now.limit) }
    ensures told { MatchResult result
        (λ r. (left_text right_text : List ℕ)
        → IsOpen L.remaining options.now.csv left_text left
        → IsOpen R.remaining options.now.csv right_text right
        → IsToldOf options.now left_text right_text heads.now.layout r)
        (λ error. (left_text right_text : List ℕ)
        → IsOpen L.remaining options.now.csv left_text left
        → IsOpen R.remaining options.now.csv right_text right
        → AreHeadsOf options.now left_text right_text heads.now
        → IsSortedFault options.now left_text right_text error) }
{
    let wanted = Wanted {
        columns: &heads.layout.left,
        keys: &heads.layout.keys,
        unique: options.unique,
        side: Side::Left,
    };
    let mut first = Cursor::open(alloc, left, wanted)?;
    let wanted = Wanted {
        columns: &heads.layout.right,
        keys: &heads.layout.keys,
        unique: options.unique,
        side: Side::Right,
    };
    let mut second = Cursor::open(alloc, right, wanted)?;
    let mut report = SortedReport::new(alloc, frame, options.limit)?;
    merge(&mut first, &mut second, &mut report)?;
    Ok(report)
}

/// Returns whether columns make no difference: no column is in one input alone, or the option
/// `common` leaves such columns out.
fn are_shared(options: &Options<'_>, layout: &Layout) -> bool
    ensures { result ≡ options.now.common || no_columns layout.now }
{
    let same_columns = layout.left_alone.is_empty() && layout.right_alone.is_empty();
    options.common || same_columns
}

/// Returns `Same` if both arguments are true, and else `Different`.
fn outcome_by(same_rows: bool, same_columns: bool) -> Outcome
    ensures { result ≡ if same_rows then (if same_columns then Same else Different) else Different }
{
    if !same_rows {
        return Outcome::Different;
    }
    if !same_columns {
        return Outcome::Different;
    }
    Outcome::Same
}

/// Returns the outcome of a comparison: `Same` if there are no differences in rows and, unless
/// `common` is set, none in columns.
fn outcome_of(options: &Options<'_>, layout: &Layout, report: &SortedReport<'_>) -> Outcome
    ensures { (left_rows right_rows : List Seen) (s : Sides) (c : Comparison)
        → IsToldAs report.now left_rows right_rows s c
        → result ≡ outcome_of options.now layout.now c }
{
    outcome_by(report.is_same(), are_shared(options, layout))
}

/// Returns the text of the report and the outcome. `told` must have received all rows of both
/// inputs. The only error is `Run` with `RunError::Memory`.
fn report_of(
    alloc: Global,
    heads: &Heads,
    files: Files<'_>,
    told: &SortedReport<'_>,
    options: &Options<'_>,
) -> Result<Report, SortedError>
    requires { IsLayout (offset_strings (λ x. x) heads.now.left_names)
        (offset_strings (λ x. x) heads.now.right_names) options.now.choice heads.now.layout }
    ensures { MatchResult result
        (λ report. (left_text right_text : List ℕ) (f : Frame)
        → AreHeadsOf options.now left_text right_text heads.now → AreChosen options.now heads.now
        → CanBeSorted options.now
        → IsFrameOf options.now heads.now files.entry.left.now files.entry.right.now f
        → IsLentFrame options.now f told.now.frame → told.now.limit ≡ options.now.limit
        → IsToldOf options.now left_text right_text heads.now.layout told.now
        → IsReportOf options.now left_text right_text files.entry.left.now files.entry.right.now
        report.text.items report.outcome) IsMemory }
{
    let mut text = columns_text(alloc, heads, files, options)?;
    told.push(&mut text)?;
    let outcome = outcome_of(options, &heads.layout, told);
    Ok(Report { text, outcome })
}

/// Compares two sorted inputs, and returns the report and the outcome. Fails as `run_sorted` does,
/// but never because a write failed.
fn report_on<L: Read + Drop, R: Read + Drop>(
    alloc: Global,
    left: Input<'_, L>,
    right: Input<'_, R>,
    options: &Options<'_>,
) -> Result<Report, SortedError>
    ensures { MatchResult result
        (λ report. (left_text right_text : List ℕ) → L.remaining left.entry.reader ≡ Some left_text
        → R.remaining right.entry.reader ≡ Some right_text
        → IsReportOf options.now left_text right_text left.entry.name.now right.entry.name.now
        report.text.items report.outcome)
        (λ error. (left_text right_text : List ℕ) → L.remaining left.entry.reader ≡ Some left_text
        → R.remaining right.entry.reader ≡ Some right_text
        → IsSortedFault options.now left_text right_text error) }
{
    test_options(options)?;
    let files = Files {
        left: left.name,
        right: right.name,
    };
    let left = opened(alloc, left.reader, options, Side::Left)?;
    let right = opened(alloc, right.reader, options, Side::Right)?;
    let heads = heads_of(alloc, &left, &right, options)?;
    let frame = frame_of(alloc, &heads, files, options)?;
    let told = merged_report(alloc, left, right, &heads, lent(&frame, options), options)?;
    let report = report_of(alloc, &heads, files, &told, options)?;
    Ok(report)
}

/// Compares two inputs whose rows are sorted by key, byte by byte, and returns the outcome. Writes
/// the same report as `run` of `diff_run`, but has only a few rows of each input in memory, besides
/// the report and up to `options.limit` lines for each kind of difference.
///
/// Fails with `Refused` if the options have no key, or if one of `numbers`, `tolerances` and `part`
/// is set. Fails with `Falls` if a row has a lesser key than the row before it, with `KeyTwice` if
/// keys must be unique but are not, and with `Run` for all other errors. Something may have been
/// written only if the error is a failed write.
pub fn run_sorted<L: Read + Drop, R: Read + Drop, W: Write>(
    alloc: Global,
    left: Input<'_, L>,
    right: Input<'_, R>,
    out: &mut W,
    options: &Options<'_>,
) -> Result<Outcome, SortedError>
    ensures report { IfOk result
        (λ outcome. (left_text right_text : List ℕ) → L.remaining left.entry.reader ≡ Some left_text
        → R.remaining right.entry.reader ≡ Some right_text → (written : List ℕ)
        × Appends (W.contents out.old) (W.contents out.new) written
        × IsReportOf options.now left_text right_text left.entry.name.now right.entry.name.now
        written outcome) }
    ensures fault { IfErr result
        (λ error. (left_text right_text : List ℕ) → L.remaining left.entry.reader ≡ Some left_text
        → R.remaining right.entry.reader ≡ Some right_text
        → IsSortedFault options.now left_text right_text error) }
    ensures nothing_written { IfErr result (λ error. (out.new ≡ out.old) ⊎ IsWrite error) }
{
    let report = report_on(alloc, left, right, options)?;
    match out.write_all(&report.text) {
        Ok(()) => Ok(report.outcome),
        Err(cause) => Err(SortedError::Run {
            cause: RunError::Write { cause },
        }),
    }
}
