//! Checks the column names in the options against the columns of two inputs.

ghost use Rattle.std.specs.Prelude.{◌≡◌, ◌↔◌, All, IsTrue, MatchOption, MatchResult};
ghost use Rattle.polars_arrays_bytes.specs.OffsetStrings.{offset_strings};
ghost use Rattle.diff_columns.specs.Names.{IsKnown, IsUnknown};
ghost use Rattle.diff_run.specs.Chosen.{AreKnown, IsUnknownName, columns_given, columns_of};
ghost use Rattle.diff_run.specs.Chosen.{key_alone, names_given, nothing_left};
ghost use Rattle.diff_run.specs.Heads.{AreChosen, IsHeadsFault};

use crate::error::{ChoiceError, NameList, RunError};
use crate::heads::Heads;
use crate::options::Options;
use diff_columns::known::name_unknown;
use diff_columns::layout::Layout;
use diff_tolerances::cells::Tolerance;
use polars_arrays_bytes::binary::BinaryArray;
use polars_arrays_flat::byte_rows::ByteRows;

/// Returns the index of the first of `names` that is a column of neither input. Returns `None` if
/// each is a column, or if `names` is `None`. `left` and `right` are the names of the columns.
fn unknown_among(
    left: &BinaryArray<i64>,
    right: &BinaryArray<i64>,
    names: Option<&[&[u8]]>,
) -> Option<usize>
    ensures { MatchOption result
        (All (IsKnown (offset_strings (λ x. x) left.now) (offset_strings (λ x. x) right.now))
        (names_given names.entry))
        (IsUnknown (offset_strings (λ x. x) left.now) (offset_strings (λ x. x) right.now)
        (names_given names.entry)) }
{
    match names {
        Some(names) => name_unknown(left, right, names),
        None => None,
    }
}

/// Returns whether at least one input has a column with this name.
fn is_known(left: &BinaryArray<i64>, right: &BinaryArray<i64>, name: &[u8]) -> bool
    ensures { IsTrue result
        ↔ IsKnown (offset_strings (λ x. x) left.now) (offset_strings (λ x. x) right.now) name.now }
{
    match name_unknown(left, right, &[name]) {
        Some(_) => false,
        None => true,
    }
}

/// Returns the index of the first of `tolerances` whose column neither input has, or `None` if each
/// column exists.
fn first_unknown(
    left: &BinaryArray<i64>,
    right: &BinaryArray<i64>,
    tolerances: &[Tolerance<'_>],
) -> Option<usize>
    ensures { MatchOption result
        (All (IsKnown (offset_strings (λ x. x) left.now) (offset_strings (λ x. x) right.now))
        (columns_of tolerances.now))
        (IsUnknown (offset_strings (λ x. x) left.now) (offset_strings (λ x. x) right.now)
        (columns_of tolerances.now)) }
{
    for k in 0..tolerances.len() {
        if !is_known(left, right, tolerances[k].column) {
            return Some(k);
        }
    }
    None
}

/// Returns the index of the first of `tolerances` whose column neither input has. Returns `None` if
/// each column exists, or if `tolerances` is `None`.
fn unknown_tolerance(
    left: &BinaryArray<i64>,
    right: &BinaryArray<i64>,
    tolerances: Option<&[Tolerance<'_>]>,
) -> Option<usize>
    ensures { MatchOption result
        (All (IsKnown (offset_strings (λ x. x) left.now) (offset_strings (λ x. x) right.now))
        (columns_given tolerances.entry))
        (IsUnknown (offset_strings (λ x. x) left.now) (offset_strings (λ x. x) right.now)
        (columns_given tolerances.entry)) }
{
    match tolerances {
        Some(tolerances) => first_unknown(left, right, tolerances),
        None => None,
    }
}

/// Returns an error for the first name in the options that is not a column of either input. Returns
/// `None` if each name is a column. Searches, in this order, the lists of the columns to compare,
/// to ignore, to compare as texts, and with a tolerance. The names of the key columns are not
/// searched.
fn unknown_name(
    left: &BinaryArray<i64>,
    right: &BinaryArray<i64>,
    options: &Options<'_>,
) -> Option<ChoiceError>
    ensures { MatchOption result
        (AreKnown options.now (offset_strings (λ x. x) left.now)
        (offset_strings (λ x. x) right.now))
        (IsUnknownName options.now (offset_strings (λ x. x) left.now)
        (offset_strings (λ x. x) right.now)) }
{
    let list = NameList::Only;
    if let Some(name) = unknown_among(left, right, options.choice.only) {
        return Some(ChoiceError::NoColumn { list, name });
    }
    let list = NameList::Ignored;
    if let Some(name) = name_unknown(left, right, options.choice.ignored) {
        return Some(ChoiceError::NoColumn { list, name });
    }
    let list = NameList::Texts;
    if let Some(name) = unknown_among(left, right, options.numbers) {
        return Some(ChoiceError::NoColumn { list, name });
    }
    let list = NameList::Tolerances;
    if let Some(name) = unknown_tolerance(left, right, options.tolerances) {
        return Some(ChoiceError::NoColumn { list, name });
    }
    None
}

/// Returns whether the option `common` leaves out columns that only one input has, and only key
/// columns remain to compare.
fn key_alone(layout: &Layout, options: &Options<'_>) -> bool
    ensures { result ≡ key_alone options.now layout.now }
{
    let are_alone = !layout.left_alone.is_empty() || !layout.right_alone.is_empty();
    options.common && are_alone && layout.left.len() == layout.keys.len()
}

/// Returns whether nothing remains to compare or report, although an input has columns. This is so
/// if no column is compared and no column that only one input has is reported, or if `key_alone`
/// returns true.
fn nothing_left(
    left: &BinaryArray<i64>,
    right: &BinaryArray<i64>,
    layout: &Layout,
    options: &Options<'_>,
) -> bool
    ensures { result
        ≡ nothing_left options.now (offset_strings (λ x. x) left.now)
        (offset_strings (λ x. x) right.now) layout.now }
{
    let are_bare = left.count() == 0 && right.count() == 0;
    let same_columns = layout.left_alone.is_empty() && layout.right_alone.is_empty();
    let is_silent = options.common || same_columns;
    let none_compared = layout.left.is_empty() && is_silent;
    !are_bare && (none_compared || key_alone(layout, options))
}

/// Checks that each column named in the options, apart from the key columns, exists in an input,
/// and that something remains to compare or report. The only error is `Choice`.
pub(crate) fn test_heads(heads: &Heads, options: &Options<'_>) -> Result<(), RunError>
    ensures { MatchResult result (λ _. AreChosen options.now heads.now)
        (IsHeadsFault options.now heads.now) }
{
    let (left, right) = (&heads.left_names, &heads.right_names);
    if let Some(cause) = unknown_name(left, right, options) {
        return Err(RunError::Choice { cause });
    }
    if nothing_left(left, right, &heads.layout, options) {
        let cause = ChoiceError::NothingLeft;
        return Err(RunError::Choice { cause });
    }
    Ok(())
}
