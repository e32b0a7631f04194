//! Makes the tables that are compared in place of the inputs.

ghost use Rattle.std.specs.Prelude.{◌≡◌, ◌<◌, All, length, IfOk, MatchResult};
ghost use Rattle.diff_numbers.specs.Rows.{IsComparableTable};
ghost use Rattle.diff_run.specs.Comparables.{AreBothBy, AreComparables, AreExact, AreTolerant};
ghost use Rattle.diff_run.specs.Comparables.{HasNamedColumns, IsComparedFault, IsNumberFault};
ghost use Rattle.diff_run.specs.Comparables.{IsTableFault, IsToleranceFault, NamesWideNumber};
ghost use Rattle.diff_run.specs.Comparables.{numeric_columns};
ghost use Rattle.polars_arrays_bytes.specs.OffsetStrings.{offset_strings};

use crate::error::RunError;
use crate::inputs::Both;
use crate::options::Options;
use diff_columns::error::Side;
use diff_csv::source::CsvTable;
use diff_keys::error::MatchError;
use diff_numbers::columns::number_columns;
use diff_numbers::error::ComparableError;
use diff_numbers::table::comparable_table;
use diff_report::sides::Comparables;
use diff_tables::table::Table;
use diff_tolerances::cells::Tolerance;
use diff_tolerances::table::tolerant_table;
use polars_arrays_bytes::binary::BinaryArray;
use polars_arrays_flat::byte_rows::ByteRows;
use std::alloc::{AllocError, Global};

/// Returns the error `WideExponent` about a number in the column with index `column` of the input
/// on side `side`. `line` is the line at which the number's row begins, and `names` has the names
/// of the columns. If the name can't be copied, returns `Memory` instead.
fn wide_exponent(
    alloc: Global,
    names: &BinaryArray<i64>,
    column: usize,
    line: u64,
    side: Side,
) -> RunError
    requires { column < length (offset_strings (λ x. x) names.now) }
    ensures { NamesWideNumber (offset_strings (λ x. x) names.now) column side result }
{
    match Vec::from_slice(alloc, names.bytes(column)) {
        Ok(name) => RunError::WideExponent { side, line, name },
        Err(_) => RunError::Memory,
    }
}

/// Returns the table to compare in place of `input`, the input on side `side`: each number in a
/// numeric column is replaced by its normal form. `numeric` has for each column whether it is
/// numeric, and `names` has the names of the columns. Fails with `WideExponent` if such a number
/// has an exponent of more than 30 digits, leading zeros not counted, and with `Memory` if an
/// allocation fails.
fn table_by(
    alloc: Global,
    names: &BinaryArray<i64>,
    numeric: &[bool],
    input: &CsvTable,
    side: Side,
) -> Result<Table, RunError>
    requires numeric { length numeric.now ≡ length (offset_strings (λ x. x) names.now) }
    requires input { HasNamedColumns (offset_strings (λ x. x) names.now) input.now }
    ensures { MatchResult result (IsComparableTable numeric.now input.now.table)
        (IsTableFault numeric.now (offset_strings (λ x. x) names.now) input.now.table.rows side) }
{
    match comparable_table(alloc, &input.table, numeric) {
        Ok(table) => Ok(table),
        Err(ComparableError::Memory) => Err(RunError::Memory),
        Err(ComparableError::WideExponent { row, column }) => {
            Err(wide_exponent(alloc, names, column, input.lines[row], side))
        }
    }
}

/// Returns for each column whether it is numeric, that is, whether its numbers are compared by
/// value. `options.numbers` lists the columns that are not numeric. If it is `None`, no column is
/// numeric.
fn find_numeric_columns(
    alloc: Global,
    names: &BinaryArray<i64>,
    options: &Options<'_>,
) -> Result<Vec<bool>, AllocError>
    ensures columns { IfOk result
        (λ numeric. numeric.items
        ≡ numeric_columns options.now.numbers (offset_strings (λ x. x) names.now)) }
    ensures one_each { IfOk result
        (λ numeric. length numeric.items ≡ length (offset_strings (λ x. x) names.now)) }
{
    match options.numbers {
        Some(texts) => {
            let numeric = number_columns(alloc, names, texts)?;
            Ok(numeric)
        }
        None => {
            let numeric = vec![in alloc; false; names.count()]?;
            Ok(numeric)
        }
    }
}

/// Returns the tables of both inputs, with each number of a numeric column in its normal form (see
/// `find_numeric_columns`). Tolerances are not applied. The errors are those of `table_by`.
fn tables_by(
    alloc: Global,
    names: &BinaryArray<i64>,
    both: &Both,
    options: &Options<'_>,
) -> Result<Comparables, RunError>
    requires left { HasNamedColumns (offset_strings (λ x. x) names.now) both.now.left }
    requires right { HasNamedColumns (offset_strings (λ x. x) names.now) both.now.right }
    ensures { MatchResult result
        (AreBothBy (numeric_columns options.now.numbers (offset_strings (λ x. x) names.now)) both.now)
        (IsNumberFault (numeric_columns options.now.numbers (offset_strings (λ x. x) names.now))
        (offset_strings (λ x. x) names.now) both.now) }
{
    let numeric = find_numeric_columns(alloc, names, options)?;
    let left = table_by(alloc, names, &numeric, &both.left, Side::Left)?;
    let right = table_by(alloc, names, &numeric, &both.right, Side::Right)?;
    Ok(Comparables { left, right })
}

/// Applies tolerances: returns `tables` with each cell of the right table replaced by the cell of
/// its left partner if a tolerance allows the two to differ. `keys` are the key columns, by which
/// rows are matched. Fails with `TooManyRows` if a table has more than 2^32 rows, and with `Memory`
/// if an allocation fails.
fn with_tolerances(
    alloc: Global,
    names: &BinaryArray<i64>,
    keys: &[usize],
    tables: Comparables,
    tolerances: &[Tolerance<'_>],
) -> Result<Comparables, RunError>
    requires left { tables.left.width ≡ length (offset_strings (λ x. x) names.now) }
    requires right { tables.right.width ≡ length (offset_strings (λ x. x) names.now) }
    requires keys { All (λ c. c < length (offset_strings (λ x. x) names.now)) keys.now }
    ensures { MatchResult result
        (AreTolerant tolerances.now (offset_strings (λ x. x) names.now) keys.now tables)
        (IsToleranceFault tables) }
{
    let Comparables { left, right } = tables;
    match tolerant_table(alloc, tolerances, names, keys, &left, &right) {
        Ok(right) => Ok(Comparables { left, right }),
        Err(MatchError::Memory) => Err(RunError::Memory),
        Err(MatchError::TooManyRows) => Err(RunError::TooManyRows),
    }
}

/// Returns the tables to compare in place of the inputs if there are no tolerances. If
/// `options.numbers` is set, they are the tables of `tables_by`. Otherwise returns `None`: the
/// inputs are compared unchanged. The errors are those of `table_by`.
#[tactic(auto, using(crate::proofs::ComparableLemmas::exactly))]
fn compared_without_tolerances(
    alloc: Global,
    names: &BinaryArray<i64>,
    both: &Both,
    options: &Options<'_>,
) -> Result<Option<Comparables>, RunError>
    requires left { HasNamedColumns (offset_strings (λ x. x) names.now) both.now.left }
    requires right { HasNamedColumns (offset_strings (λ x. x) names.now) both.now.right }
    ensures { MatchResult result
        (AreExact options.now.numbers (offset_strings (λ x. x) names.now) both.now)
        (IsComparedFault options.now (offset_strings (λ x. x) names.now) both.now) }
{
    match options.numbers {
        None => Ok(None),
        Some(_) => {
            let tables = tables_by(alloc, names, both, options)?;
            Ok(Some(tables))
        }
    }
}

/// Returns the tables to compare in place of the inputs if the options have `numbers` or
/// `tolerances`. Otherwise returns `None`: the inputs are compared unchanged. `keys` are the key
/// columns, as indices into `names`. Fails with `WideExponent` if a number that is compared by
/// value has an exponent of more than 30 digits, leading zeros not counted. Fails with
/// `TooManyRows` if there are tolerances and a table has more than 2^32 rows, and with `Memory` if
/// an allocation fails.
#[tactic(auto, using(crate::proofs::ComparableLemmas::compared))]
pub(crate) fn compared_by(
    alloc: Global,
    names: &BinaryArray<i64>,
    keys: &[usize],
    both: &Both,
    options: &Options<'_>,
) -> Result<Option<Comparables>, RunError>
    requires keys { All (λ c. c < length (offset_strings (λ x. x) names.now)) keys.now }
    requires left { HasNamedColumns (offset_strings (λ x. x) names.now) both.now.left }
    requires right { HasNamedColumns (offset_strings (λ x. x) names.now) both.now.right }
    ensures { MatchResult result
        (AreComparables options.now (offset_strings (λ x. x) names.now) keys.now both.now)
        (IsComparedFault options.now (offset_strings (λ x. x) names.now) both.now) }
{
    match options.tolerances {
        None => compared_without_tolerances(alloc, names, both, options),
        Some(tolerances) => {
            let tables = tables_by(alloc, names, both, options)?;
            let near = with_tolerances(alloc, names, keys, tables, tolerances)?;
            Ok(Some(near))
        }
    }
}
