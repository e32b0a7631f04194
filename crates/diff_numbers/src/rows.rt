//! Converts rows to the texts by which their cells are compared.

ghost use Rattle.std.specs.Prelude.{◌≡◌, ◌<◌, ◌++◌, ◌∷◌, [], ℕ, List, length, get_or, MatchResult};
ghost use Rattle.diff_numbers.specs.Errors.{IsCellFault};
ghost use Rattle.diff_numbers.specs.Rows.{comparable_at, comparable_row};
ghost use Rattle.diff_tables.specs.Strings.{AreStrings};

use crate::cells::push_comparable;
use crate::error::ComparableError;
use diff_tables::strings::Strings;
use diff_tables::table::Table;
use json_decimals::error::NumberError;

/// Appends to `cells` the text by which the cell of `table` at `row` and `column` is compared.
/// `numeric[c]` is `true` if the numbers of column `c` are compared by value. `room` is memory that
/// is overwritten.
///
/// Fails with `WideExponent` if the cell is a number that is compared by value and has an exponent
/// of more than 30 digits, leading zeros not counted. Fails with `Memory` if an allocation fails.
fn push_cell(
    cells: &mut Strings,
    room: &mut Vec<u8>,
    table: &Table,
    row: usize,
    column: usize,
    numeric: &[bool],
) -> Result<(), ComparableError>
    requires row { row < length table.now.rows }
    requires width { length numeric.now ≡ table.now.width }
    requires column { column < length numeric.now }
    ensures { MatchResult result
        (λ _. (all : List (List ℕ)) → AreStrings cells.old all
        → AreStrings cells.new
        (all ++ comparable_at numeric.now (get_or table.now.rows row []) column ∷ []))
        (IsCellFault numeric.now table.now.rows) }
{
    match push_comparable(cells, room, table.cell(row, column), numeric[column]) {
        Ok(()) => Ok(()),
        Err(NumberError::Memory) => Err(ComparableError::Memory),
        Err(NumberError::WideExponent) => Err(ComparableError::WideExponent { row, column }),
    }
}

/// Appends to `cells` the texts by which the cells of row `row` of `table` are compared.
/// `numeric[c]` is `true` if the numbers of column `c` are compared by value. `room` is memory that
/// is overwritten.
///
/// Fails with `WideExponent` if a number that is compared by value has an exponent of more than 30
/// digits, leading zeros not counted. Fails with `Memory` if an allocation fails.
pub(crate) fn push_row(
    cells: &mut Strings,
    room: &mut Vec<u8>,
    table: &Table,
    row: usize,
    numeric: &[bool],
) -> Result<(), ComparableError>
    requires row { row < length table.now.rows }
    requires width { length numeric.now ≡ table.now.width }
    ensures { MatchResult result
        (λ _. (all : List (List ℕ)) → AreStrings cells.old all
        → AreStrings cells.new
        (all ++ comparable_row numeric.now (get_or table.now.rows row [])))
        (IsCellFault numeric.now table.now.rows) }
{
    for column in 0..numeric.len() {
        push_cell(cells, room, table, row, column, numeric)?;
    }
    Ok(())
}
