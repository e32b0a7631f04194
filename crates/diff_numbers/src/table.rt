//! Converts tables to the texts by which their cells are compared.

ghost use Rattle.std.specs.List.{flat_map};
ghost use Rattle.std.specs.Prelude.{◌≡◌, length, MatchResult};
ghost use Rattle.diff_numbers.specs.Errors.{IsCellFault};
ghost use Rattle.diff_numbers.specs.Rows.{IsComparableTable, comparable_row};
ghost use Rattle.diff_tables.specs.Strings.{AreStrings};

use crate::error::ComparableError;
use crate::rows::push_row;
use diff_tables::strings::Strings;
use diff_tables::table::Table;
use std::alloc::Global;

/// Returns the text by which each cell of `table` is compared, row by row. `numeric[c]` is `true`
/// if the numbers of column `c` are compared by value. Fails with `WideExponent` if a number that
/// is compared by value has an exponent of more than 30 digits, leading zeros not counted, and with
/// `Memory` if an allocation fails.
fn comparable_cells(
    alloc: Global,
    table: &Table,
    numeric: &[bool],
) -> Result<Strings, ComparableError>
    requires { length numeric.now ≡ table.now.width }
    ensures { MatchResult result
        (λ cells. AreStrings cells (flat_map (comparable_row numeric.now) table.now.rows))
        (IsCellFault numeric.now table.now.rows) }
{
    let mut cells = Strings::new(alloc)?;
    let mut room = Vec::new(alloc);
    for row in 0..table.count() {
        push_row(&mut cells, &mut room, table, row, numeric)?;
    }
    Ok(cells)
}

/// Returns a table that has, in place of each cell of `table`, the text by which the cell is
/// compared. `numeric[c]` is `true` if the numbers of column `c` are compared by value. In such a
/// column, the text of a number is its normal text, such as `15e-1` for 1.5 and 1.50. All other
/// cells are unchanged.
///
/// Fails with `WideExponent` if a number that is compared by value has an exponent of more than 30
/// digits, not counting leading zeros. Fails with `Memory` if an allocation fails.
pub fn comparable_table(
    alloc: Global,
    table: &Table,
    numeric: &[bool],
) -> Result<Table, ComparableError>
    requires { length numeric.now ≡ table.now.width }
    ensures { MatchResult result (IsComparableTable numeric.now table.now)
        (IsCellFault numeric.now table.now.rows) }
{
    let cells = comparable_cells(alloc, table, numeric)?;
    match Table::new(alloc, table.width(), table.count(), cells) {
        Ok(made) => Ok(made),
        Err(_) => Err(ComparableError::Memory),
    }
}
