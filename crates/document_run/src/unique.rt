//! Checks that keys are unique.

ghost use Rattle.std.specs.Prelude.{◌≡◌, true, MatchResult};
ghost use Rattle.diff_keys.specs.Unique.{AllDiffer};
ghost use Rattle.diff_tables.specs.Keys.{row_keys};
ghost use Rattle.document_run.specs.Faults.{IsRowsFault, IsSideFault};
ghost use Rattle.document_run.specs.Run.{key_columns};
ghost use Rattle.document_run.specs.Sides.{HaveUniqueRows, IsKeyed};

use crate::error::DocumentError;
use crate::options::DocumentOptions;
use diff_columns::error::Side;
use diff_keys::unique::Twice;
use diff_report::sides::Side as Table;
use diff_tables::compare::key_twice;
use document_words::sides::DocumentSides;
use std::alloc::Global;

/// Checks that no two documents of `table` have the same key. `columns` are the key columns. Fails
/// with `KeyTwice` if two documents have the same key, and with `Memory` if an allocation fails.
/// `side` is the side of the table, for the error.
fn test_side(
    alloc: Global,
    table: &Table,
    columns: &[usize],
    side: Side,
) -> Result<(), DocumentError>
    requires { IsKeyed columns.now table.now }
    ensures { MatchResult result
        (λ _. AllDiffer (row_keys columns.now table.now.table.rows))
        (IsSideFault table.now columns.now side) }
{
    match key_twice(alloc, &table.table, columns) {
        Ok(None) => Ok(()),
        Ok(Some(Twice { first, again })) => Err(DocumentError::KeyTwice {
            side,
            first: table.lines[first],
            again: table.lines[again],
        }),
        Err(_) => Err(DocumentError::Memory),
    }
}

/// Checks on each side that no two documents have the same key, if `options.unique` is true.
/// `columns` are the key columns. Fails with `KeyTwice` if two documents of a side have the same
/// key, and with `Memory` if an allocation fails.
pub(crate) fn test_keys(
    alloc: Global,
    sides: &DocumentSides<'_>,
    columns: &[usize],
    options: &DocumentOptions<'_>,
) -> Result<(), DocumentError>
    requires columns { columns.now ≡ key_columns options.now }
    requires left { IsKeyed columns.now sides.now.left }
    requires right { IsKeyed columns.now sides.now.right }
    ensures { MatchResult result
        (λ _. options.now.unique ≡ true → HaveUniqueRows columns.now sides.now)
        (IsRowsFault options.now sides.now) }
{
    if options.unique {
        test_side(alloc, &sides.left, columns, Side::Left)?;
        test_side(alloc, &sides.right, columns, Side::Right)?;
    }
    Ok(())
}
