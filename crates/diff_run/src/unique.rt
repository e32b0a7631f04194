//! Checks that keys are unique.

ghost use Rattle.std.specs.Prelude.{◌≡◌, ◌<◌, true, All, length, MatchResult};
ghost use Rattle.diff_keys.specs.Unique.{AllDiffer};
ghost use Rattle.diff_report.specs.Sides.{AreSides};
ghost use Rattle.diff_run.specs.Faults.{IsRowsFault, IsSideFault};
ghost use Rattle.diff_run.specs.Run.{HaveUniqueKeys};
ghost use Rattle.diff_tables.specs.Keys.{row_keys};

use crate::error::RunError;
use crate::options::Options;
use diff_columns::error::Side;
use diff_keys::unique::Twice;
use diff_report::sides::Sides;
use diff_tables::compare::key_twice;
use diff_tables::table::Table;
use std::alloc::Global;

/// Checks that no two rows of `table` have the same key. `keys` are the key columns, and `lines`
/// has the line at which each row begins. Fails with `KeyTwice` if two rows have the same key, and
/// with `Memory` if an allocation fails.
fn test_side(
    alloc: Global,
    table: &Table,
    lines: &[u64],
    keys: &[usize],
    side: Side,
) -> Result<(), RunError>
    requires columns { All (λ c. c < table.now.width) keys.now }
    requires lines { length lines.now ≡ length table.now.rows }
    ensures { MatchResult result
        (λ _. AllDiffer (row_keys keys.now table.now.rows))
        (IsSideFault table.now.rows keys.now side) }
{
    match key_twice(alloc, table, keys) {
        Ok(None) => Ok(()),
        Ok(Some(Twice { first, again })) => Err(RunError::KeyTwice {
            side,
            first: lines[first],
            again: lines[again],
        }),
        Err(_) => Err(RunError::Memory),
    }
}

/// If the option `unique` is set, checks on both sides that no two rows have the same key, with the
/// errors of `test_side`. The keys are those of the tables that are compared: if numbers are
/// compared by value, 1.5 and 1.50 are the same key.
pub(crate) fn test_keys(alloc: Global, sides: &Sides, options: &Options<'_>) -> Result<(), RunError>
    requires { AreSides sides.now }
    ensures { MatchResult result
        (λ _. options.now.unique ≡ true → HaveUniqueKeys sides.now)
        (IsRowsFault options.now sides.now) }
{
    if options.unique {
        let (left, right) = (sides.compared_left(), sides.compared_right());
        test_side(alloc, left, &sides.left.lines, &sides.keys, Side::Left)?;
        test_side(alloc, right, &sides.right.lines, &sides.keys, Side::Right)?;
    }
    Ok(())
}
