//! Makes a table of the schemas of columns: a row of texts for each column, below a row of
//! headings.

ghost use Rattle.std.specs.Prelude.{◌≡◌, ◌++◌, ◌∷◌, [], ℕ, List, map, OnOk, IfOk, MatchResult};
ghost use Rattle.polars_arrays_bits.specs.Errors.{IsMemory};
ghost use Rattle.diff_tables.specs.Strings.{AreStrings};
ghost use Rattle.schema_report.specs.Grid.{count_cells, count_names, end_cells, end_names};
ghost use Rattle.schema_report.specs.Grid.{head_cells, head_names, header, row_of};
ghost use Rattle.schema_report.specs.Words.{count_text};

use crate::words::{kind_word, push_count, push_value};
use diff_tables::strings::Strings;
use diff_tables::table::Table;
use diff_words::words::push_word;
use polars_arrays_bits::error::ComputeError;
use schema_columns::column::ColumnSchema;
use std::alloc::{AllocError, Global};

/// Appends the headings of the column's name and kind.
fn push_head_names(cells: &mut Strings) -> Result<(), AllocError>
    ensures { OnOk result
        ((all : List (List ℕ)) → AreStrings cells.old all
        → AreStrings cells.new (all ++ head_names)) }
{
    cells.push(b"column")?;
    cells.push(b"type")?;
    Ok(())
}

/// Appends the headings of the counts.
fn push_count_names(cells: &mut Strings) -> Result<(), AllocError>
    ensures { OnOk result
        ((all : List (List ℕ)) → AreStrings cells.old all
        → AreStrings cells.new (all ++ count_names)) }
{
    cells.push(b"null")?;
    cells.push(b"missing")?;
    cells.push(b"distinct")?;
    Ok(())
}

/// Appends the headings of the least and the greatest value.
fn push_end_names(cells: &mut Strings) -> Result<(), AllocError>
    ensures { OnOk result
        ((all : List (List ℕ)) → AreStrings cells.old all
        → AreStrings cells.new (all ++ end_names)) }
{
    cells.push(b"least")?;
    cells.push(b"greatest")?;
    Ok(())
}

/// Appends all headings.
fn push_header(cells: &mut Strings) -> Result<(), AllocError>
    ensures { OnOk result
        ((all : List (List ℕ)) → AreStrings cells.old all → AreStrings cells.new (all ++ header)) }
{
    push_head_names(cells)?;
    push_count_names(cells)?;
    push_end_names(cells)?;
    Ok(())
}

/// Appends two cells: the name and the kind of a column. `room` is memory that is overwritten.
fn push_head(
    cells: &mut Strings,
    room: &mut Vec<u8>,
    column: &ColumnSchema,
) -> Result<(), AllocError>
    ensures { OnOk result
        ((all : List (List ℕ)) → AreStrings cells.old all
        → AreStrings cells.new (all ++ head_cells column.now)) }
{
    room.clear();
    push_word(room, &column.name)?;
    cells.push(room)?;
    cells.push(kind_word(column.kind))?;
    Ok(())
}

/// Appends a cell with a count, or with a hyphen for `None`. `room` is memory that is overwritten.
fn push_one_count(
    cells: &mut Strings,
    room: &mut Vec<u8>,
    count: Option<usize>,
) -> Result<(), AllocError>
    ensures { OnOk result
        ((all : List (List ℕ)) → AreStrings cells.old all
        → AreStrings cells.new (all ++ count_text count ∷ [])) }
{
    room.clear();
    push_count(room, count)?;
    cells.push(room)?;
    Ok(())
}

/// Appends three cells: the numbers of null cells, of missing cells and of different values of a
/// column. `room` is memory that is overwritten.
fn push_counts(
    cells: &mut Strings,
    room: &mut Vec<u8>,
    column: &ColumnSchema,
) -> Result<(), AllocError>
    ensures { OnOk result
        ((all : List (List ℕ)) → AreStrings cells.old all
        → AreStrings cells.new (all ++ count_cells column.now)) }
{
    push_one_count(cells, room, Some(column.nulls))?;
    push_one_count(cells, room, Some(column.missing))?;
    push_one_count(cells, room, column.distinct)?;
    Ok(())
}

/// Appends two cells: the least and the greatest value of a column. `room` is memory that is
/// overwritten.
fn push_ends(
    cells: &mut Strings,
    room: &mut Vec<u8>,
    column: &ColumnSchema,
) -> Result<(), AllocError>
    ensures { OnOk result
        ((all : List (List ℕ)) → AreStrings cells.old all
        → AreStrings cells.new (all ++ end_cells column.now)) }
{
    room.clear();
    push_value(room, column.kind, &column.least)?;
    cells.push(room)?;
    room.clear();
    push_value(room, column.kind, &column.greatest)?;
    cells.push(room)?;
    Ok(())
}

/// Appends the seven cells of the row for a column. `room` is memory that is overwritten.
fn push_row(
    cells: &mut Strings,
    room: &mut Vec<u8>,
    column: &ColumnSchema,
) -> Result<(), AllocError>
    ensures { OnOk result
        ((all : List (List ℕ)) → AreStrings cells.old all
        → AreStrings cells.new (all ++ row_of column.now)) }
{
    push_head(cells, room, column)?;
    push_counts(cells, room, column)?;
    push_ends(cells, room, column)?;
    Ok(())
}

/// The number of cells in a row.
const WIDTH: usize = 7;

/// Returns a table with a row of headings, and below it a row for each schema in `columns`. The
/// only error is `Memory`.
pub(crate) fn grid_of(alloc: Global, columns: &[ColumnSchema]) -> Result<Table, ComputeError>
    ensures width { MatchResult result (λ grid. grid.width ≡ 7) IsMemory }
    ensures rows { IfOk result (λ grid. grid.rows ≡ header ∷ map row_of columns.now) }
{
    let mut cells = Strings::new(alloc)?;
    let mut room = Vec::new(alloc);
    push_header(&mut cells)?;
    for column in columns {
        push_row(&mut cells, &mut room, column)?;
    }
    let grid = Table::new(alloc, WIDTH, columns.len() + 1, cells)?;
    Ok(grid)
}
