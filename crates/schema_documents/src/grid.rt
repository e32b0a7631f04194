//! Makes a table of the schemas of paths: a row of texts for each path, below a row of headings.

ghost use Rattle.std.specs.Fmt.{decimal};
ghost use Rattle.std.specs.Prelude.{◌≡◌, ◌++◌, ◌∷◌, [], ℕ, List, map, OnOk, IfOk, MatchResult};
ghost use Rattle.polars_arrays_bits.specs.Errors.{IsMemory};
ghost use Rattle.diff_tables.specs.Strings.{AreStrings};
ghost use Rattle.schema_documents.specs.Grid.{distinct_text, end_cells, head_cells, head_names};
ghost use Rattle.schema_documents.specs.Grid.{header, kind_cells, kind_names, number_cells};
ghost use Rattle.schema_documents.specs.Grid.{number_names, row_of};

use diff_tables::strings::Strings;
use diff_tables::table::Table;
use diff_words::decimals::push_decimal;
use json_plain::plain::push_plain_json;
use polars_arrays_bits::error::ComputeError;
use schema_columns::kind::Kind;
use schema_paths::paths::PathSchema;
use schema_report::words::{push_count, push_value};
use std::alloc::{AllocError, Global};

/// Appends the headings of the first columns: the path, the number of null values, and the number
/// of documents without a value at the path.
fn push_head_names(cells: &mut Strings) -> Result<(), AllocError>
    ensures { OnOk result
        ((all : List (List ℕ)) → AreStrings cells.old all
        → AreStrings cells.new (all ++ head_names)) }
{
    cells.push(b"path")?;
    cells.push(b"null")?;
    cells.push(b"missing")?;
    Ok(())
}

/// Appends two headings.
fn push_two(cells: &mut Strings, first: &[u8], second: &[u8]) -> Result<(), AllocError>
    ensures { OnOk result
        ((all : List (List ℕ)) → AreStrings cells.old all
        → AreStrings cells.new (all ++ first.now ∷ second.now ∷ [])) }
{
    cells.push(first)?;
    cells.push(second)?;
    Ok(())
}

/// Appends the headings of the numbers of truth values, texts, objects and arrays.
fn push_kind_names(cells: &mut Strings) -> Result<(), AllocError>
    ensures { OnOk result
        ((all : List (List ℕ)) → AreStrings cells.old all
        → AreStrings cells.new (all ++ kind_names)) }
{
    push_two(cells, b"truth value", b"text")?;
    push_two(cells, b"object", b"array")?;
    Ok(())
}

/// Appends the headings of the number of numbers, of the number of different numbers, and of the
/// least and the greatest number.
fn push_number_names(cells: &mut Strings) -> Result<(), AllocError>
    ensures { OnOk result
        ((all : List (List ℕ)) → AreStrings cells.old all
        → AreStrings cells.new (all ++ number_names)) }
{
    push_two(cells, b"number", b"distinct")?;
    push_two(cells, b"least", b"greatest")?;
    Ok(())
}

/// Appends the headings of all columns.
fn push_header(cells: &mut Strings) -> Result<(), AllocError>
    ensures { OnOk result
        ((all : List (List ℕ)) → AreStrings cells.old all → AreStrings cells.new (all ++ header)) }
{
    push_head_names(cells)?;
    push_kind_names(cells)?;
    push_number_names(cells)?;
    Ok(())
}

/// Appends a cell with `n` as decimal text. `room` is memory that is overwritten.
fn push_number(cells: &mut Strings, room: &mut Vec<u8>, n: usize) -> Result<(), AllocError>
    ensures { OnOk result
        ((all : List (List ℕ)) → AreStrings cells.old all
        → AreStrings cells.new (all ++ decimal n ∷ [])) }
{
    room.clear();
    push_decimal(room, n)?;
    cells.push(room)?;
    Ok(())
}

/// Appends the path, the number of null values, and the number of documents without a value at the
/// path. `room` is memory that is overwritten.
fn push_head(cells: &mut Strings, room: &mut Vec<u8>, path: &PathSchema) -> Result<(), AllocError>
    ensures { OnOk result
        ((all : List (List ℕ)) → AreStrings cells.old all
        → AreStrings cells.new (all ++ head_cells path.now)) }
{
    room.clear();
    push_plain_json(room, &path.path)?;
    cells.push(room)?;
    push_number(cells, room, path.nulls)?;
    push_number(cells, room, path.missing)?;
    Ok(())
}

/// Appends the numbers of truth values, texts, objects and arrays. `room` is memory that is
/// overwritten.
fn push_kinds(cells: &mut Strings, room: &mut Vec<u8>, path: &PathSchema) -> Result<(), AllocError>
    ensures { OnOk result
        ((all : List (List ℕ)) → AreStrings cells.old all
        → AreStrings cells.new (all ++ kind_cells path.now)) }
{
    push_number(cells, room, path.truths)?;
    push_number(cells, room, path.texts)?;
    push_number(cells, room, path.objects)?;
    push_number(cells, room, path.arrays)?;
    Ok(())
}

/// Appends the number of different numbers, or a hyphen if the path has no numbers or if `distinct`
/// is `None`.
fn push_distinct(out: &mut Vec<u8>, path: &PathSchema) -> Result<(), AllocError>
    ensures { OnOk result (out.new.items ≡ out.old.items ++ distinct_text path.now) }
{
    if path.numbers == 0 {
        out.push(b'-')?;
        return Ok(());
    }
    push_count(out, path.distinct)
}

/// Appends the number of numbers, and the number of different numbers (`push_distinct`). `room` is
/// memory that is overwritten.
fn push_numbers(
    cells: &mut Strings,
    room: &mut Vec<u8>,
    path: &PathSchema,
) -> Result<(), AllocError>
    ensures { OnOk result
        ((all : List (List ℕ)) → AreStrings cells.old all
        → AreStrings cells.new (all ++ number_cells path.now)) }
{
    push_number(cells, room, path.numbers)?;
    room.clear();
    push_distinct(room, path)?;
    cells.push(room)?;
    Ok(())
}

/// Appends the least and the greatest number, with a hyphen for `None`. `room` is memory that is
/// overwritten.
fn push_ends(cells: &mut Strings, room: &mut Vec<u8>, path: &PathSchema) -> Result<(), AllocError>
    ensures { OnOk result
        ((all : List (List ℕ)) → AreStrings cells.old all
        → AreStrings cells.new (all ++ end_cells path.now)) }
{
    room.clear();
    push_value(room, Kind::Number, &path.least)?;
    cells.push(room)?;
    room.clear();
    push_value(room, Kind::Number, &path.greatest)?;
    cells.push(room)?;
    Ok(())
}

/// Appends the first cells of a row: those of `push_head` and `push_kinds`. `room` is memory that
/// is overwritten.
fn push_counts(cells: &mut Strings, room: &mut Vec<u8>, path: &PathSchema) -> Result<(), AllocError>
    ensures { OnOk result
        ((all : List (List ℕ)) → AreStrings cells.old all
        → AreStrings cells.new (all ++ (head_cells path.now ++ kind_cells path.now))) }
{
    push_head(cells, room, path)?;
    push_kinds(cells, room, path)?;
    Ok(())
}

/// Appends the last cells of a row: those of `push_numbers` and `push_ends`. `room` is memory that
/// is overwritten.
fn push_values(cells: &mut Strings, room: &mut Vec<u8>, path: &PathSchema) -> Result<(), AllocError>
    ensures { OnOk result
        ((all : List (List ℕ)) → AreStrings cells.old all
        → AreStrings cells.new (all ++ (number_cells path.now ++ end_cells path.now))) }
{
    push_numbers(cells, room, path)?;
    push_ends(cells, room, path)?;
    Ok(())
}

/// Appends the eleven cells of the row for a path. `room` is memory that is overwritten.
#[tactic(auto, unfolding(crate::specs::Grid::row_of))]
fn push_row(cells: &mut Strings, room: &mut Vec<u8>, path: &PathSchema) -> Result<(), AllocError>
    ensures { OnOk result
        ((all : List (List ℕ)) → AreStrings cells.old all
        → AreStrings cells.new (all ++ row_of path.now)) }
{
    push_counts(cells, room, path)?;
    push_values(cells, room, path)?;
    Ok(())
}

/// The number of cells in a row.
const WIDTH: usize = 11;

/// Returns a table with a row of headings, and below it a row for each schema in `paths`. The only
/// error is `Memory`.
pub(crate) fn grid_of(alloc: Global, paths: &[PathSchema]) -> Result<Table, ComputeError>
    ensures width { MatchResult result (λ grid. grid.width ≡ 11) IsMemory }
    ensures rows { IfOk result (λ grid. grid.rows ≡ header ∷ map row_of paths.now) }
{
    let mut cells = Strings::new(alloc)?;
    let mut room = Vec::new(alloc);
    push_header(&mut cells)?;
    for path in paths {
        push_row(&mut cells, &mut room, path)?;
    }
    let grid = Table::new(alloc, WIDTH, paths.len() + 1, cells)?;
    Ok(grid)
}
