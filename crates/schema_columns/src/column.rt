//! Summarizes a column of a table: the kind of its values, the counts of its cells, and the least
//! and greatest value.

ghost use Rattle.std.specs.List.{All};
ghost use Rattle.std.specs.Option.{option_copied};
ghost use Rattle.std.specs.Prelude.{◌≡◌, ◌<◌, None, MatchResult};
ghost use Rattle.polars_arrays_bits.specs.Errors.{IsMemory};
ghost use Rattle.polars_arrays_bytes.specs.OffsetStrings.{offset_strings};
ghost use Rattle.schema_columns.specs.Columns.{IsSchemaOf, TellsStrings, TellsValues, TellsWholes};
ghost use Rattle.schema_columns.specs.Kinds.{AreOf, IsWhole};
ghost use Rattle.schema_columns.specs.Present.{cells_of};
ghost use Rattle.schema_values.specs.Told.{told_of};

use crate::distinct::count_numbers;
use crate::extremes::{ends_of_numbers, ends_of_strings};
use crate::kind::{Kind, is_same_kind, kind_of};
use crate::present::present_cells;
use crate::wholes::wholes_of;
use diff_tables::table::Table;
use polars_arrays_bits::error::ComputeError;
use polars_arrays_bytes::binary::BinaryArray;
use polars_compare_extremes::kernel::MinMaxKernel;
use schema_values::distinct::count_strings;
use schema_values::numbers::{Values, number_values};
use schema_values::part::SchemaPart;
use std::alloc::Global;

/// The schema of a column: a summary of its cells. A cell is null if it equals the text for no
/// value, and missing if it is empty and not null. All other cells are values.
#[derive(Drop)]
pub struct ColumnSchema {
    /// The name of the column.
    pub name: Vec<u8>,
    /// The narrowest kind that fits all values.
    pub kind: Kind,
    /// The number of cells.
    pub rows: usize,
    /// The number of null cells.
    pub nulls: usize,
    /// The number of missing cells.
    pub missing: usize,
    /// The number of different values. Numbers are compared as exact decimals, other values as
    /// bytes. `None` if the values are numbers and one has an exponent of more than 30 digits.
    pub distinct: Option<usize>,
    /// The least value: by value if all values are numbers, and else by bytes. `None` if there are
    /// no values, or if `distinct` is `None`.
    pub least: Option<Vec<u8>>,
    /// The greatest value, in the order described at `least`. `None` if there are no values, or if
    /// `distinct` is `None`.
    pub greatest: Option<Vec<u8>>,
}

impl SchemaPart for ColumnSchema {
    ghost use Rattle.schema_columns.specs.Kinds.{same_kind};

    ghost name_of = { λ s. s.name.items };

    ghost same_kinds = { λ s t. same_kind s.kind t.kind };

    fn name(&self) -> &[u8] {
        &self.name
    }

    fn has_kinds_of(&self, other: &ColumnSchema) -> bool {
        is_same_kind(self.kind, other.kind)
    }
}

/// Returns the number of different byte strings in `cells`, and the least and the greatest of them,
/// compared byte by byte. The only error is `Memory`.
fn string_values(alloc: Global, cells: &BinaryArray<i64>) -> Result<Values, ComputeError>
    requires { cells.now.validity ≡ None }
    ensures { MatchResult result
        (λ values. TellsStrings (offset_strings (λ x. x) cells.now) (told_of values)) IsMemory }
{
    let distinct = Some(count_strings(alloc, cells)?);
    let ends = ends_of_strings(alloc, cells)?;
    Ok(Values {
        distinct,
        least: ends.least,
        greatest: ends.greatest,
    })
}

/// Returns the number of different integers in `cells`, and the least and the greatest of them.
/// Each cell must be an integer. The only error is `Memory`.
fn whole_values(alloc: Global, cells: &BinaryArray<i64>) -> Result<Values, ComputeError>
    requires { All IsWhole (offset_strings (λ x. x) cells.now) }
    ensures { MatchResult result
        (λ values. TellsWholes (offset_strings (λ x. x) cells.now) (told_of values)) IsMemory }
{
    let wholes = wholes_of(alloc, cells)?;
    let slice = wholes.as_slice();
    let pair = slice.min_max_ignore_nan_kernel();
    let ends = ends_of_numbers(alloc, pair)?;
    let distinct = Some(count_numbers(alloc, wholes, pair)?);
    Ok(Values {
        distinct,
        least: ends.least,
        greatest: ends.greatest,
    })
}

/// Returns the number of different values in `cells`, and the least and the greatest of them.
/// Integers and numbers are compared by value, all others as bytes. All cells must be of the kind
/// `kind`. All fields are `None` if `kind` is `Number` and a cell has an exponent of more than 30
/// digits. The only error is `Memory`.
fn values_of(alloc: Global, cells: &BinaryArray<i64>, kind: Kind) -> Result<Values, ComputeError>
    requires plain { cells.now.validity ≡ None }
    requires all { AreOf kind (offset_strings (λ x. x) cells.now) }
    ensures { MatchResult result
        (λ values. TellsValues kind (offset_strings (λ x. x) cells.now) (told_of values)) IsMemory }
{
    match kind {
        Kind::Whole => whole_values(alloc, cells),
        Kind::Number => number_values(alloc, cells),
        Kind::Empty => string_values(alloc, cells),
        Kind::Truth => string_values(alloc, cells),
        Kind::Text => string_values(alloc, cells),
    }
}

/// Returns the schema of column `column` of a table, counted from 0. `name` is the name of the
/// column. A cell that equals `null` is null; with `None` no cell is null. The only error is
/// `Memory`.
pub fn schema_of(
    alloc: Global,
    name: &[u8],
    table: &Table,
    column: usize,
    null: Option<&[u8]>,
) -> Result<ColumnSchema, ComputeError>
    requires { column < table.now.width }
    ensures { MatchResult result
        (IsSchemaOf name.now (option_copied null.entry) (cells_of column table.now.rows)) IsMemory }
{
    let present = present_cells(alloc, table, column, null)?;
    let kind = kind_of(&present.cells);
    let values = values_of(alloc, &present.cells, kind)?;
    let name = Vec::from_slice(alloc, name)?;
    Ok(ColumnSchema {
        name,
        kind,
        rows: table.count(),
        nulls: present.nulls,
        missing: present.missing,
        distinct: values.distinct,
        least: values.least,
        greatest: values.greatest,
    })
}
