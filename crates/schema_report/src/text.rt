//! Writes the schemas of columns as text.

ghost use Rattle.std.specs.Prelude.{◌≡◌, ◌++◌, OnOk, IfErr};
ghost use Rattle.polars_arrays_bits.specs.Errors.{IsMemory};
ghost use Rattle.schema_report.specs.Text.{columns_word, head_line, rows_word};
ghost use Rattle.schema_report.specs.Text.{schema_text};

use crate::aligned::push_aligned;
use crate::grid::grid_of;
use diff_words::decimals::push_decimal;
use diff_words::words::push_word;
use polars_arrays_bits::error::ComputeError;
use schema_columns::column::ColumnSchema;
use std::alloc::{AllocError, Global};

/// Returns ` row, ` if `count` is 1, and else ` rows, `.
fn rows_word(count: usize) -> &'static [u8]
    ensures { result.now ≡ rows_word count }
{
    if count == 1 { b" row, " } else { b" rows, " }
}

/// Returns ` column` if `count` is 1, and else ` columns`, with a line feed at the end.
fn columns_word(count: usize) -> &'static [u8]
    ensures { result.now ≡ columns_word count }
{
    if count == 1 {
        b" column\n"
    } else {
        b" columns\n"
    }
}

/// Appends a line with the name of a file, the number of its rows and the number of its columns.
#[tactic(auto, unfolding(crate::specs::Text::head_line))]
fn push_head(out: &mut Vec<u8>, file: &[u8], rows: usize, columns: usize) -> Result<(), AllocError>
    ensures { OnOk result (out.new.items ≡ out.old.items ++ head_line file.now rows columns) }
{
    push_word(out, file)?;
    out.extend_from_slice(b": ")?;
    push_decimal(out, rows)?;
    out.extend_from_slice(rows_word(rows))?;
    push_decimal(out, columns)?;
    out.extend_from_slice(columns_word(columns))?;
    Ok(())
}

/// Appends the schema of a table as text: a line with counts, a line of headings, and a line for
/// each column. `file` is the name of the table's file, and `rows` the number of the table's rows.
/// The only error is `Memory`.
pub fn push_schema(
    alloc: Global,
    out: &mut Vec<u8>,
    file: &[u8],
    rows: usize,
    columns: &[ColumnSchema],
) -> Result<(), ComputeError>
    ensures ok { OnOk result
        (out.new.items ≡ out.old.items ++ schema_text file.now rows columns.now) }
    ensures fault { IfErr result IsMemory }
{
    push_head(out, file, rows, columns.len())?;
    let grid = grid_of(alloc, columns)?;
    push_aligned(alloc, out, &grid)?;
    Ok(())
}
