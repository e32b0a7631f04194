//! Reads a CSV text, and makes the schemas of its columns.

ghost use Rattle.std.specs.List.{range_with_len};
ghost use Rattle.std.specs.Option.{option_copied};
ghost use Rattle.std.specs.Prelude.{◌≡◌, ◌<◌, ℕ, List, Some, length, IfOk, MatchResult};
ghost use Rattle.polars_arrays_bytes.specs.OffsetStrings.{offset_strings};
ghost use Rattle.diff_csv.specs.Errors.{IsOutOfMemory};
ghost use Rattle.diff_csv.specs.Reading.{IsOpen};
ghost use Rattle.diff_csv.specs.Records.{AreRecordsOf, IsReadFault, names_of};
ghost use Rattle.diff_csv.specs.declared.options.CsvOptions.{CsvOptions};
ghost use Rattle.schema_columns.specs.Columns.{IsSchemaOf};
ghost use Rattle.schema_columns.specs.Present.{cells_of};
ghost use Rattle.schema_run.specs.Schemas.{AreSchemasOf, IsSchemaOfText};

use diff_csv::error::CsvError;
use diff_csv::options::CsvOptions;
use diff_csv::source::Source;
use diff_csv::wanted::Wanted;
use diff_tables::table::Table;
use polars_arrays_bytes::binary::BinaryArray;
use polars_arrays_flat::byte_rows::ByteRows;
use schema_columns::column::{ColumnSchema, schema_of};
use std::alloc::{AllocError, Global};
use std::io::Read;

/// The schema of a table: the schemas of its columns.
#[derive(Drop)]
pub struct TableSchema {
    /// The number of rows of the table.
    pub rows: usize,
    /// The schemas of the columns, in the order of the columns.
    pub columns: Vec<ColumnSchema>,
}

/// Returns the indices of `count` columns: 0 to `count - 1`.
fn all_columns(alloc: Global, count: usize) -> Result<Vec<usize>, AllocError>
    ensures { IfOk result (λ columns. columns.items ≡ range_with_len 0 count) }
{
    let mut columns = Vec::new(alloc);
    for column in 0..count {
        columns.push(column)?;
    }
    Ok(columns)
}

/// Returns the names of the columns of a CSV text: the fields of the first record, or without a
/// header the decimal numbers from 1 on. The only error is `Memory`.
fn names_in<R: Read + Drop>(alloc: Global, source: &Source<R>) -> Result<BinaryArray<i64>, CsvError>
    ensures { MatchResult result
        (λ names. (options : CsvOptions) (text : List ℕ) (records : List (List (List ℕ)))
        → IsOpen R.remaining options text source.now → AreRecordsOf options text records
        → offset_strings (λ x. x) names ≡ names_of options.has_header records) IsOutOfMemory }
{
    match source.names(alloc) {
        Ok(names) => Ok(names),
        Err(_) => Err(CsvError::Memory),
    }
}

/// Returns the schema of column `column` of a table, counted from 0. `name` is the name of the
/// column. A cell that equals `null` is null; with `None` no cell is null. The only error is
/// `Memory`.
fn column_schema(
    alloc: Global,
    name: &[u8],
    table: &Table,
    column: usize,
    null: Option<&[u8]>,
) -> Result<ColumnSchema, CsvError>
    requires { column < table.now.width }
    ensures { MatchResult result
        (IsSchemaOf name.now (option_copied null.entry) (cells_of column table.now.rows))
        IsOutOfMemory }
{
    match schema_of(alloc, name, table, column, null) {
        Ok(schema) => Ok(schema),
        Err(_) => Err(CsvError::Memory),
    }
}

/// Returns the schemas of the columns of a table. `names` has the names of the columns. A cell that
/// equals `null` is null; with `None` no cell is null. The only error is `Memory`.
fn schemas_of(
    alloc: Global,
    names: &BinaryArray<i64>,
    table: &Table,
    null: Option<&[u8]>,
) -> Result<Vec<ColumnSchema>, CsvError>
    requires { table.now.width ≡ length (offset_strings (λ x. x) names.now) }
    ensures { MatchResult result
        (λ columns. AreSchemasOf (option_copied null.entry) (offset_strings (λ x. x) names.now)
        table.now.rows columns.items) IsOutOfMemory }
{
    let mut columns = Vec::new(alloc);
    for column in 0..names.count() {
        let schema = column_schema(alloc, names.bytes(column), table, column, null)?;
        columns.push(schema)?;
    }
    Ok(columns)
}

/// Reads a CSV text from `input`, and returns the number of its rows and the schemas of its
/// columns. A cell that equals `null` is null; with `None` no cell is null.
///
/// Fails with `Delimiter` if the delimiter of `options` is not allowed, with `OpenQuote` if the
/// text ends within quotes, with `Length` if a record has not as many fields as the first one, with
/// `Read` if the reader fails, and with `Memory` if an allocation fails.
pub fn read_schema<R: Read + Drop>(
    alloc: Global,
    input: R,
    options: CsvOptions,
    null: Option<&[u8]>,
) -> Result<TableSchema, CsvError>
    ensures { MatchResult result
        (λ schema. (text : List ℕ) → R.remaining input ≡ Some text
        → IsSchemaOfText options text (option_copied null.entry) schema)
        (λ error. (text : List ℕ) → R.remaining input ≡ Some text
        → IsReadFault options text error) }
{
    let source = Source::open(alloc, input, options)?;
    let names = names_in(alloc, &source)?;
    let many = names.count();
    let all = all_columns(alloc, many)?;
    let wanted = Wanted {
        columns: &all,
        keys: &[],
        part: None,
    };
    let read = source.read(alloc, &wanted)?;
    let columns = schemas_of(alloc, &names, &read.table, null)?;
    let rows = read.table.count();
    Ok(TableSchema { rows, columns })
}
