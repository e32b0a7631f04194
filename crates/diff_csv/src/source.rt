//! Opens a CSV text, and reads its rows into a table.

ghost use Rattle.std.specs.Prelude.{◌≡◌, [], ℕ, List, Some, true, option_map, IfErr, IfOk};
ghost use Rattle.std.specs.Prelude.{MatchResult};
ghost use Rattle.polars_arrays_bits.specs.Errors.{IsMemory};
ghost use Rattle.polars_arrays_bytes.specs.OffsetStrings.{offset_strings};
ghost use Rattle.diff_csv.specs.Errors.{IsNotLength, IsOutOfMemory, TellsDelimiter};
ghost use Rattle.diff_csv.specs.Given.{HasGiven};
ghost use Rattle.diff_csv.specs.Options.{is_delimiter};
ghost use Rattle.diff_csv.specs.Reading.{IsOpen};
ghost use Rattle.diff_csv.specs.Records.{AreRecordsOf, IsReadFault, names_of};
ghost use Rattle.diff_csv.specs.Rows.{HoldsRows, ReadsAll};
ghost use Rattle.diff_csv.specs.Tables.{HasShape, IsTableOf, IsTableWith};
ghost use Rattle.diff_csv.specs.declared.options.CsvOptions.{CsvOptions};

use crate::error::CsvError;
use crate::names::{field_names, number_names};
use crate::options::{CsvOptions, is_delimiter};
use crate::reading::Records;
use crate::row_reader::RowReader;
use crate::rows::Rows;
use crate::wanted::Wanted;
use csv::ByteRecord;
use diff_parts::part::Part;
use diff_tables::table::Table;
use polars_arrays_bits::error::ComputeError;
use polars_arrays_bytes::binary::BinaryArray;
use std::alloc::Global;
use std::io::Read;

/// A table that was read from a CSV text, with the line of each row.
#[derive(Drop)]
pub struct CsvTable {
    /// The wanted rows, each with its cells in the wanted columns.
    pub table: Table,
    /// The line at which each row begins. The first line is 1. Each line feed ends a line, even
    /// within quotes, and empty lines are counted. A carriage return without a line feed ends a
    /// record but not a line.
    pub lines: Vec<u64>,
    /// The number of each row among all rows of the text, from 1 on. `None` if the rows were not
    /// restricted to a part.
    pub numbers: Option<Vec<u64>>,
}

/// Returns `Some(numbers)` if `part` is not `None`, that is, if only the rows of a part were read.
/// Else returns `None`.
fn numbers_of(numbers: Vec<u64>, part: Option<Part>) -> Option<Vec<u64>>
    ensures { result ≡ option_map (λ _. numbers) part }
{
    match part {
        Some(_) => Some(numbers),
        None => None,
    }
}

/// Returns a table of the rows that were collected in `rows`, with their lines. `wanted` must be
/// the choice by which they were collected. The only error is `Memory`.
fn table_of(alloc: Global, rows: Rows, wanted: &Wanted<'_>) -> Result<CsvTable, CsvError>
    requires { (held : List (List (List ℕ)))
        × HoldsRows wanted.now.columns.now wanted.now.keys.now wanted.now.part rows held }
    ensures { MatchResult result
        (λ table. (held : List (List (List ℕ)))
        → HoldsRows wanted.now.columns.now wanted.now.keys.now wanted.now.part rows held
        → IsTableWith wanted.now.columns.now wanted.now.keys.now wanted.now.part held table)
        IsOutOfMemory }
{
    let Rows {
        cells,
        lines,
        numbers,
    } = rows;
    let numbers = numbers_of(numbers, wanted.part);
    match Table::new(alloc, wanted.columns.len(), lines.len(), cells) {
        Ok(table) => Ok(CsvTable {
            table,
            lines,
            numbers,
        }),
        Err(_) => Err(CsvError::Memory),
    }
}

/// Reads all rows that `reader` returns, and collects those that are wanted. Fails with `Length`,
/// `OpenQuote` or `Read` as `RowReader::read` does, and with `Memory` if an allocation fails.
fn read_rows<R: Read + Drop>(
    alloc: Global,
    mut reader: RowReader<R>,
    wanted: &Wanted<'_>,
) -> Result<Rows, CsvError>
    ensures { MatchResult result
        (ReadsAll R.remaining wanted.now.columns.now wanted.now.keys.now wanted.now.part reader)
        (λ error. (options : CsvOptions) (text : List ℕ)
        → HasGiven R.remaining options text reader [] → IsReadFault options text error) }
{
    let mut rows = Rows::new(alloc)?;
    let mut row = Box::new(alloc, ByteRecord::new(alloc))?;
    for number in 1..u64::MAX {
        let Some(line) = reader.read(&mut row)? else {
            return Ok(rows);
        };
        rows.push(&row, wanted, line, number)?;
    }
    // No memory holds this many rows.
    Err(CsvError::Memory)
}

/// A CSV text whose first record has been read.
pub struct Source<R> {
    // The records after the first one.
    records: Records<R>,
    // The first record, or `None` if the text has no records.
    first: Option<ByteRecord>,
    // The line at which the first record begins, or 0 if the text has no records.
    line: u64,
    // `true` if the first record has the names of the columns.
    has_header: bool,
}

// Written by hand, so that dropping a source is a single call in the compiled code.
impl<R: Drop> Drop for Source<R> {
    fn drop(self) {
        let Source {
            records,
            first,
            line: _,
            has_header: _,
        } = self;
        drop(records);
        drop(first);
    }
}

impl<R: Read + Drop> Source<R> {
    /// Opens the text that `input` gives, and reads its first record.
    ///
    /// Fails with `Delimiter` if the delimiter is not allowed (`is_delimiter`), with `OpenQuote` if
    /// the text ends within quotes that open in the first record, with `Read` if `input` fails, and
    /// with `Memory` if an allocation fails.
    pub fn open(alloc: Global, input: R, options: CsvOptions) -> Result<Source<R>, CsvError>
        ensures opened { IfOk result
            (λ source. (text : List ℕ) → R.remaining input ≡ Some text
            → IsOpen R.remaining options text source) }
        ensures fault { IfErr result IsNotLength }
        ensures delimiter { MatchResult result
            (λ _. is_delimiter options.delimiter ≡ true)
            (TellsDelimiter (is_delimiter options.delimiter)) }
        ensures trouble { IfErr result
            (λ error. (text : List ℕ) → R.remaining input ≡ Some text
            → IsReadFault options text error) }
    {
        if !is_delimiter(options.delimiter) {
            return Err(CsvError::Delimiter);
        }
        let has_header = options.has_header;
        let mut records = Records::new(alloc, input, options)?;
        let mut row = Box::new(alloc, ByteRecord::new(alloc))?;
        let Some(line) = records.read(&mut row)? else {
            return Ok(Source {
                records,
                first: None,
                line: 0,
                has_header,
            });
        };
        Ok(Source {
            records,
            first: Some(Box::into_inner(row)),
            line,
            has_header,
        })
    }

    /// Returns the names of the columns: the fields of the first record, or without a header the
    /// decimal numbers from 1 on. A text without records has no columns. The only error is
    /// `Memory`.
    pub fn names(&self, alloc: Global) -> Result<BinaryArray<i64>, ComputeError>
        ensures { MatchResult result
            (λ names. (options : CsvOptions) (text : List ℕ) (records : List (List (List ℕ)))
            → IsOpen R.remaining options text self.now → AreRecordsOf options text records
            → offset_strings (λ x. x) names ≡ names_of options.has_header records) IsMemory }
    {
        let Some(row) = &self.first else {
            let none = number_names(alloc, 0)?;
            return Ok(none);
        };
        if self.has_header {
            let fields = field_names(alloc, row)?;
            return Ok(fields);
        }
        let numbers = number_names(alloc, row.len())?;
        Ok(numbers)
    }

    /// Returns a reader of the rows, which are all records except a header. The only error is
    /// `Memory`.
    pub fn rows(self, alloc: Global) -> Result<RowReader<R>, CsvError>
        ensures { MatchResult result
            (λ reader. (options : CsvOptions) (text : List ℕ) → IsOpen R.remaining options text self
            → HasGiven R.remaining options text reader []) IsOutOfMemory }
    {
        let Source {
            records,
            first,
            line,
            has_header,
        } = self;
        let reader = RowReader::new(alloc, records, first, line, has_header)?;
        Ok(reader)
    }

    /// Reads the wanted rows, each with its cells in the wanted columns. A cell is empty if the
    /// text has no such column.
    ///
    /// Fails with `Length` if a record has not as many fields as the first one, even if its row is
    /// not wanted. Fails with `OpenQuote` if the text ends within quotes, with `Read` if the reader
    /// that gives the text fails, and with `Memory` if an allocation fails. Never fails with
    /// `Delimiter`.
    pub fn read(self, alloc: Global, wanted: &Wanted<'_>) -> Result<CsvTable, CsvError>
        ensures shape { IfOk result (HasShape wanted.now.columns.now) }
        ensures table { MatchResult result
            (λ table. (options : CsvOptions) (text : List ℕ) → IsOpen R.remaining options text self
            → IsTableOf options text wanted.now.columns.now wanted.now.keys.now wanted.now.part
            table)
            (λ error. (options : CsvOptions) (text : List ℕ) → IsOpen R.remaining options text self
            → IsReadFault options text error) }
    {
        let reader = self.rows(alloc)?;
        let rows = read_rows(alloc, reader, wanted)?;
        let table = table_of(alloc, rows, wanted)?;
        Ok(table)
    }
}
