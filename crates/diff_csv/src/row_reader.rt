//! Reads the rows of a CSV text, one after another.

ghost use Rattle.std.specs.Prelude.{◌≡◌, [], ◌∷◌, if◌then◌else◌, ℕ, List, Option, Some, length};
ghost use Rattle.std.specs.Prelude.{IfErr, MatchResult};
ghost use Rattle.csv.specs.Records.{fields_of};
ghost use Rattle.diff_csv.specs.Errors.{IsOtherLength, IsOutOfMemory, IsRowFault};
ghost use Rattle.diff_csv.specs.Given.{GivesOne, HasGiven};
ghost use Rattle.diff_csv.specs.Reading.{IsBegun};
ghost use Rattle.diff_csv.specs.Records.{IsReadFault};
ghost use Rattle.diff_csv.specs.declared.options.CsvOptions.{CsvOptions};
ghost use Rattle.diff_csv.specs.declared.row_reader.Ahead.TheVariants.{First, Later};

use crate::error::CsvError;
use crate::reading::Records;
use csv::ByteRecord;
use std::alloc::Global;
use std::io::Read;
use std::mem;

/// The source of the next row of a `RowReader`.
#[derive(Clone, Copy)]
pub(crate) enum Ahead {
    /// The next row is the first record, which is stored in `RowReader::first`.
    First,
    /// The next row is still to be read from the text.
    Later,
    /// There are no more rows.
    End,
}

/// A reader that returns the rows of a CSV text one after another. All records must have as many
/// fields as the first one. A first record with names is not a row.
#[derive(Drop)]
pub struct RowReader<R> {
    records: Records<R>,
    // The first record, while `ahead` is `First`.
    first: Box<ByteRecord>,
    // The line at which the first record begins.
    line: u64,
    // The number of fields of the first record.
    width: usize,
    ahead: Ahead,
}

/// Returns the source of the first row of a text that has a record: `Later` if the first record is
/// a header, and else `First`.
fn first_row(has_header: bool) -> Ahead
    ensures { result ≡ (if has_header then Later else First) }
{
    if has_header {
        Ahead::Later
    } else {
        Ahead::First
    }
}

/// Checks that a record has `width` fields, and fails with `Length` if not. `line` is the line at
/// which the record begins.
fn check_length(row: &ByteRecord, width: usize, line: u64) -> Result<(), CsvError>
    ensures { MatchResult result
        (λ _. length (fields_of row.now) ≡ width)
        (IsOtherLength line width (length (fields_of row.now))) }
{
    let found = row.len();
    if found == width {
        return Ok(());
    }
    Err(CsvError::Length {
        line,
        expected: width as u64,
        found: found as u64,
    })
}

impl<R: Read + Drop> RowReader<R> {
    /// Creates a reader of the rows of a text. `first` is the first record, which begins at `line`,
    /// or `None` if the text has no records. `records` has the records after it. If `has_header` is
    /// true, the first record is not a row. The only error is `Memory`.
    pub(crate) fn new(
        alloc: Global,
        records: Records<R>,
        first: Option<ByteRecord>,
        line: u64,
        has_header: bool,
    ) -> Result<RowReader<R>, CsvError>
        ensures { MatchResult result
            (λ reader. (options : CsvOptions) (text : List ℕ) → has_header ≡ options.has_header
            → IsBegun R.remaining options text records first
            → HasGiven R.remaining options text reader []) IsOutOfMemory }
    {
        let Some(record) = first else {
            let first = Box::new(alloc, ByteRecord::new(alloc))?;
            return Ok(RowReader {
                records,
                first,
                line,
                width: 0,
                ahead: Ahead::End,
            });
        };
        let width = record.len();
        let first = Box::new(alloc, record)?;
        let ahead = first_row(has_header);
        Ok(RowReader {
            records,
            first,
            line,
            width,
            ahead,
        })
    }

    /// Reads the next row from `records` into `row`. Returns the line at which the row begins, or
    /// `None` if there are no more rows. `ahead` must be `Later`. Fails as `read` does.
    fn read_later(&mut self, row: &mut Box<ByteRecord>) -> Result<Option<u64>, CsvError>
        requires { self.old.ahead ≡ Later }
        ensures told { MatchResult result
            (λ line. (options : CsvOptions) (text : List ℕ) (rows : List (List (List ℕ)))
            → HasGiven R.remaining options text self.old rows
            → GivesOne R.remaining options text self.new rows (fields_of row.new.value) line)
            (λ error. (options : CsvOptions) (text : List ℕ) (rows : List (List (List ℕ)))
            → HasGiven R.remaining options text self.old rows
            → IsReadFault options text error) }
        ensures fault { IfErr result IsRowFault }
    {
        let Some(line) = self.records.read(row)? else {
            self.ahead = Ahead::End;
            return Ok(None);
        };
        check_length(row, self.width, line)?;
        Ok(Some(line))
    }

    /// Reads the next row into `row`. Returns the line at which the row begins, or `None` if there
    /// are no more rows.
    ///
    /// Fails with `Length` if the row has not as many fields as the first record, with `OpenQuote`
    /// if the text ends within quotes, with `Read` if the reader that gives the text fails, and
    /// with `Memory` if an allocation fails. Never fails with `Delimiter`. After an error the
    /// results of further calls are not specified.
    pub fn read(&mut self, row: &mut Box<ByteRecord>) -> Result<Option<u64>, CsvError>
        ensures told { MatchResult result
            (λ line. (options : CsvOptions) (text : List ℕ) (rows : List (List (List ℕ)))
            → HasGiven R.remaining options text self.old rows
            → GivesOne R.remaining options text self.new rows (fields_of row.new.value) line)
            (λ error. (options : CsvOptions) (text : List ℕ) (rows : List (List (List ℕ)))
            → HasGiven R.remaining options text self.old rows
            → IsReadFault options text error) }
        ensures fault { IfErr result IsRowFault }
    {
        match self.ahead {
            Ahead::First => {
                mem::swap(row, &mut self.first);
                self.ahead = Ahead::Later;
                Ok(Some(self.line))
            }
            Ahead::Later => self.read_later(row),
            Ahead::End => Ok(None),
        }
    }
}
