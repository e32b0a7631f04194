//! Reads the records of a CSV text, one after another.
//!
//! If a text ends within quotes, the reader of the `csv` crate closes them silently. To notice
//! this, the reader gets two more bytes after the text, the mark: a line feed and a quote. If the
//! text ends outside quotes, the mark becomes one more record with a single empty field. If the
//! text ends within quotes, the line feed becomes a part of the open field, and no such record
//! follows.

ghost use Rattle.std.specs.Prelude.{◌≡◌, ◌↔◌, ◌++◌, ◌∷◌, [], true, ℕ, List, Some, IfErr, IfOk};
ghost use Rattle.std.specs.Prelude.{MatchResult};
ghost use Rattle.csv.specs.Records.{fields_of};
ghost use Rattle.diff_csv.specs.Errors.{IsNoRecord, IsStop};
ghost use Rattle.diff_csv.specs.Options.{is_delimiter};
ghost use Rattle.diff_csv.specs.Quotes.{mark, mark_fields};
ghost use Rattle.diff_csv.specs.Reading.{HasRead, HasReadOne, IsReading, ReadsOne};
ghost use Rattle.diff_csv.specs.Reading.{marked_remaining};
ghost use Rattle.diff_csv.specs.Records.{IsReadFault};
ghost use Rattle.diff_csv.specs.declared.options.CsvOptions.{CsvOptions};

use crate::ends::Ends;
use crate::error::{CsvError, fault_of};
use crate::lines::line_of;
use crate::options::CsvOptions;
use csv::{ByteRecord, Reader, ReaderBuilder};
use std::alloc::Global;
use std::io::{Chain, Read};
use std::mem;

/// The mark: bytes that are added to the end of a text.
const MARK: &[u8] = b"\n\"";

/// Returns whether a record consists of a single empty field, as the record of the mark does.
fn is_mark(row: &ByteRecord) -> bool
    ensures { (result ≡ true) ↔ (fields_of row.now ≡ mark_fields) }
{
    match row.get(0) {
        Some(field) => row.len() == 1 && field.is_empty(),
        None => false,
    }
}

/// Creates a CSV reader for the text of `input`, followed by the mark. The reader accepts records
/// with any number of fields, and treats the first record like the others.
fn reader_of<R: Read>(
    alloc: Global,
    input: R,
    options: CsvOptions,
) -> Reader<Ends<Chain<R, &'static [u8]>>>
    ensures { (text : List ℕ) → R.remaining input ≡ Some text
        → HasRead (marked_remaining R.remaining) options (text ++ mark) result [] }
{
    let marked = Ends::new(input.chain(MARK));
    ReaderBuilder::new()
        .has_headers(false)
        .flexible(true)
        .delimiter(options.delimiter)
        .from_reader(alloc, marked)
}

/// Reads the next record into `row`, and returns `true`. Returns `false` if there are no more
/// records. Fails with `Read` if reading the text fails, and with `Memory` if an allocation fails.
#[inline(always)]
fn read_record<R: Read>(reader: &mut Reader<R>, row: &mut ByteRecord) -> Result<bool, CsvError>
    ensures told { IfOk result
        (λ found. (options : CsvOptions) (text : List ℕ) (rows : List (List (List ℕ)))
        → HasRead R.remaining options text reader.old rows
        → HasReadOne R.remaining options text reader.new rows (fields_of row.new) found) }
    ensures stop { IfErr result IsStop }
{
    match reader.read_byte_record(row) {
        Ok(found) => Ok(found),
        Err(error) => Err(fault_of(error)),
    }
}

/// A reader that returns the records of a text one after another. It reads one record ahead.
pub(crate) struct Records<R> {
    reader: Reader<Ends<Chain<R, &'static [u8]>>>,
    // The next record to return, or the record of the mark if the text has no more records.
    ahead: Box<ByteRecord>,
    // The line at which `ahead` begins.
    line: u64,
}

// Written by hand, so that dropping the records is a single call in the compiled code.
impl<R: Drop> Drop for Records<R> {
    fn drop(self) {
        let Records {
            reader,
            ahead,
            line: _,
        } = self;
        drop(reader);
        drop(ahead);
    }
}

impl<R: Read + Drop> Records<R> {
    /// Creates a reader of the text of `input`, and reads the first record ahead. Fails with `Read`
    /// if `input` fails, and with `Memory` if an allocation fails.
    pub(crate) fn new(alloc: Global, input: R, options: CsvOptions) -> Result<Records<R>, CsvError>
        ensures { MatchResult result
            (λ records. (text : List ℕ) → R.remaining input ≡ Some text
            → is_delimiter options.delimiter ≡ true → IsReading R.remaining options text records [])
            IsStop }
    {
        let mut ahead = Box::new(alloc, ByteRecord::new(alloc))?;
        let mut reader = reader_of(alloc, input, options);
        // At least the record of the mark follows, so this read finds a record.
        read_record(&mut reader, &mut ahead)?;
        let line = line_of(&reader, &ahead);
        Ok(Records {
            reader,
            ahead,
            line,
        })
    }

    /// Moves the next record into `row`. Returns the line at which the record begins, or `None` if
    /// there are no more records. Fails with `OpenQuote` if the text ends within quotes, with
    /// `Read` if reading the text fails, and with `Memory` if an allocation fails. After `None` or
    /// an error the results of further calls are not specified.
    pub(crate) fn read(&mut self, row: &mut Box<ByteRecord>) -> Result<Option<u64>, CsvError>
        ensures told { MatchResult result
            (λ line. (options : CsvOptions) (text : List ℕ) (rows : List (List (List ℕ)))
            → IsReading R.remaining options text self.old rows
            → ReadsOne R.remaining options text self.new rows (fields_of row.new.value) line)
            (λ error. (options : CsvOptions) (text : List ℕ) (rows : List (List (List ℕ)))
            → IsReading R.remaining options text self.old rows
            → IsReadFault options text error) }
        ensures fault { IfErr result IsNoRecord }
    {
        let line = self.line;
        mem::swap(row, &mut self.ahead);
        if read_record(&mut self.reader, &mut self.ahead)? {
            self.line = line_of(&self.reader, &self.ahead);
            return Ok(Some(line));
        }
        if is_mark(row) {
            return Ok(None);
        }
        Err(CsvError::OpenQuote { line })
    }
}
