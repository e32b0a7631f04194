//! Reads a sorted CSV text row by row.

ghost use Rattle.std.specs.Prelude.{◌≡◌, [], ◌∷◌, ◌++◌, ℕ, suc, List, IfErr, IfOk, IsSome};
ghost use Rattle.std.specs.Prelude.{MatchResult, OnOk, unwrap_or};
ghost use Rattle.csv.specs.Records.{fields_of};
ghost use Rattle.diff_csv.specs.Given.{GivesOne, HasGiven};
ghost use Rattle.diff_csv.specs.Reading.{IsOpen};
ghost use Rattle.diff_csv.specs.declared.options.CsvOptions.{CsvOptions};
ghost use Rattle.diff_joins.specs.Merge.{ComesBehind};
ghost use Rattle.diff_merge.specs.Cursors.{GoesOn, IsAlike, IsAt, next_key, next_seen};
ghost use Rattle.diff_merge.specs.Faults.{IsCursorFault, IsKeyFault, IsTextFault};
ghost use Rattle.diff_merge.specs.Order.{key_less};
ghost use Rattle.diff_merge.specs.Rows.{Seen, seen_of};

use crate::error::MergeError;
use crate::keys::write_key;
use crate::row::Row;
use csv::ByteRecord;
use diff_columns::error::Side;
use diff_csv::row_reader::RowReader;
use diff_csv::source::Source;
use std::alloc::Global;
use std::cmp::Ordering;
use std::io::Read;
use std::mem;

/// The columns to read from a sorted text, and the check of its keys.
#[derive(Clone, Copy)]
pub struct Wanted<'a> {
    /// The indices of the columns to read.
    pub columns: &'a [usize],
    /// The key columns, as indices into `columns`.
    pub keys: &'a [usize],
    /// `true` if two rows with the same key are an error.
    pub unique: bool,
    /// The side of the text in the comparison, for errors.
    pub side: Side,
}

/// A reader of a CSV text that is sorted by key. The next row is always read ahead. The order of
/// the keys is checked.
#[derive(Drop)]
pub struct Cursor<'a, R> {
    reader: RowReader<R>,
    columns: &'a [usize],
    keys: &'a [usize],
    unique: bool,
    side: Side,
    // The row that was read last. It is the next row, unless `line` is `None`.
    row: Box<ByteRecord>,
    // The line at which the next row begins, or `None` if there is no next row.
    pub(crate) line: Option<u64>,
    // The number of the next row. The first row of the text is 1.
    number: u64,
    // The key of the next row (`key`) and the key of the row before it (`before`).
    pub(crate) key: Vec<u8>,
    before: Vec<u8>,
}

/// Reads the next row of `reader` into `row`. Returns the line at which the row begins, or `None`
/// if there are no more rows. Fails with `Csv` if the row can't be read. If an allocation fails,
/// the `cause` of this error is `CsvError::Memory`. `side` is stored in the error.
fn read_row<R: Read + Drop>(
    reader: &mut RowReader<R>,
    row: &mut Box<ByteRecord>,
    side: Side,
) -> Result<Option<u64>, MergeError>
    ensures { MatchResult result
        (λ line. (options : CsvOptions) (text : List ℕ) (rows : List (List (List ℕ)))
        → HasGiven R.remaining options text reader.old rows
        → GivesOne R.remaining options text reader.new rows (fields_of row.new.value) line)
        (λ error. (options : CsvOptions) (text : List ℕ) (rows : List (List (List ℕ)))
        → HasGiven R.remaining options text reader.old rows
        → IsTextFault side options text error) }
{
    match reader.read(row) {
        Ok(line) => Ok(line),
        Err(cause) => Err(MergeError::Csv { side, cause }),
    }
}

/// Checks that `key` may follow the key `before`. Fails with `Falls` if `key` is less than
/// `before`, and with `KeyTwice` if they are equal and `unique` is true. `lines` has the lines at
/// which the rows with the keys `before` and `key` begin. `side` is stored in the error.
fn test_order(
    before: &[u8],
    key: &[u8],
    unique: bool,
    side: Side,
    lines: (u64, u64),
) -> Result<(), MergeError>
    ensures { MatchResult result
        (λ _. GoesOn unique before.now key.now) (IsKeyFault side unique before.now key.now) }
{
    let (first, again) = lines;
    match before.cmp(key) {
        Ordering::Less => Ok(()),
        Ordering::Equal => {
            if unique {
                return Err(MergeError::KeyTwice { side, first, again });
            }
            Ok(())
        }
        Ordering::Greater => Err(MergeError::Falls { side, line: again }),
    }
}

impl<'a, R: Read + Drop> Cursor<'a, R> {
    /// Creates a cursor that reads the rows of `source`, and reads the first row ahead. `wanted`
    /// has the columns to read and the options for the keys. Fails with `Csv` if the first row
    /// can't be read, even if the reason is a failed allocation, and with `Memory` if any other
    /// allocation fails.
    pub fn open(
        alloc: Global,
        source: Source<R>,
        wanted: Wanted<'a>,
    ) -> Result<Cursor<'a, R>, MergeError>
        ensures begun { MatchResult result
            (λ c. (options : CsvOptions) (text : List ℕ) → IsOpen R.remaining options text source
            → IsAt R.remaining options text [] c)
            (λ error. (options : CsvOptions) (text : List ℕ)
            → IsOpen R.remaining options text source
            → IsTextFault wanted.entry.side options text error) }
        ensures wanted { IfOk result
            (λ c. (c.columns ≡ wanted.entry.columns) × (c.keys ≡ wanted.entry.keys)
            × (c.unique ≡ wanted.entry.unique) × (c.side ≡ wanted.entry.side)) }
    {
        let Ok(mut reader) = source.rows(alloc) else {
            return Err(MergeError::Memory);
        };
        let mut row = Box::new(alloc, ByteRecord::new(alloc))?;
        let line = read_row(&mut reader, &mut row, wanted.side)?;
        let mut key = Vec::new(alloc);
        let next = Row {
            record: &row,
            columns: wanted.columns,
            number: 1,
            line: 0,
        };
        write_key(&mut key, &next, wanted.keys)?;
        let before = Vec::new(alloc);
        Ok(Cursor {
            reader,
            columns: wanted.columns,
            keys: wanted.keys,
            unique: wanted.unique,
            side: wanted.side,
            row,
            line,
            number: 1,
            key,
            before,
        })
    }

    /// Returns the next row, which must exist. It stays the next row until `advance` is called.
    pub fn row(&self) -> Row<'_>
        requires { IsSome self.now.line }
        ensures row { seen_of result ≡ next_seen self.now }
        ensures number { result.number ≡ self.now.number }
    {
        Row {
            record: &self.row,
            columns: self.columns,
            number: self.number,
            line: self.line.unwrap_or(0),
        }
    }

    /// Moves past the next row, which must exist, and reads the row after it. That row, if there is
    /// one, becomes the next row.
    ///
    /// Fails with `Falls` if the key of the new row is less than that of the row before it, and
    /// with `KeyTwice` if the keys are equal but must be unique. Fails with `Csv` if the row can't
    /// be read, even if the reason is a failed allocation. Fails with `Memory` if any other
    /// allocation fails, or if the row number overflows. After an error the results of further
    /// calls are not specified.
    pub fn advance(&mut self) -> Result<(), MergeError>
        requires { IsSome self.old.line }
        ensures on { MatchResult result
            (λ _. (options : CsvOptions) (text : List ℕ) (rows : List Seen)
            → IsAt R.remaining options text rows self.old
            → IsAt R.remaining options text (rows ++ next_seen self.old ∷ []) self.new)
            (λ error. (options : CsvOptions) (text : List ℕ) (rows : List Seen)
            → IsAt R.remaining options text rows self.old
            → IsCursorFault self.old.side options text self.old.columns.now self.old.keys.now
            self.old.unique error) }
        ensures rises { OnOk result (ComesBehind key_less (next_key self.old) (next_key self.new)) }
        ensures alike { OnOk result (IsAlike self.old self.new) }
    {
        let first = self.line.unwrap_or(0);
        if self.number == u64::MAX {
            return Err(MergeError::Memory);
        }
        self.number += 1;
        mem::swap(&mut self.before, &mut self.key);
        self.line = read_row(&mut self.reader, &mut self.row, self.side)?;
        let Some(again) = self.line else {
            return Ok(());
        };
        let next = Row {
            record: &self.row,
            columns: self.columns,
            number: self.number,
            line: again,
        };
        write_key(&mut self.key, &next, self.keys)?;
        test_order(
            &self.before,
            &self.key,
            self.unique,
            self.side,
            (first, again),
        )?;
        Ok(())
    }
}
