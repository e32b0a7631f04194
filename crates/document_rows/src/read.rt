//! Reads the documents of an input into a table.

ghost use Rattle.std.specs.Io.Buffered.{reader_remaining};
ghost use Rattle.std.specs.Prelude.{◌≡◌, ◌++◌, ◌∷◌, [], ℕ, suc, List, Some, length, IfErr, IfOk};
ghost use Rattle.std.specs.Prelude.{MatchResult};
ghost use Rattle.json_paths.specs.Views.{paths_view};
ghost use Rattle.document_rows.specs.Errors.{IsMemory, IsReadFault, IsStop};
ghost use Rattle.document_rows.specs.Known.{HoldsDocumentsOf, KnowsLines};
ghost use Rattle.document_rows.specs.Reading.{IsFault, IsFaultAt, TakesLine};
ghost use Rattle.document_rows.specs.Rows.{HoldsRows, ReadsAll};
ghost use Rattle.document_rows.specs.Tables.{AreDocumentsOf, AreDocumentsWith, HaveDocuments};
ghost use Rattle.document_rows.specs.declared.reading.Reading.{Reading};

use crate::cells::{Rooms, Rows};
use crate::error::ReadError;
use crate::guesses::Guesses;
use crate::known::Known;
use crate::lines::read_line;
use crate::reading::Reading;
use crate::values::Trouble;
use diff_tables::table::Table;
use document_faults::fault::LineFault;
use json_paths::path::Path;
use std::alloc::{AllocError, Global};
use std::io;
use std::io::{BufRead, BufReader, ErrorKind, Read};

/// The documents that were read from an input with a document on each line.
#[derive(Drop)]
pub struct Documents {
    /// A row for each document. Its cells are the normal text of the value at each key, or `null`
    /// if there is none, and then the line.
    pub table: Table,
    /// The line number of each row. The first line is 1.
    pub lines: Vec<u64>,
    /// The numbers of the lines that were skipped because they are not documents.
    pub skipped: Vec<u64>,
}

/// Converts an error of the reader: a failed allocation becomes `Memory`, any other error `Read`.
fn fault_of(cause: io::Error) -> ReadError
    ensures { IsStop result }
{
    match cause.kind() {
        ErrorKind::OutOfMemory => ReadError::Memory,
        _ => ReadError::Read { cause },
    }
}

/// Reads the next line into `line`, without its line feed. Returns `false` if there are no more
/// lines. If the reader fails, the error is `Read` or `Memory` (`fault_of`).
fn next_line<B: BufRead>(reader: &mut B, line: &mut Vec<u8>) -> Result<bool, ReadError>
    ensures told { IfOk result
        (λ found. (rest : List ℕ) → B.remaining reader.old ≡ Some rest
        → TakesLine B.remaining rest line.new.items reader.new found) }
    ensures stop { IfErr result IsStop }
{
    match read_line(reader, line) {
        Ok(found) => Ok(found),
        Err(cause) => Err(fault_of(cause)),
    }
}

/// Returns the error `Line` for `line`, which is not a document because of `fault`. `number` is the
/// number of the line. Returns `Memory` instead if finding the column of the fault fails for lack
/// of memory.
fn fault_in(
    alloc: Global,
    line: &[u8],
    number: u64,
    fault: LineFault,
    rooms: &mut Rooms,
) -> ReadError
    ensures { IsFault number fault result }
{
    match rooms.column_of(alloc, line, fault) {
        Ok(column) => ReadError::Line {
            line: number,
            column,
            fault,
        },
        Err(AllocError) => ReadError::Memory,
    }
}

/// Appends the row of `line` to `rows`. The row is copied if `known` finds it with the help of
/// `guess` (`Known::push_row`); otherwise the line is parsed. A document of another part is left
/// out. `number` is the number of the line.
///
/// A line that is not a document is recorded as skipped if `reading` allows it; otherwise fails
/// with `Line`. Fails with `Memory` if an allocation fails.
fn keep_line(
    alloc: Global,
    rows: &mut Rows,
    line: &[u8],
    number: u64,
    keys: &[Path],
    reading: Reading,
    known: &Known<'_>,
    guess: Option<usize>,
    rooms: &mut Rooms,
) -> Result<(), ReadError>
    requires { KnowsLines reading (paths_view keys.now) known.now }
    ensures { MatchResult result
        (λ _. (all : List (List ℕ)) → number ≡ suc (length all)
        → HoldsRows reading (paths_view keys.now) all rows.old
        → HoldsRows reading (paths_view keys.now) (all ++ line.now ∷ []) rows.new)
        (IsFaultAt reading (paths_view keys.now) line.now number) }
{
    let skips = reading.skip_bad;
    if known.push_row(rows, line, number, guess)? {
        return Ok(());
    }
    match rows.push(alloc, line, number, keys, reading, rooms) {
        Ok(()) => Ok(()),
        Err(Trouble::Memory) => Err(ReadError::Memory),
        Err(Trouble::Fault(fault)) => {
            if !skips {
                return Err(fault_in(alloc, line, number, fault, rooms));
            }
            rows.skip(number)?;
            Ok(())
        }
    }
}

/// Reads all lines from `reader`, and appends their rows to `rows`, which must be empty. `line`,
/// `guesses` and `rooms` are memory that is reused.
///
/// A line that is not a document is recorded as skipped if `reading` allows it; otherwise fails
/// with `Line`. Fails with `Read` if the reader fails, and with `Memory` if an allocation fails.
fn read_lines<R: Read + Drop>(
    alloc: Global,
    reader: &mut BufReader<R>,
    keys: &[Path],
    reading: Reading,
    known: &Known<'_>,
    rows: &mut Rows,
    line: &mut Vec<u8>,
    guesses: &mut Guesses,
    rooms: &mut Rooms,
) -> Result<(), ReadError>
    requires known { KnowsLines reading (paths_view keys.now) known.now }
    requires none { HoldsRows reading (paths_view keys.now) [] rows.old }
    ensures { MatchResult result
        (λ _. ReadsAll (reader_remaining R.remaining) reading (paths_view keys.now) reader.old
        rows.new)
        (λ error. (text : List ℕ) → reader_remaining R.remaining reader.old ≡ Some text
        → IsReadFault text reading (paths_view keys.now) error) }
{
    for before in 0..u64::MAX {
        if guesses.are_spent() {
            *guesses = known.guesses_for(alloc, reader.buffer())?;
        }
        if !next_line(reader, line)? {
            return Ok(());
        }
        let guess = guesses.take();
        keep_line(
            alloc,
            rows,
            line,
            before + 1,
            keys,
            reading,
            known,
            guess,
            rooms,
        )?;
    }
    // No memory holds this many rows.
    Err(ReadError::Memory)
}

/// Reads all lines from `reader`, and returns their rows and the numbers of the skipped lines. Rows
/// of most lines that `known` has are copied, without parsing these lines.
///
/// Fails with `Line` if a line is not a document and lines may not be skipped, with `Read` if the
/// reader fails, and with `Memory` if an allocation fails.
fn read_rows<R: Read + Drop>(
    alloc: Global,
    mut reader: BufReader<R>,
    keys: &[Path],
    reading: Reading,
    known: &Known<'_>,
) -> Result<Rows, ReadError>
    requires { KnowsLines reading (paths_view keys.now) known.now }
    ensures { MatchResult result
        (ReadsAll (reader_remaining R.remaining) reading (paths_view keys.now) reader)
        (λ error. (text : List ℕ) → reader_remaining R.remaining reader ≡ Some text
        → IsReadFault text reading (paths_view keys.now) error) }
{
    let mut rows = Rows::new(alloc)?;
    let mut rooms = Rooms::new(alloc)?;
    let mut line = Vec::new(alloc);
    let mut guesses = Guesses::none(alloc);
    match read_lines(
        alloc,
        &mut reader,
        keys,
        reading,
        known,
        &mut rows,
        &mut line,
        &mut guesses,
        &mut rooms,
    ) {
        Ok(()) => Ok(rows),
        Err(error) => Err(error),
    }
}

/// Converts `rows` to `Documents`. The table has a column for each of `keys`, and then one for the
/// line. The only error is `Memory`.
fn table_of(alloc: Global, rows: Rows, keys: &[Path]) -> Result<Documents, ReadError>
    requires { (reading : Reading) × (lines : List (List ℕ))
        × HoldsRows reading (paths_view keys.now) lines rows }
    ensures { MatchResult result
        (λ d. (reading : Reading) (lines : List (List ℕ))
        → HoldsRows reading (paths_view keys.now) lines rows
        → AreDocumentsWith reading (paths_view keys.now) lines d.table d.lines.items
        d.skipped.items) IsMemory }
{
    let Rows {
        cells,
        lines,
        skipped,
    } = rows;
    match Table::new(alloc, keys.len() + 1, lines.len(), cells) {
        Ok(table) => Ok(Documents {
            table,
            lines,
            skipped,
        }),
        Err(_) => Err(ReadError::Memory),
    }
}

/// The size of the read buffer in bytes.
const BUFFER: usize = 1 << 18;

/// Wraps a reader in a buffered reader. Nothing is read yet. The only error is `Memory`.
fn buffered<R: Read + Drop>(alloc: Global, reader: R) -> Result<BufReader<R>, ReadError>
    ensures { MatchResult result (λ b. reader_remaining R.remaining b ≡ R.remaining reader) IsStop }
{
    match BufReader::with_capacity(alloc, BUFFER, reader) {
        Ok(buffered) => Ok(buffered),
        Err(cause) => Err(fault_of(cause)),
    }
}

/// Reads the documents of an input with a document on each line. The rows of most lines that
/// `known` has are copied, without parsing these lines.
///
/// Fails with `Line` if a line is not a document and lines may not be skipped, with `Read` if the
/// reader fails, and with `Memory` if an allocation fails.
fn read_unknown<R: Read + Drop>(
    alloc: Global,
    reader: R,
    keys: &[Path],
    reading: Reading,
    known: &Known<'_>,
) -> Result<Documents, ReadError>
    requires { KnowsLines reading (paths_view keys.now) known.now }
    ensures shape { IfOk result
        (λ d. HaveDocuments reading (paths_view keys.now) d.table d.lines.items) }
    ensures documents { MatchResult result
        (λ d. (text : List ℕ) → R.remaining reader ≡ Some text
        → AreDocumentsOf text reading (paths_view keys.now) d.table d.lines.items
        d.skipped.items)
        (λ error. (text : List ℕ) → R.remaining reader ≡ Some text
        → IsReadFault text reading (paths_view keys.now) error) }
{
    let buffered = buffered(alloc, reader)?;
    let rows = read_rows(alloc, buffered, keys, reading, known)?;
    let documents = table_of(alloc, rows, keys)?;
    Ok(documents)
}

/// Reads the documents of an input with a document on each line.
///
/// A document must have a value at each key, unless `reading` allows null keys. Lines that are not
/// documents are skipped if `reading` allows it. If `reading` has a part, only its documents are
/// read.
///
/// Fails with `Line` if a line is not a document and lines may not be skipped, with `Read` if the
/// reader fails, and with `Memory` if an allocation fails.
pub fn read_documents<R: Read + Drop>(
    alloc: Global,
    reader: R,
    keys: &[Path],
    reading: Reading,
) -> Result<Documents, ReadError>
    ensures shape { IfOk result
        (λ d. HaveDocuments reading (paths_view keys.now) d.table d.lines.items) }
    ensures documents { MatchResult result
        (λ d. (text : List ℕ) → R.remaining reader ≡ Some text
        → AreDocumentsOf text reading (paths_view keys.now) d.table d.lines.items
        d.skipped.items)
        (λ error. (text : List ℕ) → R.remaining reader ≡ Some text
        → IsReadFault text reading (paths_view keys.now) error) }
{
    let known = Known::none(alloc);
    let documents = read_unknown(alloc, reader, keys, reading, &known)?;
    Ok(documents)
}

/// Reads the documents of an input with a document on each line. The result is that of
/// `read_documents`, but most lines that equal the line of a row of `table` are not parsed: the row
/// is copied. `table` must have been read with the same `keys` and the same `reading`.
///
/// Fails with `Line` if a line is not a document and lines may not be skipped, with `Read` if the
/// reader fails, and with `Memory` if an allocation fails.
pub fn read_documents_beside<R: Read + Drop>(
    alloc: Global,
    reader: R,
    keys: &[Path],
    reading: Reading,
    table: &Table,
) -> Result<Documents, ReadError>
    requires { HoldsDocumentsOf reading (paths_view keys.now) table.now }
    ensures shape { IfOk result
        (λ d. HaveDocuments reading (paths_view keys.now) d.table d.lines.items) }
    ensures documents { MatchResult result
        (λ d. (text : List ℕ) → R.remaining reader ≡ Some text
        → AreDocumentsOf text reading (paths_view keys.now) d.table d.lines.items
        d.skipped.items)
        (λ error. (text : List ℕ) → R.remaining reader ≡ Some text
        → IsReadFault text reading (paths_view keys.now) error) }
{
    let known = Known::of(alloc, table)?;
    let documents = read_unknown(alloc, reader, keys, reading, &known)?;
    Ok(documents)
}
