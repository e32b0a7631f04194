//! Guesses for the next lines of the right input: rows of the left table that may have been read
//! from equal lines. A guess may be wrong, so no contract mentions it.

ghost use Rattle.document_rows.specs.Tables.{HoldsDocuments};

use crate::document::line_of;
use diff_tables::table::Table;
use memchr::memchr;
use std::alloc::{AllocError, Global};

/// The most lines in a block. The lines of a block are first all looked up and then all processed.
/// The lookups don't depend on each other, so the processor can wait for many of them at once.
const BLOCK: usize = 256;

/// Guesses for the next lines of the right input, in order. For each of these lines, `rows` has a
/// row of the left table that may have been read from an equal line, or a number that is not a row
/// if there is no guess.
#[derive(Drop)]
pub(crate) struct Guesses {
    rows: Vec<usize>,
    // The number of guesses that were taken.
    next: usize,
}

impl Guesses {
    /// Creates an empty list of guesses.
    pub(crate) fn none(alloc: Global) -> Guesses {
        let rows = Vec::new(alloc);
        Guesses { rows, next: 0 }
    }

    /// Creates a list of guesses: `rows[0]` for the next line, `rows[1]` for the line after it, and
    /// so on.
    pub(crate) fn of(rows: Vec<usize>) -> Guesses {
        Guesses { rows, next: 0 }
    }

    /// Returns whether all guesses were taken.
    pub(crate) fn are_spent(&self) -> bool {
        self.next >= self.rows.len()
    }

    /// Takes the guess for the next line. Returns `None` if all guesses were taken.
    pub(crate) fn take(&mut self) -> Option<usize> {
        if self.next >= self.rows.len() {
            return None;
        }
        let row = self.rows[self.next];
        self.next += 1;
        Some(row)
    }
}

/// Splits `bytes` at the first line feed, and returns the line before it and the rest after it.
/// Returns `None` if there is no line feed.
fn split_line<'a>(bytes: &'a [u8]) -> Option<(&'a [u8], &'a [u8])> {
    let end = memchr(b'\n', bytes)?;
    Some((&bytes[..end], &bytes[end + 1..]))
}

/// Returns the complete lines at the beginning of `bytes`, but at most `BLOCK` lines.
pub(crate) fn lines_in<'a>(alloc: Global, bytes: &'a [u8]) -> Result<Vec<&'a [u8]>, AllocError> {
    let mut lines = Vec::with_capacity(alloc, BLOCK)?;
    let mut rest = bytes;
    for _ in 0..BLOCK {
        let Some((line, behind)) = split_line(rest) else {
            return Ok(lines);
        };
        lines.push(line)?;
        rest = behind;
    }
    Ok(lines)
}

/// Returns, for each of `rows`, the line from which this row of `table` was read, or an empty line
/// if the number is not a row of `table`.
fn lines_of<'a>(
    alloc: Global,
    table: &'a Table,
    rows: &[usize],
) -> Result<Vec<&'a [u8]>, AllocError>
    requires { HoldsDocuments table.now }
{
    let mut lines: Vec<&[u8]> = Vec::with_capacity(alloc, rows.len())?;
    for row in rows {
        if *row < table.count() {
            lines.push(line_of(table, *row))?;
        } else {
            lines.push(b"")?;
        }
    }
    Ok(lines)
}

/// The distance between the bytes that `are_similar` compares. It is the size of a cache line on
/// most processors.
const PART: usize = 64;

/// Returns whether two lines have the same length, the same last byte, and the same byte at the
/// start of each complete block of 64 bytes.
#[inline(always)]
fn are_similar(line: &[u8], other: &[u8]) -> bool {
    if line.len() != other.len() {
        return false;
    }
    let mut similar = line.last() == other.last();
    for part in 0..line.len() / PART {
        similar &= line[PART * part] == other[PART * part];
    }
    similar
}

/// Returns `rows` without the unlikely guesses: `rows[k]` is replaced by a number that is not a row
/// if the line of row `rows[k]` of `table` is not similar to `lines[k]` (`are_similar`). The
/// comparison also loads the lines of the remaining rows into the cache, before `push_row` compares
/// them.
pub(crate) fn likely_rows(
    alloc: Global,
    table: &Table,
    rows: Vec<usize>,
    lines: &[&[u8]],
) -> Result<Vec<usize>, AllocError>
    requires { HoldsDocuments table.now }
{
    let known = lines_of(alloc, table, &rows)?;
    let mut likely = rows;
    for k in 0..likely.len().min(lines.len()).min(known.len()) {
        if !are_similar(known[k], lines[k]) {
            likely[k] = table.count();
        }
    }
    Ok(likely)
}
