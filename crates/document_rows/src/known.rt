//! Looks up the lines of the right input among the lines of the left input. An equal line gets a
//! copy of the left row, and does not have to be parsed.

ghost use Rattle.std.specs.Prelude.{◌≡◌, ◌<◌, ◌≤◌, ◌+◌, ◌++◌, ◌∷◌, [], ℕ, suc, List, false, true};
ghost use Rattle.std.specs.Prelude.{length, IfOk};
ghost use Rattle.json_paths.specs.Paths.{Path};
ghost use Rattle.document_rows.specs.Known.{HoldsDocumentsOf, KnowsLines};
ghost use Rattle.document_rows.specs.Rows.{HoldsRows};
ghost use Rattle.document_rows.specs.Tables.{HoldsDocuments};
ghost use Rattle.document_rows.specs.declared.reading.Reading.{Reading};

use crate::cells::Rows;
use crate::document::line_of;
use crate::guesses::{Guesses, likely_rows, lines_in};
use diff_tables::table::Table;
use std::alloc::{AllocError, Global};

/// An odd number with well mixed bits: 2^64 divided by the golden ratio.
const SPREAD: u64 = 0x9e37_79b9_7f4a_7c15;

/// The number of slots in the hash table for each row. With 8, few lines share a slot.
const SLOTS: usize = 8;

/// The known lines: those from which the rows of `table` were read. Equal lines have equal rows, so
/// the row of a known line can be copied. If `table` is `None`, no line is known.
#[derive(Drop)]
pub(crate) struct Known<'a> {
    table: Option<&'a Table>,
    // A hash table of rows, without collision handling: the slot of a line has the row that was
    // read from the line. If several lines have the same slot, it has the row of the last one. An
    // unused slot has 0. So `push_row` compares the line before it uses a row.
    slots: Vec<u32>,
}

/// Returns the eight bytes of a line from index `at` on, as a little-endian number.
#[inline(always)]
fn word_at(line: &[u8], at: usize) -> u64
    requires { at + 8 ≤ length line.now }
{
    u64::from_le_bytes([
        line[at],
        line[at + 1],
        line[at + 2],
        line[at + 3],
        line[at + 4],
        line[at + 5],
        line[at + 6],
        line[at + 7],
    ])
}

/// Returns a hash of two numbers.
#[inline(always)]
fn mixed(number: u64, other: u64) -> u64 {
    (number ^ other).wrapping_mul(SPREAD).rotate_left(29)
}

/// Returns a hash of `line`, the last bytes of a line (fewer than 32), and of `start`, the hash of
/// the bytes before them.
#[inline(always)]
fn spread_short(line: &[u8], start: u64) -> u64 {
    let mut number = start;
    let words = line.len() / 8;
    for i in 0..words {
        number = mixed(number, word_at(line, 8 * i));
    }
    for byte in &line[8 * words..] {
        number = mixed(number, u64::from(*byte));
    }
    number ^ (number >> 32)
}

/// Returns a hash of a line. Four independent hashes each take every fourth group of eight bytes,
/// so the processor can compute them in parallel.
fn spread(line: &[u8]) -> u64 {
    let parts = line.len() / 32;
    let (mut a, mut b, mut c, mut d) = (0, 1, 2, 3);
    for i in 0..parts {
        let at = 32 * i;
        a = mixed(a, word_at(line, at));
        b = mixed(b, word_at(line, at + 8));
        c = mixed(c, word_at(line, at + 16));
        d = mixed(d, word_at(line, at + 24));
    }
    spread_short(&line[32 * parts..], mixed(mixed(a, b), mixed(c, d)))
}

/// Returns the slot of a line: its hash modulo `count`, the number of slots.
fn slot_of(line: &[u8], count: usize) -> usize
    requires { 0 < count }
    ensures { result < count }
{
    (spread(line) % count as u64) as usize
}

impl<'a> Known<'a> {
    /// Creates a `Known` without lines: no line is known.
    pub(crate) fn none(alloc: Global) -> Known<'a>
        ensures { (reading : Reading) (keys : List Path) → KnowsLines reading keys result }
    {
        let slots = Vec::new(alloc);
        Known { table: None, slots }
    }

    /// Creates a `Known` of the lines from which the rows of `table` were read.
    pub(crate) fn of(alloc: Global, table: &'a Table) -> Result<Known<'a>, AllocError>
        requires { HoldsDocuments table.now }
        ensures { IfOk result
            (λ known. (reading : Reading) (keys : List Path)
            → HoldsDocumentsOf reading keys table.now → KnowsLines reading keys known) }
    {
        let count = table.count().saturating_mul(SLOTS).saturating_add(1);
        let mut slots = vec![in alloc; 0; count]?;
        for row in 0..table.count() {
            if let Ok(number) = u32::try_from(row) {
                let slot = slot_of(line_of(table, row), slots.len());
                slots[slot] = number;
            }
        }
        Ok(Known {
            table: Some(table),
            slots,
        })
    }

    /// Returns the slot of each line. Returns no slots if no line is known.
    fn slots_for(&self, alloc: Global, lines: &[&[u8]]) -> Result<Vec<usize>, AllocError> {
        let mut slots = Vec::with_capacity(alloc, lines.len())?;
        if self.slots.is_empty() {
            return Ok(slots);
        }
        for line in lines {
            slots.push(slot_of(line, self.slots.len()))?;
        }
        Ok(slots)
    }

    /// Returns the row in each of `slots`. A number that is not a slot is left out.
    fn rows_in(&self, alloc: Global, slots: &[usize]) -> Result<Vec<usize>, AllocError> {
        let mut rows = Vec::with_capacity(alloc, slots.len())?;
        for slot in slots {
            if *slot < self.slots.len() {
                rows.push(self.slots[*slot] as usize)?;
            }
        }
        Ok(rows)
    }

    /// Returns guesses for the complete lines at the beginning of `bytes`, but at most for 256
    /// lines (`BLOCK`). Returns no guesses if no line is known. Each step is done for all lines
    /// before the next step, so that the processor can fetch memory for several lines at once.
    pub(crate) fn guesses_for(&self, alloc: Global, bytes: &[u8]) -> Result<Guesses, AllocError>
        requires { (reading : Reading) × (keys : List Path) × KnowsLines reading keys self.now }
    {
        let Some(table) = self.table else {
            return Ok(Guesses::none(alloc));
        };
        let lines = lines_in(alloc, bytes)?;
        let slots = self.slots_for(alloc, &lines)?;
        let rows = self.rows_in(alloc, &slots)?;
        let rows = likely_rows(alloc, table, rows, &lines)?;
        Ok(Guesses::of(rows))
    }

    /// Returns the row in the slot of `line`, or 0 if no line is known. The row may have been read
    /// from a different line.
    fn row_for(&self, line: &[u8]) -> usize {
        if self.slots.is_empty() {
            return 0;
        }
        self.slots[slot_of(line, self.slots.len())] as usize
    }

    /// Appends to `rows` a copy of the row that was read from a line equal to `line`, and returns
    /// `true`. Tries only one row: `guess`, or without a guess the row in the slot of `line`. If
    /// this row was not read from an equal line, appends nothing and returns `false`. `number` is
    /// the number of `line` in the input.
    pub(crate) fn push_row(
        &self,
        rows: &mut Rows,
        line: &[u8],
        number: u64,
        guess: Option<usize>,
    ) -> Result<bool, AllocError>
        requires { (reading : Reading) × (keys : List Path) × KnowsLines reading keys self.now }
        ensures found { IfOk result
            (λ found. found ≡ true → (reading : Reading) (keys : List Path) (lines : List (List ℕ))
            → KnowsLines reading keys self.now → number ≡ suc (length lines)
            → HoldsRows reading keys lines rows.old
            → HoldsRows reading keys (lines ++ line.now ∷ []) rows.new) }
        ensures other { IfOk result (λ found. found ≡ false → rows.new ≡ rows.old) }
    {
        let Some(table) = self.table else {
            return Ok(false);
        };
        let row = match guess {
            Some(row) => row,
            None => self.row_for(line),
        };
        if row >= table.count() || line_of(table, row) != line {
            return Ok(false);
        }
        rows.push_copy(table, row, number)?;
        Ok(true)
    }
}
