//! Collects the report of two sorted texts, while their rows are merged.

ghost use Rattle.std.specs.Prelude.{◌≡◌, ◌<◌, ◌-◌, ◌^◌, [], suc, All, IfOk, IsTrue, OnOk};
ghost use Rattle.diff_keys.specs.declared.matching.Matching.{Matching};
ghost use Rattle.diff_merge.specs.Merging.{IsEmpty};
ghost use Rattle.diff_sorted.specs.KeptLaws.{IsAlike, alike_on, alike_self};
ghost use Rattle.diff_sorted.specs.Told.{IsFit, IsTold};

use crate::lines::Lines;
use crate::tell::{tell_added, tell_changed, tell_removed};
use diff_merge::row::Row;
use diff_merge::sink::Sink;
use diff_single::changes::count_changes;
use diff_single::frame::Frame;
use diff_single::row;
use diff_tables::string_list::StringList;
use polars_arrays_flat::byte_rows::ByteRows;
use std::alloc::{AllocError, Global};

/// The bound of row numbers: a report accepts a row only if its number is less than this.
const MOST_ROWS: u64 = 1 << 62;

/// The report of two sorted texts, so far: the lines of the first differences, and the counts.
#[derive(Drop)]
pub struct SortedReport<'a> {
    pub(crate) alloc: Global,
    /// The names and options that all lines share.
    pub(crate) frame: Frame<'a>,
    /// The greatest number of lines for each kind of difference.
    pub(crate) limit: usize,
    /// The matched pairs that differ.
    pub(crate) changed: Lines,
    /// The left rows without a partner.
    pub(crate) removed: Lines,
    /// The right rows without a partner.
    pub(crate) added: Lines,
    /// The number of matched pairs whose rows are equal.
    pub(crate) same: usize,
    /// For each column, the number of matched pairs that differ in it.
    pub(crate) counts: Vec<usize>,
}

/// Returns whether each of `numbers` is less than `bound`.
fn are_below(numbers: &[usize], bound: usize) -> bool
    ensures { IsTrue result → All (λ n. n < bound) numbers.now }
{
    for k in 0..numbers.len() {
        if numbers[k] >= bound {
            return false;
        }
    }
    true
}

/// Returns `n + 1`, or an error if this overflows.
fn one_more(n: usize) -> Result<usize, AllocError>
    ensures { IfOk result (λ m. m ≡ suc n) }
{
    match n.checked_add(1) {
        Some(more) => Ok(more),
        None => Err(AllocError),
    }
}

impl<'a> SortedReport<'a> {
    /// Creates a report that has received no rows. `frame` has the names and options for the lines.
    /// `limit` is the greatest number of lines for each kind of difference.
    pub fn new(
        alloc: Global,
        frame: Frame<'a>,
        limit: usize,
    ) -> Result<SortedReport<'a>, AllocError>
        ensures frame { IfOk result (λ r. r.frame ≡ frame.entry) }
        ensures limit { IfOk result (λ r. r.limit ≡ limit) }
        ensures told { IfOk result (λ r. (m : Matching) → IsEmpty m → IsTold r [] [] m) }
    {
        let width = frame.names.count();
        let counts: Vec<usize> = vec![in alloc; 0; width]?;
        Ok(SortedReport {
            alloc,
            frame,
            limit,
            changed: Lines::new(alloc),
            removed: Lines::new(alloc),
            added: Lines::new(alloc),
            same: 0,
            counts,
        })
    }

    /// Checks that `row` has a cell for each column of the report, and that its number is below
    /// `MOST_ROWS`. Also checks that the report has a count for each column, and that its key
    /// columns exist. Fails with `AllocError` if any of this is not so.
    fn test_row(&self, row: &Row<'_>) -> Result<(), AllocError>
        ensures { OnOk result (IsFit self.now row.now) }
    {
        let width = self.frame.names.count();
        if row.count() != width {
            return Err(AllocError);
        }
        if self.counts.len() != width {
            return Err(AllocError);
        }
        if row.number >= MOST_ROWS {
            return Err(AllocError);
        }
        let has_keys = are_below(self.frame.keys, width);
        if !has_keys {
            return Err(AllocError);
        }
        Ok(())
    }

    /// Checks that each count by column can be increased without overflow. Fails with `AllocError`
    /// if one can't.
    fn check_counts(&self) -> Result<(), AllocError>
        ensures { OnOk result (All (λ n. n < 2 ^ 64 - 1) self.now.counts.items) }
    {
        let have_room = are_below(&self.counts, usize::MAX);
        if !have_room {
            return Err(AllocError);
        }
        Ok(())
    }
}

impl<'a> Sink for SortedReport<'a> {
    ghost holds = { IsTold };

    ghost keeps = { IsAlike };

    ghost keeps_self = { alike_self };

    ghost keeps_on = { alike_on };

    /// Counts a matched pair as changed or the same. For a changed pair, also counts the columns
    /// that differ, and adds a line unless `self.limit` lines are there already. Fails if an
    /// allocation fails, `test_row` fails or a count overflows.
    fn pair(&mut self, left: &Row<'_>, right: &Row<'_>) -> Result<(), AllocError> {
        self.test_row(left)?;
        self.test_row(right)?;
        self.check_counts()?;
        let is_changed = count_changes(left, right, &mut self.counts);
        if !is_changed {
            self.same = one_more(self.same)?;
            return Ok(());
        }
        let left = row::Row {
            cells: left,
            number: left.number,
            line: left.line,
        };
        let right = row::Row {
            cells: right,
            number: right.number,
            line: right.line,
        };
        let (frame, limit) = (&self.frame, self.limit);
        tell_changed(self.alloc, &mut self.changed, frame, limit, &left, &right)?;
        Ok(())
    }

    /// Counts a removed row, and adds its line unless `self.limit` lines are there already. Fails
    /// if an allocation fails, `test_row` fails or the count overflows.
    fn removed(&mut self, row: &Row<'_>) -> Result<(), AllocError> {
        self.test_row(row)?;
        let row = row::Row {
            cells: row,
            number: row.number,
            line: row.line,
        };
        let (frame, limit) = (&self.frame, self.limit);
        tell_removed(self.alloc, &mut self.removed, frame, limit, &row)?;
        Ok(())
    }

    /// Counts an added row, and adds its line unless `self.limit` lines are there already. Fails if
    /// an allocation fails, `test_row` fails or the count overflows.
    fn added(&mut self, row: &Row<'_>) -> Result<(), AllocError> {
        self.test_row(row)?;
        let row = row::Row {
            cells: row,
            number: row.number,
            line: row.line,
        };
        let (frame, limit) = (&self.frame, self.limit);
        tell_added(self.alloc, &mut self.added, frame, limit, &row)?;
        Ok(())
    }
}
