//! Writes the text of a report that has received all rows.

ghost use Rattle.std.specs.List.{concat};
ghost use Rattle.std.specs.Prelude.{◌≡◌, ◌++◌, List, take, OnOk};
ghost use Rattle.diff_keys.specs.Outcome.{no_rows};
ghost use Rattle.diff_merge.specs.Rows.{Seen};
ghost use Rattle.diff_report.specs.Counts.{column_counts};
ghost use Rattle.diff_report.specs.Summary.{AreTotalsOf};
ghost use Rattle.diff_report.specs.declared.sides.Sides.{Sides};
ghost use Rattle.diff_run.specs.Lines.{all_lines};
ghost use Rattle.diff_run.specs.Run.{differences_text};
ghost use Rattle.diff_sorted.specs.Ends.{IsToldAs};
ghost use Rattle.diff_tables.specs.declared.compare.Comparison.{Comparison};

use crate::report::SortedReport;
use diff_report::summary::Totals;
use diff_run::lines::push_end;
use polars_arrays_flat::byte_rows::ByteRows;
use std::alloc::AllocError;

impl<'a> SortedReport<'a> {
    /// Returns the totals of all rows that the report has received.
    fn totals(&self) -> Totals
        ensures { (left_rows right_rows : List Seen) (s : Sides) (c : Comparison)
            → IsToldAs self.now left_rows right_rows s c → AreTotalsOf c result }
    {
        Totals {
            changed: self.changed.count,
            removed: self.removed.count,
            added: self.added.count,
            same: self.same,
        }
    }

    /// Appends the lines of the first `self.limit` differences: the changed rows in the order of
    /// the left rows, then the removed rows, then the added rows.
    fn push_lines(&self, out: &mut Vec<u8>) -> Result<(), AllocError>
        ensures { OnOk result ((left_rows right_rows : List Seen) (s : Sides) (c : Comparison)
            → IsToldAs self.now left_rows right_rows s c
            → out.new.items ≡ out.old.items
            ++ concat (take self.now.limit (all_lines self.now.frame.format s c))) }
    {
        let changed = self.changed.first(self.limit);
        let room = self.limit.saturating_sub(self.changed.count);
        let removed = self.removed.first(room);
        let left = room.saturating_sub(self.removed.count);
        let added = self.added.first(left);
        out.extend_from_slice(changed)?;
        out.extend_from_slice(removed)?;
        out.extend_from_slice(added)?;
        Ok(())
    }

    /// Appends the report of the rows: the lines of the first differences, and then the counts.
    /// Fails with `AllocError` if an allocation fails, or if there is not one count for each column
    /// name.
    pub fn push(&self, out: &mut Vec<u8>) -> Result<(), AllocError>
        ensures { OnOk result ((left_rows right_rows : List Seen) (s : Sides) (c : Comparison)
            → IsToldAs self.now left_rows right_rows s c
            → out.new.items ≡ out.old.items
            ++ differences_text self.now.frame.format s c
            (column_counts s c.matching c.changed.items) self.now.limit) }
    {
        let (format, names) = (self.frame.format, self.frame.names);
        if self.counts.len() != names.count() {
            return Err(AllocError);
        }
        self.push_lines(out)?;
        push_end(out, format, names, &self.totals(), &self.counts, self.limit)?;
        Ok(())
    }

    /// Returns whether no row is changed, removed or added.
    pub fn is_same(&self) -> bool
        ensures { (left_rows right_rows : List Seen) (s : Sides) (c : Comparison)
            → IsToldAs self.now left_rows right_rows s c
            → result ≡ no_rows c.matching c.changed.items }
    {
        self.totals().differences() == 0
    }
}
