//! Writes the line of a single difference.

ghost use Rattle.std.specs.Prelude.{◌≡◌, ◌<◌, ◌++◌, ℕ, All, length, slice_index, OnOk};
ghost use Rattle.diff_keys.specs.declared.matching.Matching.{Matching};
ghost use Rattle.diff_report.specs.Sides.{naming_of};
ghost use Rattle.diff_report.specs.declared.lines.Alone.TheVariants.{Added, Removed};
ghost use Rattle.diff_report.specs.declared.sides.Sides.{Sides};
ghost use Rattle.diff_run.specs.Lines.{pair_at, row_alone};
ghost use Rattle.diff_single.specs.Frame.{IsFrameOf, naming_by};
ghost use Rattle.diff_single.specs.Rows.{HasRowAt};

use crate::forms::{push_pair_of, push_row};
use crate::frame::Frame;
use crate::row::Row;
use crate::sides::sides_of;
use diff_report::lines::Alone;
use diff_tables::string_list::StringList;
use std::alloc::{AllocError, Global};

/// Appends the line of two matched rows that differ. It equals the line that `diff_run` writes for
/// these rows if all cells are compared as texts, without tolerances.
pub fn push_changed<L: StringList, R: StringList>(
    alloc: Global,
    out: &mut Vec<u8>,
    frame: &Frame<'_>,
    left: &Row<'_, L>,
    right: &Row<'_, R>,
) -> Result<(), AllocError>
    requires keys { All (λ column. column < length (naming_by frame.now).names) frame.now.keys.now }
    requires left { length (L.strings left.now.cells.now) ≡ length (naming_by frame.now).names }
    requires right { length (R.strings right.now.cells.now) ≡ length (naming_by frame.now).names }
    ensures { OnOk result ((s : Sides) (m : Matching) (k : ℕ) → IsFrameOf frame.now s
        → HasRowAt s.left (slice_index m.left_rows.items k) (L.strings left.now.cells.now)
        left.now.number left.now.line
        → HasRowAt s.right (slice_index m.right_rows.items k) (R.strings right.now.cells.now)
        right.now.number right.now.line
        → out.new.items ≡ out.old.items ++ pair_at frame.now.format s m k) }
{
    let sides = sides_of(alloc, frame, left, right)?;
    push_pair_of(out, frame.format, &sides, 0, 0)?;
    Ok(())
}

/// Appends the line of a left row without a partner. It equals the line that `diff_run` writes for
/// this row.
pub fn push_removed<L: StringList>(
    alloc: Global,
    out: &mut Vec<u8>,
    frame: &Frame<'_>,
    row: &Row<'_, L>,
) -> Result<(), AllocError>
    requires keys { All (λ column. column < length (naming_by frame.now).names) frame.now.keys.now }
    requires row { length (L.strings row.now.cells.now) ≡ length (naming_by frame.now).names }
    ensures { OnOk result ((s : Sides) (i : ℕ) → IsFrameOf frame.now s
        → HasRowAt s.left i (L.strings row.now.cells.now) row.now.number row.now.line
        → out.new.items ≡ out.old.items
        ++ row_alone frame.now.format Removed (naming_of s) s.left i) }
{
    // Only one of the two equal sides is printed.
    let sides = sides_of(alloc, frame, row, row)?;
    push_row(out, frame.format, Alone::Removed, &sides, &sides.left, 0)?;
    Ok(())
}

/// Appends the line of a right row without a partner. It equals the line that `diff_run` writes for
/// this row.
pub fn push_added<L: StringList>(
    alloc: Global,
    out: &mut Vec<u8>,
    frame: &Frame<'_>,
    row: &Row<'_, L>,
) -> Result<(), AllocError>
    requires keys { All (λ column. column < length (naming_by frame.now).names) frame.now.keys.now }
    requires row { length (L.strings row.now.cells.now) ≡ length (naming_by frame.now).names }
    ensures { OnOk result ((s : Sides) (i : ℕ) → IsFrameOf frame.now s
        → HasRowAt s.right i (L.strings row.now.cells.now) row.now.number row.now.line
        → out.new.items ≡ out.old.items
        ++ row_alone frame.now.format Added (naming_of s) s.right i) }
{
    // Only one of the two equal sides is printed.
    let sides = sides_of(alloc, frame, row, row)?;
    push_row(out, frame.format, Alone::Added, &sides, &sides.right, 0)?;
    Ok(())
}
