//! Adds differences to a report: each is counted, and the first `limit` of each kind get a line.

ghost use Rattle.std.specs.Prelude.{◌≡◌, ◌<◌, ◌∷◌, ◌++◌, [], ℕ, List, All, length, slice_index};
ghost use Rattle.std.specs.Prelude.{OnOk};
ghost use Rattle.diff_keys.specs.declared.matching.Matching.{Matching};
ghost use Rattle.diff_report.specs.Sides.{naming_of};
ghost use Rattle.diff_report.specs.declared.lines.Alone.TheVariants.{Added, Removed};
ghost use Rattle.diff_report.specs.declared.sides.Sides.{Sides};
ghost use Rattle.diff_run.specs.Lines.{pair_at, row_alone};
ghost use Rattle.diff_single.specs.Frame.{IsFrameOf, naming_by};
ghost use Rattle.diff_single.specs.Rows.{HasRowAt};
ghost use Rattle.diff_sorted.specs.Lines.{HasLines};

use crate::lines::Lines;
use diff_single::frame::Frame;
use diff_single::lines::{push_added, push_changed, push_removed};
use diff_single::row::Row;
use diff_tables::string_list::StringList;
use std::alloc::{AllocError, Global};

/// Counts a changed pair. Appends its line to `lines`, unless `limit` lines are there already.
pub(crate) fn tell_changed<L: StringList, R: StringList>(
    alloc: Global,
    lines: &mut Lines,
    frame: &Frame<'_>,
    limit: usize,
    left: &Row<'_, L>,
    right: &Row<'_, R>,
) -> Result<(), AllocError>
    requires keys { All (λ column. column < length (naming_by frame.now).names) frame.now.keys.now }
    requires left { length (L.strings left.now.cells.now) ≡ length (naming_by frame.now).names }
    requires right { length (R.strings right.now.cells.now) ≡ length (naming_by frame.now).names }
    ensures { OnOk result
        ((s : Sides) (m : Matching) (k : ℕ) (all : List (List ℕ)) → IsFrameOf frame.now s
        → HasRowAt s.left (slice_index m.left_rows.items k) (L.strings left.now.cells.now)
        left.now.number left.now.line
        → HasRowAt s.right (slice_index m.right_rows.items k) (R.strings right.now.cells.now)
        right.now.number right.now.line
        → HasLines limit all lines.old
        → HasLines limit (all ++ pair_at frame.now.format s m k ∷ []) lines.new) }
{
    let is_full = lines.ends.len() >= limit;
    if is_full {
        lines.pass()?;
        return Ok(());
    }
    push_changed(alloc, &mut lines.text, frame, left, right)?;
    lines.close()?;
    Ok(())
}

/// Counts a left row without a partner. Appends its line to `lines`, unless `limit` lines are there
/// already.
pub(crate) fn tell_removed<L: StringList>(
    alloc: Global,
    lines: &mut Lines,
    frame: &Frame<'_>,
    limit: usize,
    row: &Row<'_, L>,
) -> Result<(), AllocError>
    requires keys { All (λ column. column < length (naming_by frame.now).names) frame.now.keys.now }
    requires row { length (L.strings row.now.cells.now) ≡ length (naming_by frame.now).names }
    ensures { OnOk result
        ((s : Sides) (i : ℕ) (all : List (List ℕ)) → IsFrameOf frame.now s
        → HasRowAt s.left i (L.strings row.now.cells.now) row.now.number row.now.line
        → HasLines limit all lines.old
        → HasLines limit
        (all ++ row_alone frame.now.format Removed (naming_of s) s.left i ∷ []) lines.new) }
{
    let is_full = lines.ends.len() >= limit;
    if is_full {
        lines.pass()?;
        return Ok(());
    }
    push_removed(alloc, &mut lines.text, frame, row)?;
    lines.close()?;
    Ok(())
}

/// Counts a right row without a partner. Appends its line to `lines`, unless `limit` lines are
/// there already.
pub(crate) fn tell_added<L: StringList>(
    alloc: Global,
    lines: &mut Lines,
    frame: &Frame<'_>,
    limit: usize,
    row: &Row<'_, L>,
) -> Result<(), AllocError>
    requires keys { All (λ column. column < length (naming_by frame.now).names) frame.now.keys.now }
    requires row { length (L.strings row.now.cells.now) ≡ length (naming_by frame.now).names }
    ensures { OnOk result
        ((s : Sides) (i : ℕ) (all : List (List ℕ)) → IsFrameOf frame.now s
        → HasRowAt s.right i (L.strings row.now.cells.now) row.now.number row.now.line
        → HasLines limit all lines.old
        → HasLines limit
        (all ++ row_alone frame.now.format Added (naming_of s) s.right i ∷ []) lines.new) }
{
    let is_full = lines.ends.len() >= limit;
    if is_full {
        lines.pass()?;
        return Ok(());
    }
    push_added(alloc, &mut lines.text, frame, row)?;
    lines.close()?;
    Ok(())
}
