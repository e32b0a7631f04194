//! Writes the lines of differences, as text or JSON.

ghost use Rattle.std.specs.Prelude.{◌≡◌, ◌<◌, ◌++◌, length, OnOk};
ghost use Rattle.diff_report.specs.Sides.{AreSides, IsSide, naming_of};
ghost use Rattle.diff_run.specs.Lines.{row_alone};
ghost use Rattle.diff_single.specs.Forms.{pair_of};

use diff_json::lines::{push_alone, push_pair};
use diff_report::lines::{Alone, push_pair_line, push_side_line};
use diff_report::sides::{Side, Sides};
use diff_words::formats::Format;
use std::alloc::AllocError;

/// Appends the line of a changed pair, left row `i` and right row `j`, both counted from 0.
pub(crate) fn push_pair_of(
    out: &mut Vec<u8>,
    format: Format,
    sides: &Sides,
    i: usize,
    j: usize,
) -> Result<(), AllocError>
    requires sides { AreSides sides.now }
    requires left { i < length sides.now.left.table.rows }
    requires right { j < length sides.now.right.table.rows }
    ensures { OnOk result (out.new.items ≡ out.old.items ++ pair_of format sides.now i j) }
{
    match format {
        Format::Text => push_pair_line(out, sides, i, j),
        Format::Json => push_pair(out, sides, i, j),
    }
}

/// Appends the line of row `i` of `side`, counted from 0. The row has no partner. `alone` says
/// whether it is reported as removed or as added.
pub(crate) fn push_row(
    out: &mut Vec<u8>,
    format: Format,
    alone: Alone,
    sides: &Sides,
    side: &Side,
    i: usize,
) -> Result<(), AllocError>
    requires sides { AreSides sides.now }
    requires side { IsSide (naming_of sides.now) side.now }
    requires row { i < length side.now.table.rows }
    ensures { OnOk result
        (out.new.items ≡ out.old.items ++ row_alone format alone (naming_of sides.now) side.now i) }
{
    match (format, alone) {
        (Format::Text, Alone::Removed) => push_side_line(out, b'-', sides, side, i),
        (Format::Text, Alone::Added) => push_side_line(out, b'+', sides, side, i),
        (Format::Json, Alone::Removed) => push_alone(out, b"removed", sides, side, i),
        (Format::Json, Alone::Added) => push_alone(out, b"added", sides, side, i),
    }
}
