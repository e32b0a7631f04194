//! Writes the lines of changed, removed and added rows.

ghost use Rattle.std.specs.Prelude.{◌≡◌, ◌<◌, ◌++◌, length, OnOk};
ghost use Rattle.diff_report.specs.Lines.{line_of, mark_color, side_line, side_text};
ghost use Rattle.diff_report.specs.Sides.{AreSides, IsSide, naming_of};

use crate::pairs::push_changes;
use crate::rows::push_row;
use crate::sides::{Side, Sides};
use diff_words::colors::{Color, push_color};
use diff_words::decimals::push_decimal;
use diff_words::words::push_word;
use std::alloc::AllocError;

/// The kind of a row without a partner: `Removed` for a left row, `Added` for a right row.
#[derive(Clone, Copy)]
pub enum Alone {
    Removed,
    Added,
}

/// Appends the line of a changed pair, left row `i` and right row `j`: `~`, the key, and then
/// `COLUMN LEFT -> RIGHT` for each column in which the two rows differ.
#[tactic(auto, unfolding(diff_words::specs::Colors::painted))]
pub fn push_pair_line(
    out: &mut Vec<u8>,
    sides: &Sides,
    i: usize,
    j: usize,
) -> Result<(), AllocError>
    requires sides { AreSides sides.now }
    requires left { i < length sides.now.left.table.rows }
    requires right { j < length sides.now.right.table.rows }
    ensures { OnOk result (out.new.items ≡ out.old.items ++ line_of sides.now i j) }
{
    push_color(out, sides.colored, Color::Yellow)?;
    out.extend_from_slice(b"~ ")?;
    push_row(out, sides, &sides.left, i)?;
    push_color(out, sides.colored, Color::Plain)?;
    out.extend_from_slice(b"  ")?;
    push_changes(out, sides, i, j)?;
    out.push(b'\n')?;
    Ok(())
}

/// Returns the colour of a line with this mark: red for `-`, and green for any other mark.
pub fn mark_color(mark: u8) -> Color
    ensures { result ≡ mark_color mark }
{
    if mark == b'-' {
        Color::Red
    } else {
        Color::Green
    }
}

/// Appends the line of row `i` of `side`, without colours and without the line feed: the mark, the
/// key, the name of the file and the line number.
#[tactic(auto, unfolding(crate::specs::Lines::side_text))]
fn push_side_text(
    out: &mut Vec<u8>,
    mark: u8,
    sides: &Sides,
    side: &Side,
    i: usize,
) -> Result<(), AllocError>
    requires sides { AreSides sides.now }
    requires side { IsSide (naming_of sides.now) side.now }
    requires row { i < length side.now.table.rows }
    ensures { OnOk result
        (out.new.items ≡ out.old.items ++ side_text mark (naming_of sides.now) side.now i) }
{
    out.push(mark)?;
    out.push(b' ')?;
    push_row(out, sides, side, i)?;
    out.extend_from_slice(b"  ")?;
    push_word(out, &side.name)?;
    out.extend_from_slice(b" line ")?;
    push_decimal(out, side.lines[i])?;
    Ok(())
}

/// Appends the line of row `i` of `side`, which has no partner. `mark` is `-` if `side` is the left
/// side, and `+` if it is the right side.
#[tactic(auto, unfolding(crate::specs::Lines::side_line, diff_words::specs::Colors::painted))]
pub fn push_side_line(
    out: &mut Vec<u8>,
    mark: u8,
    sides: &Sides,
    side: &Side,
    i: usize,
) -> Result<(), AllocError>
    requires sides { AreSides sides.now }
    requires side { IsSide (naming_of sides.now) side.now }
    requires row { i < length side.now.table.rows }
    ensures { OnOk result
        (out.new.items ≡ out.old.items ++ side_line mark (naming_of sides.now) side.now i) }
{
    push_color(out, sides.colored, mark_color(mark))?;
    push_side_text(out, mark, sides, side, i)?;
    push_color(out, sides.colored, Color::Plain)?;
    out.push(b'\n')?;
    Ok(())
}
