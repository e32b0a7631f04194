//! Writes the columns in which two rows differ.

ghost use Rattle.std.specs.Prelude.{◌≡◌, ◌<◌, ◌+◌, ◌++◌, [], if◌then◌else◌, length, map, codes};
ghost use Rattle.std.specs.Prelude.{IfOk, OnOk};
ghost use Rattle.diff_words.specs.Lists.{gap, listed};
ghost use Rattle.diff_report.specs.Pairs.{change_text, columns_of, is_apart};
ghost use Rattle.diff_report.specs.Sides.{AreSides, naming_of, row_of};

use crate::sides::Sides;
use diff_words::cells::push_painted_cell;
use diff_words::colors::Color;
use diff_words::lists::push_gap;
use diff_words::words::push_word;
use polars_arrays_flat::byte_rows::ByteRows;
use std::alloc::AllocError;

/// Returns whether left row `i` and right row `j` differ in a column of the tables that are
/// compared (`Sides::compared_left`, `Sides::compared_right`). If numbers are compared by value,
/// 1.5 and 1.50 do not differ.
pub(crate) fn differ_at(sides: &Sides, i: usize, j: usize, column: usize) -> bool
    requires sides { AreSides sides.now }
    requires left { i < length sides.now.left.table.rows }
    requires right { j < length sides.now.right.table.rows }
    requires column { column < length (naming_of sides.now).names }
    ensures { result ≡ is_apart sides.now i j column }
{
    sides.compared_left().cell(i, column) != sides.compared_right().cell(j, column)
}

/// Appends `COLUMN LEFT -> RIGHT` for a column of left row `i` and right row `j`.
fn push_change(
    out: &mut Vec<u8>,
    sides: &Sides,
    i: usize,
    j: usize,
    column: usize,
) -> Result<(), AllocError>
    requires sides { AreSides sides.now }
    requires left { i < length sides.now.left.table.rows }
    requires right { j < length sides.now.right.table.rows }
    requires column { column < length (naming_of sides.now).names }
    ensures { OnOk result
        (out.new.items ≡ out.old.items
        ++ change_text (naming_of sides.now) (row_of sides.now.left i) (row_of sides.now.right j)
        column) }
{
    push_word(out, sides.names.bytes(column))?;
    out.push(b' ')?;
    let left = sides.left.table.cell(i, column);
    let right = sides.right.table.cell(j, column);
    push_painted_cell(out, sides.colored, Color::Red, &sides.null, left)?;
    out.extend_from_slice(b" -> ")?;
    push_painted_cell(out, sides.colored, Color::Green, &sides.null, right)?;
    Ok(())
}

/// Appends `COLUMN LEFT -> RIGHT` for a column if left row `i` and right row `j` differ in it, with
/// a comma before it if `written` is not 0. `written` is the number of columns appended so far.
/// Returns this number after the call.
fn push_if_changed(
    out: &mut Vec<u8>,
    sides: &Sides,
    i: usize,
    j: usize,
    column: usize,
    written: usize,
) -> Result<usize, AllocError>
    requires sides { AreSides sides.now }
    requires left { i < length sides.now.left.table.rows }
    requires right { j < length sides.now.right.table.rows }
    requires column { column < length (naming_of sides.now).names }
    requires room { written < usize.MAX }
    ensures text { OnOk result (out.new.items ≡ out.old.items ++ (if is_apart sides.now i j column
        then gap (codes ", ") written
        ++ change_text (naming_of sides.now) (row_of sides.now.left i)
        (row_of sides.now.right j) column else [])) }
    ensures count { IfOk result
        (λ n. n ≡ written + (if is_apart sides.now i j column then 1 else 0)) }
{
    if !differ_at(sides, i, j, column) {
        return Ok(written);
    }
    push_gap(out, b", ", written)?;
    push_change(out, sides, i, j, column)?;
    Ok(written + 1)
}

/// Appends `COLUMN LEFT -> RIGHT` for each column in which left row `i` and right row `j` differ,
/// with commas between the columns.
pub(crate) fn push_changes(
    out: &mut Vec<u8>,
    sides: &Sides,
    i: usize,
    j: usize,
) -> Result<(), AllocError>
    requires sides { AreSides sides.now }
    requires left { i < length sides.now.left.table.rows }
    requires right { j < length sides.now.right.table.rows }
    ensures { OnOk result (out.new.items ≡ out.old.items ++ listed (codes ", ")
        (map (change_text (naming_of sides.now) (row_of sides.now.left i)
        (row_of sides.now.right j))
        (columns_of sides.now i j))) }
{
    let mut written = 0;
    for column in 0..sides.left.table.width() {
        written = push_if_changed(out, sides, i, j, column, written)?;
    }
    Ok(())
}
