//! Writes the columns in which two rows differ, as members of a JSON object. The rows are compared
//! in `Sides::compared_left` and `Sides::compared_right`, but the written cells are those of the
//! inputs.

ghost use Rattle.std.specs.Prelude.{◌≡◌, ◌<◌, ◌+◌, ◌++◌, [], if◌then◌else◌, length, codes, IfOk};
ghost use Rattle.std.specs.Prelude.{OnOk};
ghost use Rattle.diff_words.specs.Lists.{gap};
ghost use Rattle.diff_report.specs.Pairs.{columns_of, is_apart};
ghost use Rattle.diff_report.specs.Sides.{AreSides, naming_of, row_of};
ghost use Rattle.diff_json.specs.Changes.{change_member, change_members};

use crate::cells::push_cell;
use crate::strings::push_string;
use diff_report::sides::Sides;
use diff_words::lists::push_gap;
use polars_arrays_flat::byte_rows::ByteRows;
use std::alloc::AllocError;

/// Appends the member `"COLUMN":{"left":CELL,"right":CELL}` for a column of left row `i` and right
/// row `j`.
fn push_change(
    out: &mut Vec<u8>,
    sides: &Sides,
    i: usize,
    j: usize,
    column: usize,
) -> Result<(), AllocError>
    requires sides { AreSides sides.now }
    requires left { i < length sides.now.left.table.rows }
    requires right { j < length sides.now.right.table.rows }
    requires column { column < length (naming_of sides.now).names }
    ensures { OnOk result
        (out.new.items ≡ out.old.items
        ++ change_member (naming_of sides.now) (row_of sides.now.left i) (row_of sides.now.right j)
        column) }
{
    push_string(out, sides.names.bytes(column))?;
    out.extend_from_slice(br#":{"left":"#)?;
    push_cell(out, &sides.null, sides.left.table.cell(i, column))?;
    out.extend_from_slice(br#","right":"#)?;
    push_cell(out, &sides.null, sides.right.table.cell(j, column))?;
    out.push(b'}')?;
    Ok(())
}

/// Appends the member for a column (`push_change`) if left row `i` and right row `j` differ in it,
/// with a comma before it if `written` is not 0. `written` is the number of members appended so
/// far. Returns this number after the call.
fn push_if_changed(
    out: &mut Vec<u8>,
    sides: &Sides,
    i: usize,
    j: usize,
    column: usize,
    written: usize,
) -> Result<usize, AllocError>
    requires sides { AreSides sides.now }
    requires left { i < length sides.now.left.table.rows }
    requires right { j < length sides.now.right.table.rows }
    requires column { column < length (naming_of sides.now).names }
    requires room { written < usize.MAX }
    ensures text { OnOk result (out.new.items ≡ out.old.items ++ (if is_apart sides.now i j column
        then gap (codes ",") written
        ++ change_member (naming_of sides.now) (row_of sides.now.left i)
        (row_of sides.now.right j) column else [])) }
    ensures count { IfOk result
        (λ n. n ≡ written + (if is_apart sides.now i j column then 1 else 0)) }
{
    if sides.compared_left().cell(i, column) == sides.compared_right().cell(j, column) {
        return Ok(written);
    }
    push_gap(out, b",", written)?;
    push_change(out, sides, i, j, column)?;
    Ok(written + 1)
}

/// Appends a member for each column in which left row `i` and right row `j` differ, with commas
/// between the members.
pub(crate) fn push_changes(
    out: &mut Vec<u8>,
    sides: &Sides,
    i: usize,
    j: usize,
) -> Result<(), AllocError>
    requires sides { AreSides sides.now }
    requires left { i < length sides.now.left.table.rows }
    requires right { j < length sides.now.right.table.rows }
    ensures { OnOk result
        (out.new.items ≡ out.old.items
        ++ change_members (naming_of sides.now) (columns_of sides.now i j) (row_of sides.now.left i)
        (row_of sides.now.right j)) }
{
    let mut written = 0;
    for column in 0..sides.left.table.width() {
        written = push_if_changed(out, sides, i, j, column, written)?;
    }
    Ok(())
}
