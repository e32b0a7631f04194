//! Writes the rows of the Markdown table.

ghost use Rattle.std.specs.Prelude.{◌≡◌, ◌++◌, codes, OnOk, option_and_then};
ghost use Rattle.json.specs.Find.{as_array, as_object, get};
ghost use Rattle.json.specs.Tree.{HasNumbers, ItemsHaveNumbers, MembersHaveNumbers};
ghost use Rattle.json.specs.Value.{items_view, members_view, value_view};
ghost use Rattle.diff_markdown.specs.Rows.{added_row, change_row, changed_rows, column_row};
ghost use Rattle.diff_markdown.specs.Rows.{item_rows, lacking, lone_row, member_rows, removed_row};
ghost use Rattle.diff_markdown.specs.Rows.{row_name, rows_in_array, rows_in_object};

use crate::cells::{push_name_cell, push_number, push_pairs_cell, push_side};
use diff_lines::parts::{items_at, members_at, string_at};
use json::Value;
use std::alloc::{AllocError, Global};

/// Appends the key of a changed row, or the line numbers of the row in both files if it has no key.
/// `line` is the JSON line of the row.
#[tactic(auto, unfolding(crate::specs::Rows::row_name))]
fn push_row_name(alloc: Global, out: &mut Vec<u8>, line: &Value<'_>) -> Result<(), AllocError>
    requires { HasNumbers (value_view line.now) }
    ensures { OnOk result (out.new.items ≡ out.old.items ++ row_name (value_view line.now)) }
{
    let mut key = Vec::new(alloc);
    push_pairs_cell(alloc, &mut key, line, "key")?;
    if !key.is_empty() {
        out.extend_from_slice(&key)?;
        return Ok(());
    }
    out.extend_from_slice(b"lines ")?;
    push_number(out, line, "left_line")?;
    out.extend_from_slice(b" and ")?;
    push_number(out, line, "right_line")?;
    Ok(())
}

/// Appends the table row of one difference. `name` is the text of `push_row_name` for the changed
/// row. `part` is the column or path that differs. `change` has the two values as its members
/// `left` and `right`.
#[tactic(auto, unfolding(crate::specs::Rows::change_row))]
fn push_change(
    alloc: Global,
    out: &mut Vec<u8>,
    name: &[u8],
    part: &str,
    change: &Value<'_>,
) -> Result<(), AllocError>
    requires { HasNumbers (value_view change.now) }
    ensures { OnOk result (out.new.items
        ≡ out.old.items ++ change_row name.now part.now (value_view change.now)) }
{
    out.extend_from_slice(b"| changed | ")?;
    out.extend_from_slice(name)?;
    out.extend_from_slice(b" | ")?;
    push_name_cell(alloc, out, part)?;
    out.extend_from_slice(b" | ")?;
    push_side(alloc, out, change, "left")?;
    out.extend_from_slice(b" | ")?;
    push_side(alloc, out, change, "right")?;
    out.extend_from_slice(b" |\n")?;
    Ok(())
}

/// Appends a table row for each of `changes`. Each change is a member: the name of a column, and an
/// object with the two values. `name` is the text of `push_row_name` for the changed row.
fn push_member_rows(
    alloc: Global,
    out: &mut Vec<u8>,
    name: &[u8],
    changes: &Vec<(&str, Value<'_>)>,
) -> Result<(), AllocError>
    requires { MembersHaveNumbers (members_view changes.now.items) }
    ensures { OnOk result (out.new.items
        ≡ out.old.items ++ member_rows name.now (members_view changes.now.items)) }
{
    for change in changes {
        push_change(alloc, out, name, change.0, &change.1)?;
    }
    Ok(())
}

/// Appends a table row for each of `changes`. The member `path` of each change is the path that
/// differs. `name` is the text of `push_row_name` for the changed row.
fn push_item_rows(
    alloc: Global,
    out: &mut Vec<u8>,
    name: &[u8],
    changes: &Vec<Value<'_>>,
) -> Result<(), AllocError>
    requires { ItemsHaveNumbers (items_view changes.now.items) }
    ensures { OnOk result (out.new.items
        ≡ out.old.items ++ item_rows name.now (items_view changes.now.items)) }
{
    for change in changes {
        push_change(alloc, out, name, string_at(change, "path"), change)?;
    }
    Ok(())
}

/// Appends the table rows of a changed row: one for each column or path that differs. `line` is the
/// JSON line of the changed row.
#[tactic(auto, unfolding(crate::specs::Rows::change_rows))]
pub(crate) fn push_changed(
    alloc: Global,
    out: &mut Vec<u8>,
    line: &Value<'_>,
) -> Result<(), AllocError>
    requires { HasNumbers (value_view line.now) }
    ensures { OnOk result (out.new.items ≡ out.old.items ++ changed_rows (value_view line.now)) }
{
    let mut name = Vec::new(alloc);
    push_row_name(alloc, &mut name, line)?;
    push_changes_in_object(alloc, out, &name, line)?;
    push_changes_in_array(alloc, out, &name, line)?;
    Ok(())
}

/// Appends a table row for each member of the object that `line` has as its member `changes`.
/// Appends nothing if this member is not an object. `line` is the JSON line of a changed row, and
/// `name` is the text of `push_row_name` for this row.
fn push_changes_in_object(
    alloc: Global,
    out: &mut Vec<u8>,
    name: &[u8],
    line: &Value<'_>,
) -> Result<(), AllocError>
    requires { HasNumbers (value_view line.now) }
    ensures { OnOk result (out.new.items ≡ out.old.items ++ rows_in_object name.now
        (option_and_then as_object (get (codes "changes") (value_view line.now)))) }
{
    match members_at(line, "changes") {
        Some(changes) => push_member_rows(alloc, out, name, changes),
        None => Ok(()),
    }
}

/// Appends a table row for each item of the array that `line` has as its member `changes`. Appends
/// nothing if this member is not an array. `line` is the JSON line of a changed row, and `name` is
/// the text of `push_row_name` for this row.
fn push_changes_in_array(
    alloc: Global,
    out: &mut Vec<u8>,
    name: &[u8],
    line: &Value<'_>,
) -> Result<(), AllocError>
    requires { HasNumbers (value_view line.now) }
    ensures { OnOk result (out.new.items ≡ out.old.items ++ rows_in_array name.now
        (option_and_then as_array (get (codes "changes") (value_view line.now)))) }
{
    match items_at(line, "changes") {
        Some(changes) => push_item_rows(alloc, out, name, changes),
        None => Ok(()),
    }
}

/// Appends the table row of a row that only one file has: `before`, the key, `between`, the line
/// number and `behind`. `line` is the JSON line of the row, which has the key and the line number.
#[tactic(auto, unfolding(crate::specs::Rows::lone_row))]
fn push_lone(
    alloc: Global,
    out: &mut Vec<u8>,
    before: &[u8],
    between: &[u8],
    behind: &[u8],
    line: &Value<'_>,
) -> Result<(), AllocError>
    requires { HasNumbers (value_view line.now) }
    ensures { OnOk result (out.new.items ≡ out.old.items
        ++ lone_row before.now between.now behind.now (value_view line.now)) }
{
    out.extend_from_slice(before)?;
    push_pairs_cell(alloc, out, line, "key")?;
    out.extend_from_slice(between)?;
    push_number(out, line, "line")?;
    out.extend_from_slice(behind)?;
    Ok(())
}

/// Appends the table row of a row that only the left file has. `line` is the JSON line of the row.
pub(crate) fn push_removed(
    alloc: Global,
    out: &mut Vec<u8>,
    line: &Value<'_>,
) -> Result<(), AllocError>
    requires { HasNumbers (value_view line.now) }
    ensures { OnOk result (out.new.items ≡ out.old.items ++ removed_row (value_view line.now)) }
{
    push_lone(alloc, out, b"| removed | ", b" | | line ", b" | |\n", line)
}

/// Appends the table row of a row that only the right file has. `line` is the JSON line of the row.
pub(crate) fn push_added(
    alloc: Global,
    out: &mut Vec<u8>,
    line: &Value<'_>,
) -> Result<(), AllocError>
    requires { HasNumbers (value_view line.now) }
    ensures { OnOk result (out.new.items ≡ out.old.items ++ added_row (value_view line.now)) }
{
    push_lone(alloc, out, b"| added | ", b" | | | line ", b" |\n", line)
}

/// Returns the last cells of the table row of a column, with `missing` for the file that does not
/// have the column: the right file if `only_in` is `left`, and else the left file.
fn lacking(only_in: &str) -> &'static [u8]
    ensures { result.now ≡ lacking only_in.now }
{
    if only_in == "left" {
        b" | | missing |\n"
    } else {
        b" | missing | |\n"
    }
}

/// Appends the table row of a column that only one file has. `line` is the JSON line about the
/// column.
#[tactic(auto, unfolding(crate::specs::Rows::column_row))]
pub(crate) fn push_column(
    alloc: Global,
    out: &mut Vec<u8>,
    line: &Value<'_>,
) -> Result<(), AllocError>
    ensures { OnOk result (out.new.items ≡ out.old.items ++ column_row (value_view line.now)) }
{
    out.extend_from_slice(b"| column | | ")?;
    push_name_cell(alloc, out, string_at(line, "column"))?;
    out.extend_from_slice(lacking(string_at(line, "only_in")))?;
    Ok(())
}
