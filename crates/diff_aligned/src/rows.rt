//! The rows of the table that a report in aligned columns has.

ghost use Rattle.std.specs.Prelude.{◌≡◌, ◌++◌, ◌∷◌, [], codes, OnOk, option_and_then};
ghost use Rattle.json.specs.Find.{as_array, as_object, get};
ghost use Rattle.json.specs.Tree.{HasNumbers, ItemsHaveNumbers, MembersHaveNumbers};
ghost use Rattle.json.specs.Value.{items_view, members_view, value_view};
ghost use Rattle.diff_aligned.specs.Rows.{change_row, changed_rows, item_rows, lone_row};
ghost use Rattle.diff_aligned.specs.Rows.{member_rows, rows_in_array, rows_in_object, rows_view};
ghost use Rattle.diff_aligned.specs.Texts.{row_name};

use crate::shown::push_ascii;
use crate::texts::{push_name, push_number, push_pairs_of, push_row_name, push_side};
use diff_lines::parts::{items_at, members_at, string_at};
use json::Value;
use std::alloc::{AllocError, Global};
use std::mem;

/// The kind of a row of the table, which is shown at its beginning.
#[derive(Clone, Copy)]
pub(crate) enum Mark {
    /// The first differing cell or path of a changed row. It is shown with the mark `~` and the
    /// key.
    Changed,
    /// A further differing cell or path of the same changed row. It is shown without mark and key.
    Again,
    /// A row that only the left file has. It is shown with the mark `-`.
    Removed,
    /// A row that only the right file has. It is shown with the mark `+`.
    Added,
}

/// A row of the table. A removed or added row has a `key` and a `note`. Other rows have a `key`, a
/// `part` (the column or path that differs), and the values `left` and `right`. Fields that a row
/// does not have are empty. The `key` of a row with `Mark::Again` is empty too.
#[derive(Drop)]
pub(crate) struct Row {
    pub(crate) mark: Mark,
    pub(crate) key: Vec<char>,
    pub(crate) part: Vec<char>,
    pub(crate) left: Vec<char>,
    pub(crate) right: Vec<char>,
    pub(crate) note: Vec<char>,
}

/// Appends a row of the table for one difference, with `mark` and `key`. `name` is the column or
/// path that differs. `change` has the two values as its members `left` and `right`.
#[tactic(auto, unfolding(crate::specs::Rows::change_row))]
fn push_change(
    alloc: Global,
    rows: &mut Vec<Row>,
    mark: Mark,
    key: Vec<char>,
    name: &str,
    change: &Value<'_>,
) -> Result<(), AllocError>
    requires { HasNumbers (value_view change.now) }
    ensures { OnOk result (rows_view rows.new.items
        ≡ rows_view rows.old.items
        ++ change_row mark key.items name.now (value_view change.now) ∷ []) }
{
    let mut part = Vec::new(alloc);
    push_name(alloc, &mut part, name)?;
    let mut left = Vec::new(alloc);
    push_side(alloc, &mut left, change, "left")?;
    let mut right = Vec::new(alloc);
    push_side(alloc, &mut right, change, "right")?;
    let note = Vec::new(alloc);
    rows.push(Row {
        mark,
        key,
        part,
        left,
        right,
        note,
    })?;
    Ok(())
}

/// Appends a row of the table for each of `changes`. Each change is a member: the name of a column,
/// and an object with the two values. `name` is the text of `push_row_name` for the changed row.
/// Only the first of the appended rows has this text as its key.
fn push_member_rows(
    alloc: Global,
    rows: &mut Vec<Row>,
    name: Vec<char>,
    changes: &Vec<(&str, Value<'_>)>,
) -> Result<(), AllocError>
    requires { MembersHaveNumbers (members_view changes.now.items) }
    ensures { OnOk result (rows_view rows.new.items
        ≡ rows_view rows.old.items
        ++ member_rows Mark.Changed name.items (members_view changes.now.items)) }
{
    let mut key = name;
    let mut mark = Mark::Changed;
    for change in changes {
        let first = mem::replace(&mut key, Vec::new(alloc));
        push_change(alloc, rows, mark, first, change.0, &change.1)?;
        mark = Mark::Again;
    }
    Ok(())
}

/// Appends a row of the table for each of `changes`. The member `path` of each change is the path
/// that differs. `name` is the text of `push_row_name` for the changed row. Only the first of the
/// appended rows has this text as its key.
fn push_item_rows(
    alloc: Global,
    rows: &mut Vec<Row>,
    name: Vec<char>,
    changes: &Vec<Value<'_>>,
) -> Result<(), AllocError>
    requires { ItemsHaveNumbers (items_view changes.now.items) }
    ensures { OnOk result (rows_view rows.new.items
        ≡ rows_view rows.old.items
        ++ item_rows Mark.Changed name.items (items_view changes.now.items)) }
{
    let mut key = name;
    let mut mark = Mark::Changed;
    for change in changes {
        let first = mem::replace(&mut key, Vec::new(alloc));
        push_change(alloc, rows, mark, first, string_at(change, "path"), change)?;
        mark = Mark::Again;
    }
    Ok(())
}

/// Appends a row of the table for each member of the object that `line` has as its member
/// `changes`. Appends nothing if this member is not an object. `line` is the JSON line of a changed
/// row.
fn push_rows_in_object(
    alloc: Global,
    rows: &mut Vec<Row>,
    line: &Value<'_>,
) -> Result<(), AllocError>
    requires { HasNumbers (value_view line.now) }
    ensures { OnOk result (rows_view rows.new.items
        ≡ rows_view rows.old.items ++ rows_in_object (row_name (value_view line.now))
        (option_and_then as_object (get (codes "changes") (value_view line.now)))) }
{
    let Some(changes) = members_at(line, "changes") else {
        return Ok(());
    };
    let mut key = Vec::new(alloc);
    push_row_name(alloc, &mut key, line)?;
    push_member_rows(alloc, rows, key, changes)?;
    Ok(())
}

/// Appends a row of the table for each item of the array that `line` has as its member `changes`.
/// Appends nothing if this member is not an array. `line` is the JSON line of a changed row.
fn push_rows_in_array(
    alloc: Global,
    rows: &mut Vec<Row>,
    line: &Value<'_>,
) -> Result<(), AllocError>
    requires { HasNumbers (value_view line.now) }
    ensures { OnOk result (rows_view rows.new.items
        ≡ rows_view rows.old.items ++ rows_in_array (row_name (value_view line.now))
        (option_and_then as_array (get (codes "changes") (value_view line.now)))) }
{
    let Some(changes) = items_at(line, "changes") else {
        return Ok(());
    };
    let mut key = Vec::new(alloc);
    push_row_name(alloc, &mut key, line)?;
    push_item_rows(alloc, rows, key, changes)?;
    Ok(())
}

/// Appends the rows of the table for a changed row: one for each column or path that differs.
/// `line` is the JSON line of the changed row.
#[tactic(auto, unfolding(crate::specs::Rows::changed_rows))]
pub(crate) fn push_changed(
    alloc: Global,
    rows: &mut Vec<Row>,
    line: &Value<'_>,
) -> Result<(), AllocError>
    requires { HasNumbers (value_view line.now) }
    ensures { OnOk result (rows_view rows.new.items
        ≡ rows_view rows.old.items ++ changed_rows (value_view line.now)) }
{
    push_rows_in_object(alloc, rows, line)?;
    push_rows_in_array(alloc, rows, line)?;
    Ok(())
}

/// Appends the row of the table for a row that only the file named `file` has. `mark` is `Removed`
/// if this is the left file, and `Added` if it is the right one. The note of the new row is the
/// name of the file, and the line at which the row begins there. `line` is the JSON line of the
/// row.
#[tactic(auto, unfolding(crate::specs::Rows::lone_row))]
pub(crate) fn push_lone(
    alloc: Global,
    rows: &mut Vec<Row>,
    mark: Mark,
    file: &str,
    line: &Value<'_>,
) -> Result<(), AllocError>
    requires { HasNumbers (value_view line.now) }
    ensures { OnOk result (rows_view rows.new.items
        ≡ rows_view rows.old.items ++ lone_row mark file.now (value_view line.now) ∷ []) }
{
    let mut key = Vec::new(alloc);
    push_pairs_of(alloc, &mut key, line, "key")?;
    let mut note = Vec::new(alloc);
    push_name(alloc, &mut note, file)?;
    push_ascii(&mut note, b" line ")?;
    push_number(&mut note, line, "line")?;
    let part = Vec::new(alloc);
    let left = Vec::new(alloc);
    let right = Vec::new(alloc);
    rows.push(Row {
        mark,
        key,
        part,
        left,
        right,
        note,
    })?;
    Ok(())
}
