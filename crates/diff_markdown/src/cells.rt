//! Writes the texts in the cells of the Markdown table.

ghost use Rattle.std.specs.List.{list_all};
ghost use Rattle.std.specs.Prelude.{◌≡◌, ◌++◌, [], OnOk};
ghost use Rattle.json.specs.Find.{get};
ghost use Rattle.json.specs.Tree.{HasNumbers, MembersHaveNumbers};
ghost use Rattle.json.specs.Value.{members_view, value_view};
ghost use Rattle.diff_markdown.specs.Cells.{is_word, is_word_byte, name_cell, name_text, pair_cell};
ghost use Rattle.diff_markdown.specs.Cells.{pairs_after, pairs_cell, side_cell, value_text};
ghost use Rattle.diff_markdown.specs.Rows.{number_cell};

use crate::escapes::push_safe;
use diff_lines::parts::{members_at, number_at, part_of};
use json::{Value, to_vec};
use std::alloc::{AllocError, Global};

/// Appends a value as JSON. Backquotes and bars are escaped, so the text can be inside a code span
/// in a table cell.
#[tactic(auto, unfolding(crate::specs::Cells::value_text))]
fn push_value(alloc: Global, out: &mut Vec<u8>, value: &Value<'_>) -> Result<(), AllocError>
    requires { HasNumbers (value_view value.now) }
    ensures { OnOk result (out.new.items ≡ out.old.items ++ value_text (value_view value.now)) }
{
    let text = to_vec(alloc, value)?;
    push_safe(out, &text)?;
    Ok(())
}

/// Returns whether a name that is shown without quotes may have this byte. Blanks, quotes, commas,
/// `=`, backslashes, backquotes, bars and control characters need quotes. So does the byte 194:
/// characters from U+0080 to U+00BF begin with it, and some of these are control characters.
fn is_word_byte(byte: u8) -> bool
    ensures { result ≡ is_word_byte byte }
{
    byte > 32
        && byte != b'"'
        && byte != b','
        && byte != b'='
        && byte != b'\\'
        && byte != b'`'
        && byte != b'|'
        && byte != 127
        && byte != 194
}

/// Returns whether `is_word_byte` holds for each byte of `bytes`.
fn are_word_bytes(bytes: &[u8]) -> bool
    ensures { result ≡ list_all is_word_byte bytes.now }
{
    bytes.iter().all(|byte| is_word_byte(*byte))
}

/// Returns whether a name may be shown without quotes: it isn't empty, and `is_word_byte` holds for
/// each of its bytes.
fn is_word(bytes: &[u8]) -> bool
    ensures { result ≡ is_word bytes.now }
{
    !bytes.is_empty() && are_word_bytes(bytes)
}

/// Appends a name: without quotes if `is_word` holds, and else as a JSON string.
#[tactic(auto, unfolding(crate::specs::Cells::name_text))]
fn push_name(alloc: Global, out: &mut Vec<u8>, name: &str) -> Result<(), AllocError>
    ensures { OnOk result (out.new.items ≡ out.old.items ++ name_text name.now) }
{
    if is_word(name.as_bytes()) {
        push_safe(out, name.as_bytes())?;
        return Ok(());
    }
    push_value(alloc, out, &Value::String(name))?;
    Ok(())
}

/// Appends a name between backquotes, as a code span. Unless `is_word` holds, the name is written
/// as a JSON string.
pub(crate) fn push_name_cell(alloc: Global, out: &mut Vec<u8>, name: &str) -> Result<(), AllocError>
    ensures { OnOk result (out.new.items ≡ out.old.items ++ name_cell name.now) }
{
    out.push(b'`')?;
    push_name(alloc, out, name)?;
    out.push(b'`')?;
    Ok(())
}

/// Appends the member `side` (`left` or `right`) of `change` as JSON in a code span. Appends
/// `missing` if `change` has no such member.
pub(crate) fn push_side(
    alloc: Global,
    out: &mut Vec<u8>,
    change: &Value<'_>,
    side: &str,
) -> Result<(), AllocError>
    requires { HasNumbers (value_view change.now) }
    ensures { OnOk result (out.new.items
        ≡ out.old.items ++ side_cell (get side.now (value_view change.now))) }
{
    match part_of(change, side) {
        Some(value) => {
            out.push(b'`')?;
            push_value(alloc, out, value)?;
            out.push(b'`')?;
            Ok(())
        }
        None => {
            out.extend_from_slice(b"missing")?;
            Ok(())
        }
    }
}

/// Appends a member of an object as `name=value` in a code span.
#[tactic(auto, unfolding(crate::specs::Cells::pair_cell))]
fn push_pair(
    alloc: Global,
    out: &mut Vec<u8>,
    name: &str,
    value: &Value<'_>,
) -> Result<(), AllocError>
    requires { HasNumbers (value_view value.now) }
    ensures { OnOk result (out.new.items
        ≡ out.old.items ++ pair_cell name.now (value_view value.now)) }
{
    out.push(b'`')?;
    push_name(alloc, out, name)?;
    out.push(b'=')?;
    push_value(alloc, out, value)?;
    out.push(b'`')?;
    Ok(())
}

/// Appends each of `members` as `name=value` in a code span, with commas between them.
fn push_pairs(
    alloc: Global,
    out: &mut Vec<u8>,
    members: &Vec<(&str, Value<'_>)>,
) -> Result<(), AllocError>
    requires { MembersHaveNumbers (members_view members.now.items) }
    ensures { OnOk result (out.new.items
        ≡ out.old.items ++ pairs_after [] (members_view members.now.items)) }
{
    let mut gap: &[u8] = b"";
    for member in members {
        out.extend_from_slice(gap)?;
        push_pair(alloc, out, member.0, &member.1)?;
        gap = b", ";
    }
    Ok(())
}

/// Appends the members of the object that `value` has as its member `name`, each as `name=value` in
/// a code span, with commas between them. Appends nothing if `value` has no such member, or if the
/// member is not an object.
#[tactic(auto, unfolding(crate::specs::Cells::pairs_cell))]
pub(crate) fn push_pairs_cell(
    alloc: Global,
    out: &mut Vec<u8>,
    value: &Value<'_>,
    name: &str,
) -> Result<(), AllocError>
    requires { HasNumbers (value_view value.now) }
    ensures { OnOk result (out.new.items
        ≡ out.old.items ++ pairs_cell (get name.now (value_view value.now))) }
{
    match members_at(value, name) {
        Some(members) => push_pairs(alloc, out, members),
        None => Ok(()),
    }
}

/// Appends the number that `value` has as its member `name`, with its digits unchanged. Appends
/// nothing if `value` has no such member, or if the member is not a number.
pub(crate) fn push_number(
    out: &mut Vec<u8>,
    value: &Value<'_>,
    name: &str,
) -> Result<(), AllocError>
    ensures { OnOk result (out.new.items
        ≡ out.old.items ++ number_cell name.now (value_view value.now)) }
{
    push_safe(out, number_at(value, name).as_bytes())
}
