//! Converts JSON values, names and keys of a report to text for the terminal.

ghost use Rattle.std.specs.List.{list_all};
ghost use Rattle.std.specs.Prelude.{◌≡◌, ◌++◌, [], codes, OnOk, option_and_then};
ghost use Rattle.json.specs.Find.{as_object, get};
ghost use Rattle.json.specs.Tree.{HasNumbers, MembersHaveNumbers};
ghost use Rattle.json.specs.Value.{members_view, value_view};
ghost use Rattle.diff_aligned.specs.Texts.{is_word, is_word_byte, name_text, number_text};
ghost use Rattle.diff_aligned.specs.Texts.{pair_text, pairs_after, pairs_text, row_name, side_text};
ghost use Rattle.diff_aligned.specs.Texts.{value_text};

use crate::shown::{push_ascii, push_text};
use diff_lines::parts::{members_at, number_at, part_of};
use json::{Value, to_vec};
use std::alloc::{AllocError, Global};

/// Appends a value as JSON. Control characters and invisible characters are escaped (`push_text`).
#[tactic(auto, unfolding(crate::specs::Texts::value_text))]
fn push_value(alloc: Global, out: &mut Vec<char>, value: &Value<'_>) -> Result<(), AllocError>
    requires { HasNumbers (value_view value.now) }
    ensures { OnOk result (out.new.items ≡ out.old.items ++ value_text (value_view value.now)) }
{
    let text = to_vec(alloc, value)?;
    push_text(out, &text)?;
    Ok(())
}

/// Returns whether a name that is shown without quotes may have this byte. Blanks, quotes, commas,
/// `=`, backslashes and control characters need quotes. So does the byte 194: characters from
/// U+0080 to U+00BF begin with it, and some of these are control characters.
fn is_word_byte(byte: u8) -> bool
    ensures { result ≡ is_word_byte byte }
{
    byte > 32
        && byte != b'"'
        && byte != b','
        && byte != b'='
        && byte != b'\\'
        && byte != 127
        && byte != 194
}

/// Returns whether `is_word_byte` holds for each byte of `bytes`.
fn are_word_bytes(bytes: &[u8]) -> bool
    ensures { result ≡ list_all is_word_byte bytes.now }
{
    bytes.iter().all(|byte| is_word_byte(*byte))
}

/// Returns whether a name may be shown without quotes: it isn't empty, and `is_word_byte` holds for
/// each of its bytes.
fn is_word(bytes: &[u8]) -> bool
    ensures { result ≡ is_word bytes.now }
{
    !bytes.is_empty() && are_word_bytes(bytes)
}

/// Appends a name: without quotes if `is_word` holds, and else as a JSON string.
#[tactic(auto, unfolding(crate::specs::Texts::name_text))]
pub(crate) fn push_name(alloc: Global, out: &mut Vec<char>, name: &str) -> Result<(), AllocError>
    ensures { OnOk result (out.new.items ≡ out.old.items ++ name_text name.now) }
{
    if is_word(name.as_bytes()) {
        push_text(out, name.as_bytes())?;
        return Ok(());
    }
    push_value(alloc, out, &Value::String(name))?;
    Ok(())
}

/// Appends the member `side` (`left` or `right`) of `change` as JSON. Appends `missing` if `change`
/// has no such member.
pub(crate) fn push_side(
    alloc: Global,
    out: &mut Vec<char>,
    change: &Value<'_>,
    side: &str,
) -> Result<(), AllocError>
    requires { HasNumbers (value_view change.now) }
    ensures { OnOk result (out.new.items
        ≡ out.old.items ++ side_text (get side.now (value_view change.now))) }
{
    match part_of(change, side) {
        Some(value) => push_value(alloc, out, value),
        None => push_ascii(out, b"missing"),
    }
}

/// Appends a member of an object as `name=value`.
#[tactic(auto, unfolding(crate::specs::Texts::pair_text))]
pub(crate) fn push_pair(
    alloc: Global,
    out: &mut Vec<char>,
    name: &str,
    value: &Value<'_>,
) -> Result<(), AllocError>
    requires { HasNumbers (value_view value.now) }
    ensures { OnOk result (out.new.items
        ≡ out.old.items ++ pair_text name.now (value_view value.now)) }
{
    push_name(alloc, out, name)?;
    out.push('=')?;
    push_value(alloc, out, value)?;
    Ok(())
}

/// Appends each of `members` as `name=value`, with commas between them.
fn push_pairs(
    alloc: Global,
    out: &mut Vec<char>,
    members: &Vec<(&str, Value<'_>)>,
) -> Result<(), AllocError>
    requires { MembersHaveNumbers (members_view members.now.items) }
    ensures { OnOk result (out.new.items
        ≡ out.old.items ++ pairs_after [] (members_view members.now.items)) }
{
    let mut gap: &[u8] = b"";
    for member in members {
        push_ascii(out, gap)?;
        push_pair(alloc, out, member.0, &member.1)?;
        gap = b",";
    }
    Ok(())
}

/// Appends the members of the object that `value` has as its member `name`, each as `name=value`,
/// with commas between them. Appends nothing if `value` has no such member, or if the member is not
/// an object.
#[tactic(auto, unfolding(crate::specs::Texts::pairs_text))]
pub(crate) fn push_pairs_of(
    alloc: Global,
    out: &mut Vec<char>,
    value: &Value<'_>,
    name: &str,
) -> Result<(), AllocError>
    requires { HasNumbers (value_view value.now) }
    ensures { OnOk result (out.new.items
        ≡ out.old.items ++ pairs_text (get name.now (value_view value.now))) }
{
    match members_at(value, name) {
        Some(members) => push_pairs(alloc, out, members),
        None => Ok(()),
    }
}

/// Appends the number that `value` has as its member `name`, with its digits unchanged. Appends
/// nothing if `value` has no such member, or if the member is not a number.
#[tactic(auto, unfolding(crate::specs::Texts::number_text))]
pub(crate) fn push_number(
    out: &mut Vec<char>,
    value: &Value<'_>,
    name: &str,
) -> Result<(), AllocError>
    ensures { OnOk result (out.new.items
        ≡ out.old.items ++ number_text name.now (value_view value.now)) }
{
    push_text(out, number_at(value, name).as_bytes())
}

/// Appends the key of a changed row, or the line numbers of the row in both files if it has no key.
/// `line` is the JSON line of the row.
#[tactic(auto, unfolding(crate::specs::Texts::row_name))]
pub(crate) fn push_row_name(
    alloc: Global,
    out: &mut Vec<char>,
    line: &Value<'_>,
) -> Result<(), AllocError>
    requires { HasNumbers (value_view line.now) }
    ensures { OnOk result (out.new.items ≡ out.old.items ++ row_name (value_view line.now)) }
{
    let mut key = Vec::new(alloc);
    push_pairs_of(alloc, &mut key, line, "key")?;
    if !key.is_empty() {
        out.extend_from_slice(&key)?;
        return Ok(());
    }
    push_ascii(out, b"lines ")?;
    push_number(out, line, "left_line")?;
    push_ascii(out, b" and ")?;
    push_number(out, line, "right_line")?;
    Ok(())
}
