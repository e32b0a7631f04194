//! Writes the differences between two documents.

ghost use Rattle.std.specs.Option.{option_map};
ghost use Rattle.std.specs.Prelude.{◌≡◌, ◌++◌, OnOk};
ghost use Rattle.diff_words.specs.Colors.{painted};
ghost use Rattle.document_words.specs.Changes.{change_object, change_text, part_member, part_text};

use diff_json::strings::push_string;
use diff_words::colors::{Color, push_color};
use json_plain::plain::push_plain_json;
use std::alloc::AllocError;

/// Appends `part`, the JSON text of a value, with control characters escaped. Appends `missing` if
/// `part` is `None`.
#[tactic(auto, unfolding(crate::specs::Changes::part_text))]
fn push_part(out: &mut Vec<u8>, part: &Option<Vec<u8>>) -> Result<(), AllocError>
    ensures { OnOk result
        (out.new.items ≡ out.old.items ++ part_text (option_map (λ v. v.items) part.now)) }
{
    match part {
        Some(text) => push_plain_json(out, text)?,
        None => out.extend_from_slice(b"missing")?,
    }
    Ok(())
}

/// Appends `part`, the JSON text of a value, with control characters escaped, or `missing` if
/// `part` is `None`. If `colored` is true, switches to `color` before this text, and back to the
/// plain colour after it.
#[tactic(auto, unfolding(diff_words::specs::Colors::painted))]
fn push_painted_part(
    out: &mut Vec<u8>,
    colored: bool,
    color: Color,
    part: &Option<Vec<u8>>,
) -> Result<(), AllocError>
    ensures { OnOk result
        (out.new.items ≡ out.old.items
        ++ painted colored color (part_text (option_map (λ v. v.items) part.now))) }
{
    push_color(out, colored, color)?;
    push_part(out, part)?;
    push_color(out, colored, Color::Plain)?;
    Ok(())
}

/// Appends a difference as text: `PATH LEFT -> RIGHT`. `left` and `right` are the JSON texts of the
/// two values. A value that is `None` is written as `missing`. If `colored` is true, the left value
/// is red and the right value is green.
#[tactic(auto, unfolding(crate::specs::Changes::change_text))]
pub fn push_change(
    out: &mut Vec<u8>,
    colored: bool,
    path: &[u8],
    left: &Option<Vec<u8>>,
    right: &Option<Vec<u8>>,
) -> Result<(), AllocError>
    ensures { OnOk result
        (out.new.items ≡ out.old.items
        ++ change_text colored path.now (option_map (λ v. v.items) left.now)
        (option_map (λ v. v.items) right.now)) }
{
    push_plain_json(out, path)?;
    out.push(b' ')?;
    push_painted_part(out, colored, Color::Red, left)?;
    out.extend_from_slice(b" -> ")?;
    push_painted_part(out, colored, Color::Green, right)?;
    Ok(())
}

/// Appends a comma and the member `"NAME":VALUE`, where the value is the JSON text `part`. Appends
/// nothing if `part` is `None`.
#[tactic(auto, unfolding(crate::specs::Changes::part_member))]
fn push_part_member(
    out: &mut Vec<u8>,
    name: &[u8],
    part: &Option<Vec<u8>>,
) -> Result<(), AllocError>
    ensures { OnOk result
        (out.new.items ≡ out.old.items
        ++ part_member name.now (option_map (λ v. v.items) part.now)) }
{
    if let Some(text) = part {
        out.extend_from_slice(b",\"")?;
        out.extend_from_slice(name)?;
        out.extend_from_slice(b"\":")?;
        push_plain_json(out, text)?;
    }
    Ok(())
}

/// Appends a difference as a JSON object with the members `path`, `left` and `right`. The arguments
/// `left` and `right` are the JSON texts of the two values. A value that is `None` has no member.
#[tactic(auto, unfolding(crate::specs::Changes::change_object))]
pub fn push_change_object(
    out: &mut Vec<u8>,
    path: &[u8],
    left: &Option<Vec<u8>>,
    right: &Option<Vec<u8>>,
) -> Result<(), AllocError>
    ensures { OnOk result
        (out.new.items ≡ out.old.items
        ++ change_object path.now (option_map (λ v. v.items) left.now)
        (option_map (λ v. v.items) right.now)) }
{
    out.extend_from_slice(br#"{"path":"#)?;
    push_string(out, path)?;
    push_part_member(out, b"left", left)?;
    push_part_member(out, b"right", right)?;
    out.push(b'}')?;
    Ok(())
}
