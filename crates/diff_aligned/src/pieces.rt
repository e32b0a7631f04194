//! Writes the rows of the table as lines of text, with colours.

ghost use Rattle.std.specs.Prelude.{◌≡◌, ◌++◌, codes, encode_utf8_all, IfOk, OnOk};
ghost use Rattle.diff_widths.specs.Cut.{cut, filler, padded};
ghost use Rattle.diff_aligned.specs.Pieces.{change_pieces, line_bytes, lone_pieces, row_pieces};
ghost use Rattle.diff_aligned.specs.Rows.{row_view};
ghost use Rattle.diff_words.specs.Colors.{painted};

use crate::rooms::Rooms;
use crate::rows::{Mark, Row};
use crate::shown::push_ascii;
use diff_widths::cut::{push_cut, push_filler};
use diff_words::colors::{Color, push_color};
use std::alloc::{AllocError, Global};

/// Appends characters, encoded as UTF-8.
pub(crate) fn push_chars(out: &mut Vec<u8>, text: &[char]) -> Result<(), AllocError>
    ensures { OnOk result (out.new.items ≡ out.old.items ++ encode_utf8_all text.now) }
{
    for c in text {
        let mut buffer = [0; 4];
        out.extend_from_slice(c.encode_utf8(&mut buffer).as_bytes())?;
    }
    Ok(())
}

/// Appends the characters of `text`. If `colored`, switches the terminal to `color` before them,
/// and back to the default colour after them.
#[tactic(auto, unfolding(diff_words::specs::Colors::painted))]
fn push_painted(
    out: &mut Vec<u8>,
    colored: bool,
    color: Color,
    text: &[char],
) -> Result<(), AllocError>
    ensures { OnOk result (out.new.items
        ≡ out.old.items ++ painted colored color (encode_utf8_all text.now)) }
{
    push_color(out, colored, color)?;
    push_chars(out, text)?;
    push_color(out, colored, Color::Plain)?;
    Ok(())
}

/// Returns `text` if it is at most `room` columns wide. Otherwise, returns it with `…` in place of
/// its middle, at most `room` columns wide (`push_cut`).
pub(crate) fn cut_of(alloc: Global, text: &[char], room: usize) -> Result<Vec<char>, AllocError>
    ensures { IfOk result (λ v. v.items ≡ cut room text.now) }
{
    let mut out = Vec::new(alloc);
    push_cut(&mut out, text, room)?;
    Ok(out)
}

/// Appends `text`, cut if it is wider than `room` columns (`cut_of`), and then the blanks that fill
/// it up to `room` columns.
#[tactic(auto, unfolding(diff_widths::specs::Cut::padded))]
fn push_padded(
    alloc: Global,
    out: &mut Vec<char>,
    text: &[char],
    room: usize,
) -> Result<(), AllocError>
    ensures { OnOk result (out.new.items ≡ out.old.items ++ padded room text.now) }
{
    let text = cut_of(alloc, text, room)?;
    out.extend_from_slice(&text)?;
    push_filler(out, &text, room)?;
    Ok(())
}

/// Returns the text between the key and the left value of a changed row: the blanks after the key,
/// the part (a column or path), and the blanks after the part.
fn middle_of(alloc: Global, rooms: &Rooms, row: &Row) -> Result<Vec<char>, AllocError>
    ensures { IfOk result (λ v. v.items
        ≡ filler rooms.now.key (cut rooms.now.key row.now.key.items) ++ codes "  "
        ++ padded rooms.now.part row.now.part.items ++ codes "  ") }
{
    let key = cut_of(alloc, &row.key, rooms.key)?;
    let mut text = Vec::new(alloc);
    push_filler(&mut text, &key, rooms.key)?;
    push_ascii(&mut text, b"  ")?;
    push_padded(alloc, &mut text, &row.part, rooms.part)?;
    push_ascii(&mut text, b"  ")?;
    Ok(text)
}

/// Returns the blanks that fill `left` up to `room` columns, and then an arrow. `left` is the left
/// value of a changed row.
fn arrow_of(alloc: Global, left: &[char], room: usize) -> Result<Vec<char>, AllocError>
    ensures { IfOk result (λ v. v.items ≡ filler room left.now ++ codes " -> ") }
{
    let mut text = Vec::new(alloc);
    push_filler(&mut text, left, room)?;
    push_ascii(&mut text, b" -> ")?;
    Ok(text)
}

/// Appends the end of the line of a changed row, after its key: the part, the left value, an arrow,
/// the right value and a line feed.
#[tactic(auto, unfolding(crate::specs::Pieces::change_pieces))]
fn push_change(
    alloc: Global,
    out: &mut Vec<u8>,
    colored: bool,
    rooms: &Rooms,
    row: &Row,
) -> Result<(), AllocError>
    ensures { OnOk result (out.new.items
        ≡ out.old.items ++ line_bytes colored (change_pieces rooms.now (row_view row.now))) }
{
    let middle = middle_of(alloc, rooms, row)?;
    let left = cut_of(alloc, &row.left, rooms.left)?;
    let arrow = arrow_of(alloc, &left, rooms.left)?;
    let right = cut_of(alloc, &row.right, rooms.right)?;
    push_chars(out, &middle)?;
    push_painted(out, colored, Color::Red, &left)?;
    push_chars(out, &arrow)?;
    push_painted(out, colored, Color::Green, &right)?;
    out.push(b'\n')?;
    Ok(())
}

/// Returns the text `mark`, such as `~ `, and then the key of `row`, cut if it is wider than
/// `rooms.key`.
fn marked_key(alloc: Global, mark: &[u8], rooms: &Rooms, row: &Row) -> Result<Vec<char>, AllocError>
    ensures { IfOk result (λ v. v.items ≡ mark.now ++ cut rooms.now.key row.now.key.items) }
{
    let mut text = Vec::new(alloc);
    push_ascii(&mut text, mark)?;
    push_cut(&mut text, &row.key, rooms.key)?;
    Ok(text)
}

/// Appends the line of a row that only one file has: `mark`, the key and the note of `row`, all in
/// `color` if `colored`.
#[tactic(auto, unfolding(crate::specs::Pieces::lone_pieces))]
fn push_lone(
    alloc: Global,
    out: &mut Vec<u8>,
    colored: bool,
    color: Color,
    mark: &[u8],
    rooms: &Rooms,
    row: &Row,
) -> Result<(), AllocError>
    ensures { OnOk result (out.new.items ≡ out.old.items
        ++ line_bytes colored (lone_pieces color mark.now rooms.now (row_view row.now))) }
{
    let mut text = Vec::new(alloc);
    push_ascii(&mut text, mark)?;
    push_padded(alloc, &mut text, &row.key, rooms.key)?;
    push_ascii(&mut text, b"  ")?;
    push_cut(&mut text, &row.note, rooms.note)?;
    push_painted(out, colored, color, &text)?;
    out.push(b'\n')?;
    Ok(())
}

/// Appends the line of text for a row of the table. `rooms` has the widths of the parts of the row.
/// The form and colours of the line depend on the mark of the row. The line has colours only if
/// `colored` is set.
pub(crate) fn push_row(
    alloc: Global,
    out: &mut Vec<u8>,
    colored: bool,
    rooms: &Rooms,
    row: &Row,
) -> Result<(), AllocError>
    ensures { OnOk result (out.new.items
        ≡ out.old.items ++ line_bytes colored (row_pieces rooms.now (row_view row.now))) }
{
    match row.mark {
        Mark::Changed => {
            let key = marked_key(alloc, b"~ ", rooms, row)?;
            push_painted(out, colored, Color::Yellow, &key)?;
            push_change(alloc, out, colored, rooms, row)?;
            Ok(())
        }
        Mark::Again => {
            let key = marked_key(alloc, b"  ", rooms, row)?;
            push_chars(out, &key)?;
            push_change(alloc, out, colored, rooms, row)?;
            Ok(())
        }
        Mark::Removed => push_lone(alloc, out, colored, Color::Red, b"- ", rooms, row),
        Mark::Added => push_lone(alloc, out, colored, Color::Green, b"+ ", rooms, row),
    }
}
