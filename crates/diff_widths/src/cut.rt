//! Measures the width of texts on a terminal, and cuts texts to a width. Widths are in columns of
//! the terminal.

ghost use Rattle.std.specs.Prelude.{◌≡◌, ◌≤◌, ◌++◌, ◌-◌, OnOk};
ghost use Rattle.diff_widths.specs.Cut.{beginning, char_columns, cut, ending, filler, shortened};
ghost use Rattle.diff_widths.specs.Cut.{spaces, width};

use std::alloc::AllocError;
use unicode_width::UnicodeWidthChar;

/// Returns the width of a character, in columns of the terminal. A character without a width, such
/// as a control character, counts as 0.
#[tactic(auto, unfolding(crate::specs::Cut::char_columns))]
fn char_columns(c: char) -> usize
    ensures value { result ≡ char_columns c }
    ensures bound { result ≤ 3 }
{
    match c.width() {
        Some(columns) => columns,
        None => 0,
    }
}

/// Returns the width of a text, in columns of the terminal: the sum of the widths of its
/// characters.
pub fn width_of(text: &[char]) -> usize
    ensures { result ≡ width text.now }
{
    let mut total = 0;
    for c in text {
        total += char_columns(*c);
    }
    total
}

/// Appends the longest prefix of `text` that is at most `room` columns wide.
fn push_beginning(out: &mut Vec<char>, text: &[char], room: usize) -> Result<(), AllocError>
    ensures { OnOk result (out.new.items ≡ out.old.items ++ beginning room text.now) }
{
    let mut left = room;
    for c in text {
        let columns = char_columns(*c);
        if columns > left {
            return Ok(());
        }
        left -= columns;
        out.push(*c)?;
    }
    Ok(())
}

/// Appends the longest suffix of `text` that is at most `room` columns wide and begins with a
/// character of a width above 0. So the suffix never begins with a combining mark whose letter is
/// cut off. Appends nothing if there is no such suffix.
fn push_ending(out: &mut Vec<char>, text: &[char], room: usize) -> Result<(), AllocError>
    ensures { OnOk result (out.new.items ≡ out.old.items ++ ending room text.now) }
{
    let mut total = width_of(text);
    for i in 0..text.len() {
        let columns = char_columns(text[i]);
        if total <= room && columns > 0 {
            out.extend_from_slice(&text[i..])?;
            return Ok(());
        }
        total -= columns;
    }
    Ok(())
}

/// Appends `text` shortened to at most `room` columns: its beginning, `…` and its end. Appends
/// nothing if `room` is 0.
fn push_shortened(out: &mut Vec<char>, text: &[char], room: usize) -> Result<(), AllocError>
    ensures { OnOk result (out.new.items ≡ out.old.items ++ shortened room text.now) }
{
    if room == 0 {
        return Ok(());
    }
    let half = (room - 1) / 2;
    push_beginning(out, text, room - 1 - half)?;
    out.push('…')?;
    push_ending(out, text, half)?;
    Ok(())
}

/// Appends `text` unchanged if it is at most `room` columns wide. Otherwise, writes `…` in place of
/// its middle, so that at most `room` columns are appended: `ab…gh` for `abcdefgh` and 5 columns.
/// If `text` is wider than 0 columns and `room` is 0, appends nothing.
#[tactic(auto, unfolding(crate::specs::Cut::cut))]
pub fn push_cut(out: &mut Vec<char>, text: &[char], room: usize) -> Result<(), AllocError>
    ensures { OnOk result (out.new.items ≡ out.old.items ++ cut room text.now) }
{
    if width_of(text) <= room {
        out.extend_from_slice(text)?;
        return Ok(());
    }
    push_shortened(out, text, room)?;
    Ok(())
}

/// Appends `n` blanks.
fn push_spaces(out: &mut Vec<char>, n: usize) -> Result<(), AllocError>
    ensures { OnOk result (out.new.items ≡ out.old.items ++ spaces n) }
{
    for _done in 0..n {
        out.push(' ')?;
    }
    Ok(())
}

/// Appends the blanks that fill `text` up to `room` columns, but not `text` itself. Appends nothing
/// if `text` is as wide or wider.
pub fn push_filler(out: &mut Vec<char>, text: &[char], room: usize) -> Result<(), AllocError>
    ensures { OnOk result (out.new.items ≡ out.old.items ++ filler room text.now) }
{
    push_spaces(out, room.saturating_sub(width_of(text)))
}
