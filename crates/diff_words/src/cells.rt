//! Writes cells of CSV in text reports.

ghost use Rattle.std.specs.Option.{option_map};
ghost use Rattle.std.specs.Prelude.{◌≡◌, ◌++◌, OnOk};
ghost use Rattle.diff_words.specs.Cells.{cell_text, is_null};
ghost use Rattle.diff_words.specs.Colors.{painted};

use crate::colors::{Color, push_color};
use crate::quoted::push_quoted;
use std::alloc::AllocError;

/// Returns whether `cell` equals `null`, the text that stands for no value (option `--null`).
/// Returns `false` if `null` is `None`.
pub fn is_null(null: &Option<Vec<u8>>, cell: &[u8]) -> bool
    ensures { result ≡ is_null (option_map (λ v. v.items) null.now) cell.now }
{
    match null {
        Some(word) => word.as_slice() == cell,
        None => false,
    }
}

/// Appends the word `null` if `cell` stands for no value, that is, if it equals the text in the
/// parameter `null`. Otherwise, also if the parameter is `None`, appends `cell` between quotes,
/// with quotes, backslashes and control characters escaped (`push_quoted`).
#[tactic(auto, unfolding(crate::specs::Cells::cell_text))]
pub fn push_cell(out: &mut Vec<u8>, null: &Option<Vec<u8>>, cell: &[u8]) -> Result<(), AllocError>
    ensures { OnOk result
        (out.new.items ≡ out.old.items ++ cell_text (option_map (λ v. v.items) null.now) cell.now) }
{
    if is_null(null, cell) {
        out.extend_from_slice(b"null")?;
        return Ok(());
    }
    push_quoted(out, cell)?;
    Ok(())
}

/// Appends `cell` as `push_cell` does. If `colored`, switches the terminal to `color` before the
/// cell, and back to the default colour after it.
#[tactic(auto, unfolding(crate::specs::Colors::painted))]
pub fn push_painted_cell(
    out: &mut Vec<u8>,
    colored: bool,
    color: Color,
    null: &Option<Vec<u8>>,
    cell: &[u8],
) -> Result<(), AllocError>
    ensures { OnOk result
        (out.new.items ≡ out.old.items
        ++ painted colored color (cell_text (option_map (λ v. v.items) null.now) cell.now)) }
{
    push_color(out, colored, color)?;
    push_cell(out, null, cell)?;
    push_color(out, colored, Color::Plain)?;
    Ok(())
}
