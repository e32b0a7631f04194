//! Writes colours for a terminal.

ghost use Rattle.std.specs.Prelude.{◌≡◌, ◌++◌, OnOk};
ghost use Rattle.diff_words.specs.Colors.{color_code, color_text};

use std::alloc::AllocError;

/// A text colour of a terminal.
#[derive(Clone, Copy)]
pub enum Color {
    /// The default colour of the terminal.
    Plain,
    Red,
    Green,
    Yellow,
}

/// Returns the escape sequence that switches the terminal to a colour.
fn code_of(color: Color) -> &'static [u8]
    ensures { result.now ≡ color_code color }
{
    match color {
        Color::Plain => b"\x1b[0m",
        Color::Red => b"\x1b[31m",
        Color::Green => b"\x1b[32m",
        Color::Yellow => b"\x1b[33m",
    }
}

/// Appends the escape sequence that switches the terminal to a colour. Appends nothing if `colored`
/// is false.
#[tactic(auto, unfolding(crate::specs::Colors::color_text))]
pub fn push_color(out: &mut Vec<u8>, colored: bool, color: Color) -> Result<(), AllocError>
    ensures { OnOk result (out.new.items ≡ out.old.items ++ color_text colored color) }
{
    if colored {
        out.extend_from_slice(code_of(color))?;
    }
    Ok(())
}
