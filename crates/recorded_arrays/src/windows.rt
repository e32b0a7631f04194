//! A reader of windows from words.

ghost use Rattle.std.specs.Prelude.{◌+◌, ◌≤◌, IfOk};

use recorded_text::fault::Fault;
use recorded_text::words::Words;

/// Reads a window from the next two words: the index of its first row, and its number of rows.
/// Returns the error `Case` if the window is not within `len` rows.
pub fn read_window(words: &mut Words, len: usize) -> Result<(usize, usize), Fault>
    ensures { IfOk result (λ window. window.0 + window.1 ≤ len) }
{
    let (at, n): (usize, usize) = (words.read_number()?, words.read_number()?);
    if at > len || n > len - at {
        return Err(Fault::Case);
    }
    Ok((at, n))
}
