//! The demo of the program: comparisons of small nested arrays.

ghost use Rattle.std.specs.Prelude.{◌≡◌, ◌⊎◌, IfErr};
ghost use Rattle.std.specs.Io.KnownBytes.{Keeps};

mod arrays;
mod cases;
mod fault;
mod text;

use crate::demo::text::demo_text;
use crate::running::{RunError, write_text};
use std::alloc::Global;
use std::io::Write;

/// Compares eight pairs of small nested arrays, and writes a line for each pair: which rows are
/// equal, and how many leaves were compared. Null is equal only to null. The error is `Write` if a
/// write fails. If an allocation fails, the error is `Memory` and nothing is written.
pub fn demo<W: Write>(alloc: Global, writer: &mut W) -> Result<(), RunError>
    // Writes nothing on an error, except if a write failed.
    ensures unwritten { IfErr result
        (λ e. (e ≡ RunError.Write) ⊎ Keeps (W.contents writer.old) (W.contents writer.new)) }
{
    let text = demo_text(alloc)?;
    write_text(writer, &text)
}
