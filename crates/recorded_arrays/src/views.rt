//! Calls on views: their parts, and comparisons of two views.

ghost use Rattle.std.specs.Prelude.{◌+◌, ◌≤◌, IsTrue, drop};
ghost use Rattle.polars_arrays_views.specs.Views.{AllZero, view_len};

use crate::values_text::write_value;
use polars_arrays_bits::buffer::Buffer;
use polars_arrays_views::view::View;
use recorded_text::bytes_text::write_bytes;
use recorded_text::fault::Fault;
use recorded_text::parts::{Kept, read_buffers, read_bytes, read_view};
use recorded_text::words::Words;
use std::alloc::Global;

/// A method of `View`. Each variant has the name of the method.
#[derive(Clone, Copy)]
pub enum Asked {
    AsU128,
    Len,
    Buffer,
    Offset,
    Prefix,
    Inlined,
    InBuffer,
    IsGood,
    SameHead,
    SameTail,
    InlinedLess,
}

/// Reads a view from the next word, calls the method `asked` on this view, and returns the result
/// as text. Reads the argument of the method, if it has one, from the words after the view. Returns
/// the error `Case` if the method must not be called on such a view or argument.
pub fn ask_next(alloc: Global, asked: Asked, words: &mut Words) -> Result<String, Fault> {
    ask(alloc, asked, read(alloc, words)?, words)
}

/// Reads a byte string from the next word, and returns the sixteen bytes of its view as text.
/// Returns the error `Case` if the byte string has more than 12 bytes.
pub fn of_short(alloc: Global, words: &mut Words) -> Result<String, Fault> {
    let bytes = read_bytes(alloc, words.read()?)?;
    if bytes.len() > 12 {
        return Err(Fault::Case);
    }
    let view = View::of_short(&bytes);
    write_bytes(alloc, &view.as_u128().to_le_bytes())
}

// Reads a view from the next word, which has its sixteen bytes.
fn read(alloc: Global, words: &mut Words) -> Result<View, Fault> {
    read_view(alloc, words.read()?)
}

// Calls the method `asked` on `view`, and returns the result as text. Reads the argument of the
// method, another view or buffers, from `words`. Returns the error `Case` if the method must not be
// called on such a view or argument.
fn ask(alloc: Global, asked: Asked, view: View, words: &mut Words) -> Result<String, Fault> {
    match asked {
        Asked::AsU128 => write_value(alloc, view.as_u128()),
        Asked::Len => write_value(alloc, view.len()),
        Asked::Buffer => write_value(alloc, view.buffer()),
        Asked::Offset => write_value(alloc, view.offset()),
        Asked::Prefix => write_value(alloc, view.prefix()),
        Asked::Inlined => inlined(alloc, &view),
        Asked::InBuffer => in_buffer(alloc, &view, words),
        Asked::IsGood => is_good(alloc, &view, words),
        Asked::SameHead | Asked::SameTail | Asked::InlinedLess => {
            compare(alloc, asked, &view, read(alloc, words))
        }
    }
}

// Calls the method `asked`, one of `SameHead`, `SameTail` and `InlinedLess`, on `left` and `right`,
// and returns the result as text. If `right` is an error, returns it. For `InlinedLess`, returns
// the error `Case` if a byte string has more than 12 bytes, or is not padded with zeros.
fn compare(
    alloc: Global,
    asked: Asked,
    left: &View,
    right: Result<View, Fault>,
) -> Result<String, Fault> {
    let right = right?;
    match asked {
        Asked::SameHead => write_value(alloc, left.same_head(&right)),
        Asked::SameTail => write_value(alloc, left.same_tail(&right)),
        _ => inlined_less(alloc, left, &right),
    }
}

// Returns the byte string that `view` holds, as text. Returns the error `Case` if the byte string
// has more than 12 bytes.
fn inlined(alloc: Global, view: &View) -> Result<String, Fault> {
    if view.len() > 12 {
        return Err(Fault::Case);
    }
    write_bytes(alloc, view.inlined())
}

// Reads a count and that many buffers from `words`, and returns as text the byte string of `view`
// in these buffers. Returns the error `Case` if the byte string has at most 12 bytes, or if the
// view is not good for these buffers (`View::is_good`).
fn in_buffer(alloc: Global, view: &View, words: &mut Words) -> Result<String, Fault> {
    let buffers = read_buffers(alloc, Kept::Owned, words)?;
    let text = write_long(alloc, view, &buffers);
    drop(buffers);
    text
}

// Returns as text the byte string of `view`, which lies in one of `buffers`. Returns the error
// `Case` if the byte string has at most 12 bytes, or if the view is not good for these buffers
// (`View::is_good`).
fn write_long(alloc: Global, view: &View, buffers: &[Buffer<u8>]) -> Result<String, Fault> {
    if view.len() <= 12 || !view.is_good(buffers) {
        return Err(Fault::Case);
    }
    write_bytes(alloc, view.in_buffer(buffers))
}

// Reads a count and that many buffers from `words`, and returns the text `true` if `view` is good
// for these buffers, otherwise `false`.
fn is_good(alloc: Global, view: &View, words: &mut Words) -> Result<String, Fault> {
    let buffers = read_buffers(alloc, Kept::Owned, words)?;
    let good = view.is_good(&buffers);
    drop(buffers);
    write_value(alloc, good)
}

// Returns the text `true` if the byte string of `left` is less than that of `right`, otherwise
// `false`. Returns the error `Case` if one of them has more than 12 bytes, or is not padded with
// zeros.
fn inlined_less(alloc: Global, left: &View, right: &View) -> Result<String, Fault> {
    if !is_short(left) || !is_short(right) {
        return Err(Fault::Case);
    }
    write_value(alloc, left.inlined_less(right))
}

// Returns whether `view` holds a byte string of at most 12 bytes, padded with zeros.
fn is_short(view: &View) -> bool
    ensures short { IsTrue result → view_len view.now ≤ 12 }
    ensures zeros { IsTrue result → AllZero (drop (4 + view_len view.now) view.now) }
{
    view.len() <= 12 && view.is_good(&[])
}
