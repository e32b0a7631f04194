//! Arrays of any kind: the rows of an array, of a clone and of a slice, and the number of leaf
//! slots.

ghost use Rattle.polars_arrays_nested.specs.GoodParts.{IsGood};

use crate::windows::read_window;
use polars_arrays_nested::any_array::AnyArray;
use recorded_text::fault::Fault;
use recorded_text::leaf_slots::leaf_slots;
use recorded_text::row_text::{write_made, write_rows};
use recorded_text::words::Words;
use std::alloc::Global;

/// A call that returns the rows of an array (`Rows`), of a clone (`Copy`), or of a slice of a clone
/// (`Slice`).
#[derive(Clone, Copy)]
pub enum Asked {
    Rows,
    Copy,
    Slice,
}

/// Returns as text the rows of `array`, of a clone, or of a slice of a clone, depending on `asked`.
/// Reads the window of a slice from `words`. Returns the error `Case` if the window is out of
/// range.
pub fn ask(
    alloc: Global,
    asked: Asked,
    array: &AnyArray,
    words: &mut Words,
) -> Result<String, Fault>
    requires { IsGood array.now }
{
    match asked {
        Asked::Rows => write_rows(alloc, array),
        Asked::Copy => write_copy(alloc, array),
        Asked::Slice => write_slice(alloc, array, words),
    }
}

// Returns the rows of a clone of `array` as text.
fn write_copy(alloc: Global, array: &AnyArray) -> Result<String, Fault>
    requires { IsGood array.now }
{
    write_made(alloc, array.clone_array(alloc)?)
}

// Reads a window from the next two words, slices a clone of `array` to this window, and returns the
// rows of the slice as text. Returns the error `Case` if the window is out of range.
fn write_slice(alloc: Global, array: &AnyArray, words: &mut Words) -> Result<String, Fault>
    requires { IsGood array.now }
{
    let (at, n) = read_window(words, array.len())?;
    let mut copy = array.clone_array(alloc)?;
    copy.slice(at, n);
    write_made(alloc, copy)
}

/// Returns the number of leaf slots of `left`, a space, and the number of leaf slots of `right`.
pub fn write_leaves(alloc: Global, left: &AnyArray, right: &AnyArray) -> Result<String, Fault>
    requires left { IsGood left.now }
    requires right { IsGood right.now }
{
    let of_left = leaf_slots(left, 0, left.len())?;
    let of_right = leaf_slots(right, 0, right.len())?;
    Ok(format!(in alloc; "{of_left} {of_right}")?)
}
