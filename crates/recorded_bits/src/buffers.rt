//! Calls on buffers.
//!
//! A call is `buffer TYPE N NUMBER.. OPERATION..`. It creates a buffer that owns the N numbers, and
//! applies the operations to it. The last operation is `end`. The call returns the results of the
//! operations in order. These are the operations and their results:
//!
//! - `slice AT N`: no result; keeps only the N elements from place AT on
//! - `share`: no result; makes later clones share the elements instead of copying them
//! - `clone`: no result; clones the buffer. The next operations are applied to the clone
//! - `get_mut I NUMBER`: if the buffer owns its elements, sets element I to NUMBER and returns
//!   `some`; otherwise returns `none`
//! - `as_mut_slice I NUMBER`: no result; sets element I to NUMBER. The buffer must own its elements
//! - `is_owned`: whether the buffer owns its elements
//! - `len`: the number of elements
//! - `list`: the elements
//! - `first`: the elements of the original of the last clone

use crate::answer_text::{Told, write_numbers};
use crate::bits::{is_within, read_pair};
use polars_arrays_bits::buffer::Buffer;
use polars_arrays_numbers::native_type::NativeType;
use recorded_text::fault::Fault;
use recorded_text::names::find_word;
use recorded_text::parts::read_numbers;
use recorded_text::words::Words;
use std::alloc::Global;
use std::fmt::Display;
use std::mem::replace;
use std::str::FromStr;

// The buffer to which the next operation is applied, and in `first` the original of the last clone,
// or `None` if there was no `clone`.
#[derive(Drop)]
struct Clones<T: NativeType> {
    buffer: Buffer<T>,
    first: Option<Buffer<T>>,
}

// An operation on a buffer, as listed at the top of this file.
#[derive(Clone, Copy)]
enum Operation {
    Slice,
    Share,
    Clone,
    GetMut,
    AsMutSlice,
    IsOwned,
    Len,
    List,
    First,
}

// The operations by name.
const OPERATIONS: [(&str, Operation); 9] = [
    ("slice", Operation::Slice),
    ("share", Operation::Share),
    ("clone", Operation::Clone),
    ("get_mut", Operation::GetMut),
    ("as_mut_slice", Operation::AsMutSlice),
    ("is_owned", Operation::IsOwned),
    ("len", Operation::Len),
    ("list", Operation::List),
    ("first", Operation::First),
];

/// Reads a buffer from the next words, applies the operations after it, up to `end`, and returns
/// their results. The error is `Word` for wrong or missing words, `Memory`, or `Case` if a place is
/// out of range, `as_mut_slice` is applied to a shared buffer, or `first` comes before a `clone`.
pub fn operate<T: NativeType + Display + FromStr<Err: Drop>>(
    alloc: Global,
    words: &mut Words,
) -> Result<String, Fault> {
    let mut clones = read_clones::<T>(alloc, words)?;
    tell(alloc, &mut clones, words)
}

// Reads a count and that many numbers, and returns a buffer that owns these numbers, before any
// `clone`.
fn read_clones<T: NativeType + FromStr<Err: Drop>>(
    alloc: Global,
    words: &mut Words,
) -> Result<Clones<T>, Fault> {
    let buffer = read_numbers(alloc, words)?;
    Ok(Clones {
        buffer,
        first: None,
    })
}

// Reads operations up to `end`, applies them to `clones`, and returns the text of their results.
fn tell<T: NativeType + Display + FromStr<Err: Drop>>(
    alloc: Global,
    clones: &mut Clones<T>,
    words: &mut Words,
) -> Result<String, Fault> {
    let mut told = Told::new(alloc);
    apply_all(alloc, clones, words, &mut told)?;
    Ok(told.into_text())
}

// Reads operations up to `end`, applies them to `clones`, and appends their results to `told`.
fn apply_all<T: NativeType + Display + FromStr<Err: Drop>>(
    alloc: Global,
    clones: &mut Clones<T>,
    words: &mut Words,
    told: &mut Told,
) -> Result<(), Fault> {
    for _ in 0..u64::MAX {
        match words.read()? {
            "end" => break,
            word => apply(alloc, clones, find_word(&OPERATIONS, word), words, told)?,
        }
    }
    Ok(())
}

// Applies an operation to `clones`, and appends its result, if it has one, to `told`. The operands
// are read from `words`. If `operation` is an error, returns it. The error is `Case` if the
// operation is not possible (see `operate`).
fn apply<T: NativeType + Display + FromStr<Err: Drop>>(
    alloc: Global,
    clones: &mut Clones<T>,
    operation: Result<Operation, Fault>,
    words: &mut Words,
    told: &mut Told,
) -> Result<(), Fault> {
    match operation? {
        Operation::Slice => slice(&mut clones.buffer, read_pair(words)),
        Operation::Share => share(alloc, &mut clones.buffer),
        Operation::Clone => clone(alloc, clones),
        Operation::GetMut => told.add_found(write_if_owned(&mut clones.buffer, read_pair(words))),
        Operation::AsMutSlice => write_owned(&mut clones.buffer, read_pair(words)),
        Operation::IsOwned => told.add_value(alloc, clones.buffer.is_owned()),
        Operation::Len => told.add_value(alloc, clones.buffer.len()),
        Operation::List => told.add_text(write_numbers(alloc, clones.buffer.as_slice())),
        Operation::First => told.add_text(list(alloc, &clones.first)),
    }
}

// Makes later clones of `buffer` use its memory instead of copying the elements. If this fails,
// `buffer` is left empty.
fn share<T: NativeType>(alloc: Global, buffer: &mut Buffer<T>) -> Result<(), Fault> {
    let elements = replace(buffer, Buffer::from_vec(Vec::new(alloc)));
    *buffer = elements.share(alloc)?;
    Ok(())
}

// Clones the buffer. The next operations are applied to the clone, and `first` becomes the
// original.
fn clone<T: NativeType>(alloc: Global, clones: &mut Clones<T>) -> Result<(), Fault> {
    let copy = clones.buffer.clone_buffer(alloc)?;
    clones.first = Some(replace(&mut clones.buffer, copy));
    Ok(())
}

// Returns the text of the elements of `first`, the original of the last clone. The error is `Case`
// if there is none.
fn list<T: NativeType + Display>(
    alloc: Global,
    first: &Option<Buffer<T>>,
) -> Result<String, Fault> {
    match first {
        Some(first) => write_numbers(alloc, first.as_slice()),
        None => Err(Fault::Case),
    }
}

// Keeps only a window of `buffer`; `places` are the place where the window begins and its length.
// If `places` is an error, returns it. The error is `Case` if the window is out of range.
fn slice<T: NativeType>(
    buffer: &mut Buffer<T>,
    places: Result<(usize, usize), Fault>,
) -> Result<(), Fault> {
    let (at, n) = places?;
    if !is_within(at, n, buffer.len()) {
        return Err(Fault::Case);
    }
    buffer.slice(at, n);
    Ok(())
}

// Sets element `i` to `element`. The error is `Case` if there is no element `i`.
fn write_at<T: NativeType>(elements: &mut [T], i: usize, element: T) -> Result<(), Fault> {
    if i >= elements.len() {
        return Err(Fault::Case);
    }
    elements[i] = element;
    Ok(())
}

// If the buffer owns its elements, sets one of them and returns `some`; otherwise returns `none`.
// `written` has the index and the new element. If `written` is an error, returns it. The error is
// `Case` if the buffer owns its elements and the index is out of range.
fn write_if_owned<T: NativeType>(
    buffer: &mut Buffer<T>,
    written: Result<(usize, T), Fault>,
) -> Result<&'static str, Fault> {
    let (i, element) = written?;
    match buffer.get_mut() {
        Some(elements) => write_at(elements, i, element).map(|()| "some"),
        None => Ok("none"),
    }
}

// Sets an element of `buffer`. `written` has the index and the new element. If `written` is an
// error, returns it. The error is `Case` if the buffer does not own its elements, or if the index
// is out of range.
fn write_owned<T: NativeType>(
    buffer: &mut Buffer<T>,
    written: Result<(usize, T), Fault>,
) -> Result<(), Fault> {
    let (i, element) = written?;
    if !buffer.is_owned() {
        return Err(Fault::Case);
    }
    write_at(buffer.as_mut_slice(), i, element)
}
