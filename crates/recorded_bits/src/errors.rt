//! Calls that return the texts of errors.
//!
//! - `compute_error memory`, `compute_error unsupported`, `compute_error key KEY LEN`: the text of
//!   a computation error. In the last call, KEY is a key of a dictionary with LEN entries
//! - `array_error length`, `array_error offsets ROW`, `array_error field AT`,
//!   `array_error view ROW`, `array_error not_utf8 ROW`, `array_error key ROW`: the text of an
//!   array error. ROW and AT are the indices of a row and of a field

use crate::bits::read_pair;
use polars_arrays_bits::error::{ArrayError, ComputeError};
use recorded_text::fault::Fault;
use recorded_text::words::Words;
use std::alloc::{AllocError, Global};
use std::fmt::Display;

/// Reads a computation error from the next words, and returns the text of this error.
pub fn write_compute_error(alloc: Global, words: &mut Words) -> Result<String, Fault> {
    write_error(alloc, read_compute_error(words))
}

/// Reads an array error from the next words, and returns the text of this error.
pub fn write_array_error(alloc: Global, words: &mut Words) -> Result<String, Fault> {
    write_error(alloc, read_array_error(words))
}

// Returns the text of an error that was read. If reading it failed, returns the fault.
fn write_error<E: Display + Drop>(alloc: Global, error: Result<E, Fault>) -> Result<String, Fault> {
    error?.to_string(alloc).map_err(Fault::from)
}

// Reads a computation error: `memory`, `unsupported`, or `key` with a key and a number of entries.
fn read_compute_error(words: &mut Words) -> Result<ComputeError, Fault> {
    match words.read()? {
        "memory" => Ok(ComputeError::Memory(AllocError)),
        "unsupported" => Ok(ComputeError::Unsupported),
        "key" => read_key_error(words),
        _ => Err(Fault::Word),
    }
}

// Reads a key and a number of entries, and returns the error that says that the key is out of
// range.
fn read_key_error(words: &mut Words) -> Result<ComputeError, Fault> {
    let (key, len) = read_pair(words)?;
    Ok(ComputeError::KeyOutOfRange { key, len })
}

// Reads an array error: `length`, or another name and then the index of a row or field.
fn read_array_error(words: &mut Words) -> Result<ArrayError, Fault> {
    match words.read()? {
        "length" => Ok(ArrayError::Length),
        name => error_at(name, words.read_number()?),
    }
}

// Returns the array error with the given name, at the row or field with the index `at`. The error
// is `Word` if no error with a row or field has this name.
fn error_at(name: &str, at: usize) -> Result<ArrayError, Fault> {
    match name {
        "offsets" => Ok(ArrayError::Offsets { row: at }),
        "field" => Ok(ArrayError::Field { at }),
        "view" => Ok(ArrayError::View { row: at }),
        "not_utf8" => Ok(ArrayError::NotUtf8 { row: at }),
        "key" => Ok(ArrayError::Key { row: at }),
        _ => Err(Fault::Word),
    }
}
