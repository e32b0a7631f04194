//! Errors of calls that allocate and of array constructors.

ghost use Rattle.polars_arrays_bits.specs.Errors.{IsMemory};

use std::alloc::{AllocError, AllocFailed};
use thiserror::Error;

/// An error of a computation on arrays.
#[derive(Debug, Drop, Error)]
pub enum ComputeError {
    /// An allocation failed.
    #[error("out of memory")]
    Memory(AllocError),
    /// The kind of array does not support the operation.
    #[error("not supported")]
    Unsupported,
    /// A dictionary's key `key` is not below `len`, the number of entries.
    #[error("key {key} is not below {len}")]
    KeyOutOfRange { key: u32, len: usize },
}

impl From<AllocError> for ComputeError {
    ghost from_gives = { λ _ r. IsMemory r };

    fn from(refused: AllocError) -> ComputeError {
        ComputeError::Memory(refused)
    }
}

impl<T: Drop> From<AllocFailed<T>> for ComputeError {
    ghost from_gives = { λ _ r. IsMemory r };

    fn from(_refused: AllocFailed<T>) -> ComputeError {
        ComputeError::Memory(AllocError)
    }
}

/// An error of an array constructor: the given parts do not make an array.
#[derive(Debug, PartialEq, Eq, Drop, Error)]
pub enum ArrayError {
    /// The lengths of the parts do not fit together.
    #[error("lengths do not fit")]
    Length,
    /// The offsets of row `row` decrease, or lie outside the values. `row` is 0 also if there are
    /// no offsets, or if the only one lies outside the values.
    #[error("offsets of row {row} are not good")]
    Offsets { row: usize },
    /// Field `at` or its values are missing, or the values do not have the struct's length or the
    /// field's type.
    #[error("field {at} does not fit")]
    Field { at: usize },
    /// The view of row `row` points to no buffer or outside its buffer, has a prefix that differs
    /// from the first bytes of the row, or, in a row of at most 12 bytes, is not padded with zeros.
    #[error("view {row} is not good")]
    View { row: usize },
    /// The bytes of row `row` are not UTF-8.
    #[error("row {row} is not UTF-8")]
    NotUtf8 { row: usize },
    /// The key of row `row` is present, and is negative or not below the number of entries.
    #[error("key {row} is out of range")]
    Key { row: usize },
}
