//! The errors of converting the cells of a table to the texts by which they are compared.

ghost use Rattle.diff_numbers.specs.Errors.{IsMemory};

use polars_arrays_bits::error::ComputeError;
use std::alloc::AllocError;
use thiserror::Error;

/// An error of converting the cells of a table to the texts by which they are compared.
#[derive(Clone, Copy, Debug, Drop, Error, PartialEq, Eq)]
pub enum ComparableError {
    /// An allocation failed.
    #[error("out of memory")]
    Memory,
    /// A number that is compared by value has an exponent of more than 30 digits, leading zeros not
    /// counted. `row` and `column` are the indices of its cell in the table, from 0.
    #[error("the number in row {row}, column {column} has an exponent of more than 30 digits")]
    WideExponent { row: usize, column: usize },
}

impl From<AllocError> for ComparableError {
    ghost from_gives = { λ _ r. IsMemory r };

    fn from(_failed: AllocError) -> ComparableError {
        ComparableError::Memory
    }
}

impl From<ComputeError> for ComparableError {
    ghost from_gives = { λ _ r. IsMemory r };

    fn from(_failed: ComputeError) -> ComparableError {
        ComparableError::Memory
    }
}
