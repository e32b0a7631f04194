//! The errors of merging two sorted texts.

ghost use Rattle.diff_merge.specs.Faults.{IsMemory};

use diff_columns::error::Side;
use diff_csv::error::CsvError;
use std::alloc::{AllocError, AllocFailed};
use thiserror::Error;

/// An error of merging two sorted texts.
#[derive(Debug, Drop, Error)]
pub enum MergeError {
    /// An allocation failed, except while a record was read (see `Csv`), or the sink of a merge
    /// returned an error.
    #[error("out of memory")]
    Memory,
    /// The text on this side can't be read as CSV. `cause` has the reason, which is
    /// `CsvError::Memory` if an allocation failed while a record was read.
    #[error("{cause}")]
    Csv { side: Side, cause: CsvError },
    /// A row of the text on this side has a lesser key than the row before it. `line` is the line
    /// at which the row begins.
    #[error("the row at line {line} has a lesser key than the row before it")]
    Falls { side: Side, line: u64 },
    /// Two adjacent rows of the text on this side have the same key, but keys must be unique.
    /// `first` and `again` are the lines at which the two rows begin.
    #[error("the rows at lines {first} and {again} have one key")]
    KeyTwice { side: Side, first: u64, again: u64 },
}

impl From<AllocError> for MergeError {
    ghost from_gives = { λ _ r. IsMemory r };

    fn from(_failed: AllocError) -> MergeError {
        MergeError::Memory
    }
}

impl<T: Drop> From<AllocFailed<T>> for MergeError {
    ghost from_gives = { λ _ r. IsMemory r };

    fn from(_failed: AllocFailed<T>) -> MergeError {
        MergeError::Memory
    }
}
