//! The errors of reading documents.

ghost use Rattle.document_rows.specs.Errors.{IsMemory};

pub use document_faults::fault::LineFault;
use std::alloc::{AllocError, AllocFailed};
use std::io;
use thiserror::Error;

/// An error of reading the documents of an input.
#[derive(Debug, Drop, Error)]
pub enum ReadError {
    /// An allocation failed.
    #[error("out of memory")]
    Memory,
    /// The reader that gives the input failed.
    #[error("{cause}")]
    Read {
        cause: io::Error,
    },
    /// A line is not a document. `line` is its number, from 1 on. `column` is where in the line the
    /// fault is, in characters from 1 on, or `None` if the fault has no column.
    #[error("line {line}: {fault}")]
    Line {
        line: u64,
        column: Option<u64>,
        fault: LineFault,
    },
}

impl From<AllocError> for ReadError {
    ghost from_gives = { λ _ r. IsMemory r };

    fn from(_failed: AllocError) -> ReadError {
        ReadError::Memory
    }
}

impl<T: Drop> From<AllocFailed<T>> for ReadError {
    ghost from_gives = { λ _ r. IsMemory r };

    fn from(_failed: AllocFailed<T>) -> ReadError {
        ReadError::Memory
    }
}
