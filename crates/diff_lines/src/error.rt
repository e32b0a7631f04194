//! The errors of reading a report.

ghost use Rattle.diff_lines.specs.Errors.{IsMemory};

use std::alloc::{AllocError, AllocFailed};
use thiserror::Error;

/// An error of reading a text as a report.
#[derive(Clone, Copy, Debug, Drop, Error, PartialEq, Eq)]
pub enum LineError {
    /// An allocation failed.
    #[error("out of memory")]
    Memory,
    /// The text is not UTF-8, or a line is not JSON, nests deeper than 256 levels, or has no `kind`
    /// that a line of a report can have.
    #[error("no report of differences")]
    NoReport,
}

impl From<AllocError> for LineError {
    ghost from_gives = { λ _ r. IsMemory r };

    fn from(_failed: AllocError) -> LineError {
        LineError::Memory
    }
}

impl<T: Drop> From<AllocFailed<T>> for LineError {
    ghost from_gives = { λ _ r. IsMemory r };

    fn from(_failed: AllocFailed<T>) -> LineError {
        LineError::Memory
    }
}
