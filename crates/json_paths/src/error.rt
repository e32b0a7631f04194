//! Errors of reading a path.

ghost use Rattle.json_paths.specs.Errors.{IsMemory};

use std::alloc::{AllocError, AllocFailed};
use thiserror::Error;

/// The reason why a text can't be read as a path or as a pattern.
#[derive(Clone, Copy, Debug, Drop, Error, PartialEq, Eq)]
pub enum PathError {
    /// An allocation failed.
    #[error("out of memory")]
    Memory,
    /// The text is not a path, or not a pattern if a pattern is read.
    #[error("no path such as a.b[0] or .\"a b\"[1]")]
    Invalid,
}

impl From<AllocError> for PathError {
    ghost from_gives = { λ _ r. IsMemory r };

    fn from(_failed: AllocError) -> PathError {
        PathError::Memory
    }
}

impl<T: Drop> From<AllocFailed<T>> for PathError {
    ghost from_gives = { λ _ r. IsMemory r };

    fn from(_failed: AllocFailed<T>) -> PathError {
        PathError::Memory
    }
}
