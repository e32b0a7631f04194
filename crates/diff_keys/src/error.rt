//! The errors of matching rows.

ghost use Rattle.diff_keys.specs.Errors.{IsMemory};

use std::alloc::{AllocError, AllocFailed};

/// An error of matching the rows of two tables.
#[derive(Clone, Copy)]
pub enum MatchError {
    /// An allocation failed.
    Memory,
    /// A table has more than 2^32 rows.
    TooManyRows,
}

impl From<AllocError> for MatchError {
    ghost from_gives = { λ _ r. IsMemory r };

    fn from(_failed: AllocError) -> MatchError {
        MatchError::Memory
    }
}

impl<T: Drop> From<AllocFailed<T>> for MatchError {
    ghost from_gives = { λ _ r. IsMemory r };

    fn from(_failed: AllocFailed<T>) -> MatchError {
        MatchError::Memory
    }
}
