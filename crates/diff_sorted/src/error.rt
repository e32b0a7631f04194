//! The errors of comparing two sorted inputs.

ghost use Rattle.diff_sorted.specs.Faults.{IsFaultOf, IsMemory, IsRunCause};

use diff_columns::error::Side;
use diff_merge::error::MergeError;
use diff_run::error::RunError;
use std::alloc::AllocError;
use thiserror::Error;

/// An error of comparing two sorted inputs. Something may have been written only if the error is a
/// failed write.
#[derive(Debug, Drop, Error)]
pub enum SortedError {
    /// The options don't suit sorted inputs: there is no key, or one of `numbers`, `tolerances` and
    /// `part` is set.
    #[error("sorted inputs are compared by a key, as texts, exactly, and whole")]
    Refused,
    /// A row of the input on this side has a lesser key than the row before it. `line` is the line
    /// at which the row begins.
    #[error("the row at line {line} has a lesser key than the row before it")]
    Falls { side: Side, line: u64 },
    /// Two adjacent rows of the input on this side have the same key, but keys must be unique.
    /// `first` and `again` are the lines at which the rows begin.
    #[error("the rows at lines {first} and {again} have one key")]
    KeyTwice { side: Side, first: u64, again: u64 },
    /// Any other error, as in a comparison of inputs that are not sorted.
    #[error("{cause}")]
    Run { cause: RunError },
}

impl From<AllocError> for SortedError {
    ghost from_gives = { λ _ r. IsMemory r };

    fn from(_failed: AllocError) -> SortedError {
        SortedError::Run {
            cause: RunError::Memory,
        }
    }
}

impl From<RunError> for SortedError {
    ghost from_gives = { IsRunCause };

    fn from(cause: RunError) -> SortedError {
        SortedError::Run { cause }
    }
}

impl From<MergeError> for SortedError {
    ghost from_gives = { IsFaultOf };

    fn from(error: MergeError) -> SortedError {
        match error {
            MergeError::Memory => SortedError::Run {
                cause: RunError::Memory,
            },
            MergeError::Csv { side, cause } => SortedError::Run {
                cause: RunError::Csv { side, cause },
            },
            MergeError::Falls { side, line } => SortedError::Falls { side, line },
            MergeError::KeyTwice { side, first, again } => {
                SortedError::KeyTwice { side, first, again }
            }
        }
    }
}
