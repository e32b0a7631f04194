//! The faults of a line.

ghost use Rattle.std.specs.Prelude.{◌≡◌, IfOk, IfErr, Ok};
ghost use Rattle.polars_arrays_bits.specs.Errors.{IsMemory};
ghost use Rattle.polars_tables_rows.specs.declared.fault.LineError.TheVariants.{Memory};

use polars_arrays_bits::error::ComputeError;
use std::alloc::{AllocError, AllocFailed};
use thiserror::Error;

/// The reason why a line is refused. If a line has several faults, the first one in the order of
/// these variants is returned.
#[derive(Debug, Drop, PartialEq, Eq, Error)]
pub enum LineError {
    /// The line has no word, or the first word is not the name of an operation.
    #[error("op")]
    Op,
    /// The line has no second word, or the second word is not the name of a type that the operation
    /// accepts.
    #[error("type")]
    TypeName,
    /// A later word is neither a bar (`|`) nor a row of the type.
    #[error("row")]
    Row,
    /// The operation takes another number of lists, or the lists have wrong lengths.
    #[error("length")]
    Length,
    /// A scalar or an end of a range is null; the first end of the range is greater than the last;
    /// the range has more than a million numbers; or a present row lies outside the range.
    #[error("range")]
    Range,
    /// An allocation failed. This may be returned in place of a fault that would have been found
    /// later.
    #[error("memory")]
    Memory,
}

impl From<AllocError> for LineError {
    ghost from_gives = { λ _ e. e ≡ Memory };

    fn from(_error: AllocError) -> LineError {
        LineError::Memory
    }
}

impl<T: Drop> From<AllocFailed<T>> for LineError {
    ghost from_gives = { λ _ e. e ≡ Memory };

    fn from(_error: AllocFailed<T>) -> LineError {
        LineError::Memory
    }
}

/// Returns the value in `answer`, or `LineError::Memory` if `answer` is an error. That error must
/// be `ComputeError::Memory`.
pub fn or_memory<X>(answer: Result<X, ComputeError>) -> Result<X, LineError>
    requires { IfErr answer IsMemory }
    ensures answered { IfOk result (λ x. answer ≡ Ok x) }
    ensures refused { IfErr result (λ e. e ≡ Memory) }
{
    match answer {
        Ok(x) => Ok(x),
        Err(ComputeError::Memory(_)) => Err(LineError::Memory),
        Err(_) => unreachable!(),
    }
}
