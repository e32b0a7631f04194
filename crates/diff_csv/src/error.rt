//! The errors of reading a CSV text.

ghost use Rattle.std.specs.Prelude.{◌≡◌};
ghost use Rattle.csv.specs.Reading.{error_kind};
ghost use Rattle.diff_csv.specs.Errors.{IsOutOfMemory, fault_of_kind};

use csv::ErrorKind;
use std::alloc::{AllocError, AllocFailed};
use std::io;
use thiserror::Error;

/// An error of reading a CSV text.
#[derive(Debug, Drop, Error)]
pub enum CsvError {
    /// An allocation failed.
    #[error("out of memory")]
    Memory,
    /// The reader that gives the text failed.
    #[error("{cause}")]
    Read {
        cause: io::Error,
    },
    /// The delimiter is a quote, a line feed or a carriage return. Nothing was read.
    #[error("fields can't be parted by a quote or by the end of a line")]
    Delimiter,
    /// A record has a different number of fields (`found`) than the first record (`expected`).
    /// `line` is the line at which the record begins, counted as in `CsvTable::lines`.
    #[error("the record at line {line} has a field count of {found}, and the first of {expected}")]
    Length {
        line: u64,
        expected: u64,
        found: u64,
    },
    /// The text ends within quotes. `line` is the line at which the record with the opening quote
    /// begins, counted as in `CsvTable::lines`.
    #[error("the quote that opens in the record at line {line} never ends")]
    OpenQuote {
        line: u64,
    },
}

impl From<AllocError> for CsvError {
    ghost from_gives = { λ _ r. IsOutOfMemory r };

    fn from(_failed: AllocError) -> CsvError {
        CsvError::Memory
    }
}

impl<T: Drop> From<AllocFailed<T>> for CsvError {
    ghost from_gives = { λ _ r. IsOutOfMemory r };

    fn from(_failed: AllocFailed<T>) -> CsvError {
        CsvError::Memory
    }
}

/// Converts an error of the `csv` crate: a failed read becomes `Read`, any other error `Memory`.
pub(crate) fn fault_of(error: csv::Error) -> CsvError
    ensures { result ≡ fault_of_kind (error_kind error) }
{
    match error.into_kind() {
        ErrorKind::Io(cause) => CsvError::Read { cause },
        // The records are read as bytes and may have any length, so the only other error is a
        // failed allocation.
        _ => CsvError::Memory,
    }
}
