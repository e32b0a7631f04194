//! The errors of comparing two inputs of documents.

ghost use Rattle.document_run.specs.Faults.{IsMemory};

use diff_columns::error::Side;
use document_rows::error::ReadError;
use std::alloc::AllocError;
use std::io;
use thiserror::Error;

/// An error of comparing two inputs of documents. With any error except `Write`, nothing was
/// written to the output.
#[derive(Debug, Drop, Error)]
pub enum DocumentError {
    /// An allocation failed.
    #[error("out of memory")]
    Memory,
    /// An input has more than 2^32 documents.
    #[error("a file has more than 4,294,967,296 documents")]
    TooManyRows,
    /// The input on this side can't be read, memory runs out while it is read, or a line is not a
    /// document and lines may not be skipped. `cause` says which of these.
    #[error("{cause}")]
    Read { side: Side, cause: ReadError },
    /// The input on this side has lines, but all of them were skipped because they are not
    /// documents.
    #[error("no line is a document")]
    AllSkipped { side: Side },
    /// Two documents of an input have the same key, but keys must be unique. `first` and `again`
    /// are the numbers of their lines, from 1 on.
    #[error("the documents at lines {first} and {again} have the same key")]
    KeyTwice { side: Side, first: u64, again: u64 },
    /// A write failed. The beginning of the report may have been written.
    #[error("{cause}")]
    Write { cause: io::Error },
}

impl From<AllocError> for DocumentError {
    ghost from_gives = { λ _ r. IsMemory r };

    fn from(_failed: AllocError) -> DocumentError {
        DocumentError::Memory
    }
}
