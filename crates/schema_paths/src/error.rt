//! The errors of reading the schema of documents.

ghost use Rattle.schema_paths.specs.Errors.{IsMemory};

use document_rows::error::ReadError;
use std::alloc::AllocError;
use thiserror::Error;

/// An error of reading the schema of documents.
#[derive(Debug, Drop, Error)]
pub enum SchemaError {
    /// An allocation failed.
    #[error("out of memory")]
    Memory,
    /// The input can't be read, memory runs out while it is read, or a line is not a document and
    /// lines may not be skipped. `cause` says which of these.
    #[error("{cause}")]
    Read { cause: ReadError },
    /// The input has lines, but all of them were skipped because they are not documents.
    #[error("no line is a document")]
    AllSkipped,
}

impl From<AllocError> for SchemaError {
    ghost from_gives = { λ _ r. IsMemory r };

    fn from(_failed: AllocError) -> SchemaError {
        SchemaError::Memory
    }
}
