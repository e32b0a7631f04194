//! The errors of reading a line and computing its result.

use polars_arrays_bits::error::{ArrayError, ComputeError};
use std::alloc::{AllocError, AllocFailed};
use std::io;
use thiserror::Error;

/// The reason why a line has no result.
#[derive(Debug, Drop, Error)]
pub enum Fault {
    /// An allocation failed.
    #[error("out of memory")]
    Memory,
    /// A word is missing, wrong, or left over.
    #[error("a word is missing or is another one than should stand there")]
    Word,
    /// Lists, structs and dictionaries are nested deeper than the reader allows. The number is the
    /// limit.
    #[error("arrays hold arrays more than {0} levels deep")]
    Depth(usize),
    /// The parts of an array do not match. The error is that of the array's constructor.
    #[error("no array: {0}")]
    Parts(ArrayError),
    /// The line has no result: no array has a name that the line uses, an array has the name of the
    /// new one already, or an array, an index or a length does not fit the call.
    #[error("no such array, or no such answer")]
    Case,
    /// Input could not be read, or output could not be written.
    #[error("a line could not be read or written")]
    Line,
}

impl From<AllocError> for Fault {
    fn from(_refused: AllocError) -> Fault {
        Fault::Memory
    }
}

impl<T: Drop> From<AllocFailed<T>> for Fault {
    fn from(_refused: AllocFailed<T>) -> Fault {
        Fault::Memory
    }
}

impl From<ComputeError> for Fault {
    fn from(refused: ComputeError) -> Fault {
        match refused {
            ComputeError::Memory(_) => Fault::Memory,
            _ => Fault::Case,
        }
    }
}

impl From<ArrayError> for Fault {
    fn from(refused: ArrayError) -> Fault {
        Fault::Parts(refused)
    }
}

impl From<io::Error> for Fault {
    fn from(_error: io::Error) -> Fault {
        Fault::Line
    }
}
