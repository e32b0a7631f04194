//! The errors of the program.

use polars_arrays_bits::error::{ArrayError, ComputeError};
use std::alloc::{AllocError, AllocFailed};
use std::io;
use thiserror::Error;

/// The reason why the program fails.
#[derive(Debug, Drop, Error)]
pub enum Fault {
    /// The parts of an array do not fit together.
    #[error("no array: {0}")]
    Parts(ArrayError),
    /// The two columns differ in type or in length.
    #[error("columns of two types or lengths")]
    Columns,
    /// An allocation failed.
    #[error("out of memory")]
    Memory,
    /// The output could not be written.
    #[error("the answer could not be written")]
    Output,
}

impl From<ArrayError> for Fault {
    fn from(refused: ArrayError) -> Fault {
        Fault::Parts(refused)
    }
}

// `Memory` is the only error of the kernels called here.
impl From<ComputeError> for Fault {
    fn from(_refused: ComputeError) -> Fault {
        Fault::Memory
    }
}

impl From<AllocError> for Fault {
    fn from(_refused: AllocError) -> Fault {
        Fault::Memory
    }
}

impl<T: Drop> From<AllocFailed<T>> for Fault {
    fn from(_refused: AllocFailed<T>) -> Fault {
        Fault::Memory
    }
}

impl From<io::Error> for Fault {
    fn from(_refused: io::Error) -> Fault {
        Fault::Output
    }
}
