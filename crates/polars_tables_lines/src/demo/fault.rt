//! The errors of making or comparing two arrays of the demo.

use polars_arrays_bits::error::{ArrayError, ComputeError};
use std::alloc::{AllocError, AllocFailed};
use thiserror::Error;

/// The error of making or comparing two arrays of the demo.
#[derive(Debug, Drop, Error)]
pub enum Fault {
    /// An allocation failed.
    #[error("out of memory")]
    Memory,
    /// The parts do not make an array.
    #[error("{0}")]
    Parts(ArrayError),
    /// The two arrays differ in type or length.
    #[error("the arrays have two types or lengths")]
    Columns,
}

impl From<AllocError> for Fault {
    fn from(_error: AllocError) -> Fault {
        Fault::Memory
    }
}

impl<T: Drop> From<AllocFailed<T>> for Fault {
    fn from(_error: AllocFailed<T>) -> Fault {
        Fault::Memory
    }
}

impl From<ComputeError> for Fault {
    fn from(_error: ComputeError) -> Fault {
        Fault::Memory
    }
}

impl From<ArrayError> for Fault {
    fn from(error: ArrayError) -> Fault {
        Fault::Parts(error)
    }
}
