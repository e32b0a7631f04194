//! Reasons why a kernel for lent arrays fails.

ghost use Rattle.std.specs.Prelude.{◌≡◌};
ghost use Rattle.polars_arrays_bits.specs.Errors.{IsMemory};
ghost use Rattle.arrow_parts.specs.declared.refused.Refused.TheVariants.{Memory, Parts};

use polars_arrays_bits::error::{ArrayError, ComputeError};
use std::alloc::{AllocError, AllocFailed};

/// A reason why a kernel for lent arrays fails.
#[derive(Clone, Copy, PartialEq, Eq, Debug)]
pub enum Refused {
    /// The parts do not make an array.
    Parts,
    /// The two arrays that are compared differ in type or in length.
    Types,
    /// The caller's memory is too small for the result.
    Room,
    /// An allocation failed.
    Memory,
}

impl From<AllocError> for Refused {
    ghost from_gives = { λ _ r. r ≡ Memory };

    fn from(_failed: AllocError) -> Refused {
        Refused::Memory
    }
}

impl<T: Drop> From<AllocFailed<T>> for Refused {
    ghost from_gives = { λ _ r. r ≡ Memory };

    fn from(_failed: AllocFailed<T>) -> Refused {
        Refused::Memory
    }
}

impl From<ComputeError> for Refused {
    ghost from_gives = { λ e r. IsMemory e → r ≡ Memory };

    fn from(error: ComputeError) -> Refused {
        match error {
            ComputeError::Memory(_) => Refused::Memory,
            ComputeError::Unsupported | ComputeError::KeyOutOfRange { .. } => Refused::Types,
        }
    }
}

impl From<ArrayError> for Refused {
    ghost from_gives = { λ _ r. r ≡ Parts };

    fn from(_fault: ArrayError) -> Refused {
        Refused::Parts
    }
}
