//! Reasons why a call fails, and their status codes in C.

ghost use Rattle.std.specs.Prelude.{◌≡◌};
ghost use Rattle.arrow_calls.specs.Statuses.{fault_of, status_of};
ghost use Rattle.arrow_calls.specs.declared.fault.Fault.TheVariants.{Memory};
ghost use Rattle.polars_arrays_bits.specs.Errors.{IsMemory};

use arrow_parts::refused::Refused;
use polars_arrays_bits::error::ComputeError;

/// A reason why a call fails.
#[derive(Clone, Copy, Drop, Debug)]
pub enum Fault {
    /// The parts do not describe an array.
    Parts,
    /// The two arrays differ in type or in length, or a given number is out of the range of the
    /// column's type.
    Types,
    /// The caller's memory is too small for the result, or has another length than the result.
    Room,
    /// An allocation failed.
    Memory,
    /// The call does not support this kind of array, or the code of an operation is unknown.
    NotServed,
}

impl From<Refused> for Fault {
    ghost from_gives = { λ refused fault. fault ≡ fault_of refused };

    fn from(refused: Refused) -> Fault {
        match refused {
            Refused::Parts => Fault::Parts,
            Refused::Types => Fault::Types,
            Refused::Room => Fault::Room,
            Refused::Memory => Fault::Memory,
        }
    }
}

impl From<ComputeError> for Fault {
    ghost from_gives = { λ e fault. IsMemory e → fault ≡ Memory };

    fn from(error: ComputeError) -> Fault {
        match error {
            ComputeError::Memory(_) => Fault::Memory,
            ComputeError::Unsupported | ComputeError::KeyOutOfRange { .. } => Fault::NotServed,
        }
    }
}

/// Returns the status code of a failed call in C, from 1 (`DUNKELVA_BAD_ARRAY`) to 5
/// (`DUNKELVA_NOT_SERVED`).
pub fn status(fault: Fault) -> i32
    ensures { result ≡ status_of fault }
{
    match fault {
        Fault::Parts => 1,
        Fault::Types => 2,
        Fault::Room => 3,
        Fault::Memory => 4,
        Fault::NotServed => 5,
    }
}
