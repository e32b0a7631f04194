//! Errors of writing the normal text of a number.

ghost use Rattle.json_decimals.specs.Errors.{IsMemory};

use std::alloc::{AllocError, AllocFailed};
use thiserror::Error;

/// The reason why the normal text of a number is not written, or why two numbers are not compared.
#[derive(Clone, Copy, Debug, Drop, Error, PartialEq, Eq)]
pub enum NumberError {
    /// An allocation failed.
    #[error("out of memory")]
    Memory,
    /// The exponent of the number has more than 30 digits, not counting leading zeros.
    #[error("an exponent has more than 30 digits")]
    WideExponent,
}

impl From<AllocError> for NumberError {
    ghost from_gives = { λ _ r. IsMemory r };

    fn from(_failed: AllocError) -> NumberError {
        NumberError::Memory
    }
}

impl<T: Drop> From<AllocFailed<T>> for NumberError {
    ghost from_gives = { λ _ r. IsMemory r };

    fn from(_failed: AllocFailed<T>) -> NumberError {
        NumberError::Memory
    }
}
