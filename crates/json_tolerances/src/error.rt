//! Errors of reading a bound.

use thiserror::Error;

/// The reason why a text is not a bound.
#[derive(Clone, Copy, Debug, Drop, Error, PartialEq, Eq)]
pub enum BoundError {
    /// The text is not a number of JSON.
    #[error("is not a number")]
    NotANumber,
    /// The number begins with a minus sign.
    #[error("is negative")]
    Negative,
    /// The exponent has more than 30 digits, not counting leading zeros.
    #[error("has an exponent of more than 30 digits")]
    WideExponent,
    /// The number has more than 18 digits, not counting leading zeros.
    #[error("has more than 18 digits")]
    TooLong,
}
