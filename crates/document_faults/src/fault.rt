//! The faults of a line that is not a document.

use thiserror::Error;

/// The reason why a line is not a document.
#[derive(Clone, Copy, Debug, Drop, Error, PartialEq, Eq)]
pub enum LineFault {
    /// The line is not UTF-8 or not JSON, or arrays and objects nest deeper than 128 levels.
    #[error("no JSON")]
    Invalid,
    /// An object has two members with the same name.
    #[error("an object has a name twice")]
    RepeatedName,
    /// A number has an exponent of more than 30 digits, leading zeros not counted.
    #[error("an exponent has more than 30 digits")]
    WideExponent,
    /// The line is JSON, but not an object.
    #[error("no JSON object")]
    NoObject,
    /// The line is a JSON object, but it has no value at the path of a key. `key` is the index of
    /// the key, from 0 on.
    #[error("no part at key {key}")]
    NoPart { key: usize },
}
