//! The errors that the program `dunkelva` prints, and hints at what is wrong with its files.
#![tactic(auto)]

/// Creates an error whose message is formatted as by `format!`.
#[macro_export]
macro_rules! trouble {
    ($($message:tt)+) => {
        $crate::error::Error::msg(format_args!($($message)+))
    };
}

pub mod error;
pub mod files;
pub mod hints;
pub mod lines;
pub mod members;
pub mod names;
pub mod near;
mod slips;
