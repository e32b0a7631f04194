//! Order of the rows of two arrays of one kind.
#![tactic(auto)]

mod booleans;
pub mod borrowed;
mod bytes;
pub mod kernel;
mod numbers;
mod views;
