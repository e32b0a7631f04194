//! Equality of the rows of two arrays of one kind.
#![tactic(auto)]

mod booleans;
pub mod borrowed;
mod bytes;
mod dictionaries;
mod fixed_size_lists;
mod joining;
pub mod kernel;
mod lists;
mod null;
mod numbers;
mod structs;
mod texts;
mod views;
