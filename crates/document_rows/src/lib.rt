//! Reads inputs with a JSON document on each line into tables, and finds the matched documents that
//! differ.
#![tactic(auto)]

mod cells;
pub mod document;
pub mod error;
mod guesses;
mod known;
mod lines;
pub mod pairs;
pub mod parts;
pub mod read;
pub mod reading;
mod values;
