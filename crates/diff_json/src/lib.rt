//! Writes the report of a comparison as JSON lines: an object for each difference, and one for the
//! counts.
#![tactic(auto)]

mod cells;
mod changes;
pub mod columns;
pub mod counts;
mod keys;
pub mod laws;
pub mod lines;
pub mod numbers;
pub mod strings;
