//! Compares two inputs of JSON documents by key, and writes a report of their differences.
#![tactic(auto)]

pub mod error;
mod found;
mod inputs;
pub mod laws;
pub mod options;
mod report;
pub mod run;
mod sides;
mod skipped;
mod unique;
