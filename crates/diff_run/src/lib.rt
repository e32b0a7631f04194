//! Compares two CSV inputs by key, and writes a report of their differences.
#![tactic(auto)]

mod chosen;
mod comparables;
pub mod error;
pub mod heads;
pub mod inputs;
pub mod lines;
mod lone;
mod names;
pub mod options;
pub mod report;
pub mod run;
pub mod sides;
mod unique;
