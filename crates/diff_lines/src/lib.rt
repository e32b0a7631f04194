//! Reads reports in JSON lines, for the crates that convert reports to other formats.
#![tactic(auto)]

pub mod error;
pub mod line;
pub mod lines;
pub mod parts;
