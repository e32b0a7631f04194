//! Writes the text report of a comparison: a line for each difference, and a summary.
#![tactic(auto)]

pub mod counts;
pub mod lines;
mod pairs;
mod rows;
pub mod sides;
pub mod summary;
