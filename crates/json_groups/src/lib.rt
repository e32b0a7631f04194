//! The parts of JSON documents, grouped by path.
#![tactic(auto)]

pub mod group;
pub mod groups;
pub mod tally;
