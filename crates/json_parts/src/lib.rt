//! The parts of a JSON value: its members and items at any depth, each with its path.
#![tactic(auto)]

pub mod laws;
mod names;
pub mod parts;
