//! The differences between two JSON values: the smallest parts that differ, each with its path.
#![tactic(auto)]

pub mod changes;
mod compare;
pub mod laws;
mod leaves;
mod members;
mod names;
mod parts;
mod paths;
pub mod rules;
mod trail;
