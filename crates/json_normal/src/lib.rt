//! The normal text of a JSON value: members in the order of their names, numbers in one form.
#![tactic(auto)]

pub mod laws;
mod order;
pub mod write;
