//! Paths into JSON values.
#![tactic(auto)]

pub mod error;
pub mod laws;
pub mod parse;
pub mod path;
pub mod pattern;
