//! Counts different values, and finds the least and the greatest value, for byte strings and for
//! numbers. Numbers are compared as exact decimals. Also defines the parts of schemas.
#![tactic(auto)]

pub mod distinct;
pub mod laws;
mod normal;
pub mod numbers;
pub mod part;
mod places;
