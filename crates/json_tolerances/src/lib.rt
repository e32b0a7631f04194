//! Closeness and order of the numbers of JSON, in exact decimals.
#![tactic(auto)]

pub mod bounds;
pub mod closeness;
pub mod error;
pub mod laws;
mod numbers;
pub mod order;
mod sums;
mod terms;
