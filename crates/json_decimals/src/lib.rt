//! Exact decimals, read from the numbers of JSON, and the normal text of each decimal.
#![tactic(auto)]

mod digits;
pub mod error;
pub mod laws;
pub mod numbers;
pub mod tens;
