//! States of distinct values in the caller's memory. A state has a bit for each number of a range,
//! and a flag for null.
#![tactic(auto)]

pub mod appending;
mod first_bits;
pub mod listing;
mod marking;
pub mod merging;
pub mod range;
