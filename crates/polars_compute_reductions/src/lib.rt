//! Counts, reductions and sums of columns. Sums, bitwise reductions and extremes of numbers share
//! one loop, the fold of the present rows.
#![tactic(auto)]

pub mod bit_counts;
pub mod bit_number;
pub mod bit_operators;
pub mod bitwise;
mod flags;
pub mod fold;
pub mod operator;
pub mod sum;
mod truths;
pub mod wrapping;
