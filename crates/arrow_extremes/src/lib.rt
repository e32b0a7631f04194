//! The least and the greatest number of a column that borrows its numbers.
#![tactic(auto)]

pub mod extremes;
