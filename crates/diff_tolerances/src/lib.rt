//! Applies tolerances: a number of the right table is replaced by the number in the same column of
//! its row's left partner if the two differ by no more than a tolerance allows. The two then count
//! as equal.
#![tactic(auto)]

pub mod cells;
mod partners;
mod rows;
pub mod table;
