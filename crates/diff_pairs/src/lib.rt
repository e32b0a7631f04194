//! Finds those pairs of rows in two arrays whose two rows differ, without copying rows. The row
//! numbers of the pairs become the keys of two dictionary arrays, whose values are the two arrays.
//! The equality kernel compares these dictionary arrays.
#![tactic(auto)]

pub mod cells;
pub mod changed;
mod picked;
pub mod rows;
mod unset;
