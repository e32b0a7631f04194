//! Kernels for lent arrays of any type: missing equality, and the rows that are null.
#![tactic(auto, using(crate::proofs::Comparisons::comparisons))]

mod compared;
pub mod equal;
mod lists;
pub mod nulls;
mod numbers;
mod part_strings;
mod part_views;
mod strings;
mod structs;
mod views;
