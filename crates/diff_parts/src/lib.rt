//! Divides tables into parts by the keys of their rows. Rows with the same key are in the same
//! part, so the comparison of two tables consists of the comparisons of their parts.
#![tactic(auto)]

pub mod laws;
pub mod part;
pub mod rows;
