//! Matches the rows of two tables by their keys. If several rows of a table have the same key, the
//! first of them is matched with the first such row of the other table, the second with the second,
//! and so on. Two matched rows are partners.
#![tactic(auto)]

pub mod blocks;
pub mod error;
pub mod hash;
mod listing;
pub mod matching;
pub mod outcome;
mod partners;
pub mod unique;
mod waiting;
