//! Merges two CSV texts whose rows are sorted by key. The texts are read row by row, and only a few
//! rows are in memory at a time.
#![tactic(auto)]

pub mod cursor;
pub mod error;
mod keys;
pub mod laws;
pub mod merge;
pub mod pairing;
pub mod row;
pub mod sink;
