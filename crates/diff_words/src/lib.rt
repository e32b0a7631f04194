//! Writes the small parts of reports: cells, words, lists, numbers and colours. Cells and words are
//! written without control characters, whatever bytes they have.
#![tactic(auto)]

pub mod cells;
pub mod colors;
pub mod decimals;
pub mod formats;
pub mod lists;
mod quoted;
pub mod words;
