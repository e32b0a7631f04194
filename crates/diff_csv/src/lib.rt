//! Reads CSV texts into tables. A row of a table is a record that the `csv` crate reads, with its
//! cells in the columns that the caller chooses. The caller can restrict the rows to one part of
//! the table (`Part` of `diff_parts`): the hash of a row's key decides which part the row is in.
//! All records must have as many fields as the first one.
#![tactic(auto)]

mod ends;
pub mod error;
mod lines;
mod names;
pub mod options;
mod reading;
pub mod row_reader;
mod rows;
pub mod source;
pub mod wanted;
