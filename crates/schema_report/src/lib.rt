//! Writes the schemas of columns, and the differences between the columns of two tables, as text
//! and as JSON lines. Finds the differences between any two schemas.
#![tactic(auto)]

pub mod aligned;
pub mod changes;
pub mod changes_json;
pub mod changes_text;
pub mod files;
mod grid;
pub mod json_lines;
pub mod laws;
pub mod text;
pub mod words;
