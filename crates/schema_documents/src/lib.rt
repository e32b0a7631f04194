//! Writes the schema of JSON documents, and the differences between two schemas, as text and as
//! JSON lines.
#![tactic(auto)]

pub mod changes_json;
pub mod changes_text;
mod grid;
pub mod json_lines;
mod kinds;
pub mod said;
mod skipped;
pub mod text;
