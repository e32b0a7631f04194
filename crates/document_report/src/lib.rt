//! Writes the report of a comparison of two files of documents, as text or JSON lines.
#![tactic(auto)]

mod documents;
mod pairs;
pub mod report;
