//! Reads a CSV text, and writes the schema of its columns, as text or as JSON lines.
#![tactic(auto)]

pub mod read;
pub mod said;
