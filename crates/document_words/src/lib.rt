//! Writes the small parts of a report of JSON documents: keys, differences, lines of documents in
//! one file alone, counts, and numbers of skipped lines. They contain no control characters, except
//! for colours and line feeds.
#![tactic(auto)]

pub mod changes;
pub mod counts;
pub mod keys;
pub mod laws;
pub mod lines;
pub mod numbers;
pub mod sides;
pub mod skipped;
