//! Writes reports as Markdown, for example for pull requests.
#![tactic(auto)]

mod cells;
mod counts;
mod escapes;
pub mod laws;
mod line;
pub mod markdown;
mod rows;
