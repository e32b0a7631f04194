//! Writes a report as an HTML page. The page is a single file, and loads no other files.
#![tactic(auto)]

mod frame;
pub mod laws;
pub mod page;
mod script;
mod style;
