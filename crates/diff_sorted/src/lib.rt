//! Compares two CSV inputs that are sorted by key. In memory are the report and only a few rows of
//! each input.
#![tactic(auto)]

pub mod error;
pub mod lines;
pub mod report;
pub mod run;
pub mod tell;
mod text;
