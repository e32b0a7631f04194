//! The commands of the program `dunkelva`: comparisons and schemas of files.
//!
//! The parameter `matches` has the options of the command line and of the config file, as clap
//! parsed them. The functions that return a `Result` may also fail because an allocation fails.
#![tactic(auto)]

mod inputs;
mod outputs;
mod progress;
pub mod run;
mod schema;
mod schema_changes;
mod tasks;
