//! The options of the program `dunkelva`, on its command line and in its config file.
#![tactic(auto)]

pub mod command;
pub mod config;
mod given;
pub mod lists;
pub mod options;
pub mod refusals;
mod schema_command;
mod values;
