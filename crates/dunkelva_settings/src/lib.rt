//! The settings that the options of the program `dunkelva` give. Options that do not fit the input
//! files or other options are refused.
//!
//! The parameter `matches` has the options of the command line and of the config file, as clap
//! parsed them. The functions that take `alloc` also fail if an allocation fails.
#![tactic(auto)]

pub mod choices;
pub mod keys;
pub mod kinds;
pub mod parts;
pub mod rules;
pub mod schemas;
pub mod tolerances;
pub mod words;
