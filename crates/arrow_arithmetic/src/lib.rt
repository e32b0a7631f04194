//! Arithmetic on borrowed columns of numbers. Results are written into the caller's memory.
#![tactic(auto)]

pub mod calculating;
mod functions;
mod operations;
mod present;
mod values;
