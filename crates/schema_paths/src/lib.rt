//! Makes the schema of JSON documents: for each path the number of values of each kind, and the
//! least and greatest number.
#![tactic(auto)]

pub mod error;
pub mod kinds;
pub mod paths;
pub mod read;
