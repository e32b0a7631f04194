//! The faults of lines that are not documents, and where in a line a fault is. A document is a JSON
//! object on one line. It has a value at the path of each key, unless missing keys are allowed.
#![tactic(auto)]

pub mod fault;
pub mod narrow;
pub mod place;
