//! The basis of the exported calls: errors and their status codes, the codes of operations in C,
//! numbers of 128 bits in the caller's memory, and borrowed columns of the numbers of a part.
#![tactic(auto)]

pub mod columns;
pub mod counts;
pub mod fault;
pub mod number;
pub mod operations;
