//! Kernels for columns that borrow their numbers from the caller.
#![tactic(auto)]

pub mod column;
pub mod comparing;
pub mod counting;
pub mod reducing;
pub mod writing;
