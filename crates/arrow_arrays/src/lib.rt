//! Builds arrays from lent parts. The parts are checked, and all data is copied, so that the arrays
//! do not borrow.
#![tactic(auto)]

pub mod build;
mod ends;
mod nested;
mod shapes;
mod slots;
mod views;
mod wide;
