//! Distinct values of columns in chunks. A state collects the distinct values of the arrays that
//! are appended to it, and lists them in ascending order. States of one range can be merged. A
//! state of numbers stops reading an array without nulls once all values of the range were seen.
#![tactic(auto)]

pub mod boolean;
pub mod dictionary;
pub mod kernel;
pub mod merge;
pub mod primitive;
