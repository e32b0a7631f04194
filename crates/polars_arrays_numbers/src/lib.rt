//! The types of numbers, offsets and keys that arrays hold, comparisons of two numbers, and the
//! counter `Steps`.
#![tactic(auto)]

pub mod comparison;
pub mod dictionary_key;
pub mod native_type;
pub mod offset;
pub mod steps;
