//! Arrays of byte strings and of texts with offsets, and arrays of byte strings of one fixed size.
#![tactic(auto)]

pub mod binary;
pub mod fixed_size;
pub mod lent_strings;
pub mod of_size;
pub mod offset_type;
pub mod offsets;
pub mod text;
