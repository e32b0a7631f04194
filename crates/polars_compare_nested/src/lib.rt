//! Missing equality of two arrays of the same type, of any kind and nested to any depth. The
//! comparisons of leaves are counted exactly.
#![tactic(auto)]

pub mod broadcasts;
mod downcast;
mod entries;
mod few_leaves;
mod items;
mod joined_leaves;
pub mod kernels;
pub mod laws;
mod leaf_entries;
pub mod leaf_kernel;
mod leaf_rows;
mod leaf_windows;
mod leaf_words;
mod masks;
mod runs;
mod spans;
mod structs;
pub mod windows;
