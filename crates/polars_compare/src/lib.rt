//! Comparisons of rows. This crate re-exports the modules of several crates:
//!
//! - `equality`, `order`, `extremes`: the traits `TotalEqKernel`, `TotalOrdKernel` and
//!   `MinMaxKernel` of arrays of one kind
//! - `borrowed_equality`, `borrowed_order`, `borrowed_extremes`: traits with borrowed byte strings
//!   and texts as scalars and results
//! - `dispatch`, `leaf_kernel`: equality of two arrays of any kind, nested or not
//! - `any_extremes`, `scalar`: the least and the greatest row of an array of any kind
//! - `booleans`, `bytes`, `numbers`, `row_comparison`, `followed`: comparisons of stored rows
//! - `joining`: combines the results with nulls
//! - `laws`: laws that hold of all results
#![tactic(auto)]

pub use polars_compare_equality::{borrowed as borrowed_equality, kernel as equality};
pub use polars_compare_extremes::{
    borrowed as borrowed_extremes, dispatch as any_extremes, kernel as extremes, scalar,
};
pub use polars_compare_leaves::{booleans, bytes, followed, joining, numbers, row_comparison};
pub use polars_compare_nested::{kernels as dispatch, leaf_kernel};
pub use polars_compare_order::{borrowed as borrowed_order, kernel as order};

pub mod laws;
