//! Computations on columns. This crate re-exports the modules of several crates:
//!
//! - `arithmetic`: arithmetic on arrays of numbers (`ArithmeticKernel`) and on single numbers
//!   (`pl_num::PlNumArithmetic`)
//! - `arity`: functions applied to the stored values of arrays
//! - `bitwise`: counts and reductions of bits (`BitwiseKernel`)
//! - `sum`: wrapping sums
//! - `unique`: distinct values
//! - `comparisons`: equality and order
//! - `min_max`: the least and the greatest row
//! - `laws`: laws that hold of all results
#![tactic(auto)]

pub use polars_compute_arithmetic::{arithmetic, arity};
pub use polars_compute_reductions::{bitwise, sum};

pub mod comparisons;
pub mod laws;
pub mod min_max;
pub mod unique;
