//! Comparisons of the stored rows of arrays that are not nested. The module `joining` combines
//! their results with masks, which decides how nulls compare.
//!
//! Comparisons of two rows in views read a buffer only if the lengths and the prefixes (first four
//! bytes) don't decide. They count the pairs of rows for which they read a buffer.
#![tactic(auto)]

pub mod booleans;
pub mod bytes;
pub mod followed;
pub mod joining;
pub mod numbers;
pub mod row_comparison;
pub mod sized;
pub mod view_comparison;
pub mod view_windows;
