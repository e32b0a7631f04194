//! The kernels, exported to programs in other languages. They work on memory that the caller lends.
//! A lent array is a part (`Part` of `arrow_parts`), or several parts if it is nested.
//!
//! Each export returns a status: 0 if the result was written, or else the code of a `Fault`
//! (`arrow_calls`) or of a `StateFault` (`states.rt`). If the status is not 0, the caller's memory
//! is unchanged.
//!
//! A part is a *valid column* if it has exactly one number for each row, and either no validity
//! bits or at least one for each row.
#![tactic(auto)]

mod arithmetic;
mod column_bits;
mod column_comparisons;
mod column_counts;
mod column_extremes;
mod column_nulls;
mod column_sums;
mod columns;
mod number_arithmetic;
mod number_comparisons;
mod results;
mod signs;
mod states;
mod trees;
