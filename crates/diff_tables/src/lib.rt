//! Tables of cells, and the comparison of two tables by key.
#![tactic(auto)]

mod alike;
mod cells;
pub mod compare;
mod escaped;
pub mod keys;
pub mod string_list;
pub mod strings;
pub mod table;
