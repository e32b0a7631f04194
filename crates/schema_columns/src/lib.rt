//! Makes schemas of columns: the kind of the values, the numbers of null and missing cells and of
//! different values, and the least and greatest value.
#![tactic(auto)]

pub mod column;
mod distinct;
mod extremes;
pub mod kind;
pub mod present;
mod wholes;
